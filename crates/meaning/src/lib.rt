// What the store means (specs/), and the theorems about it (proofs/). No code, but for one function that names the claims.
#![tactic(auto)]

ghost use Rattle.meaning.specs.Demand.{Demands};
ghost use Rattle.meaning.specs.Computed.{Computed};

// Does nothing. A theorem is proved only where a contract names it: this one names all claims about the definitions, and all computed tables.
pub fn claims_hold()
    ensures demands { Demands }
    ensures tables { Computed }
{}

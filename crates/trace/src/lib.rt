// The store with kept answers as a model over lists of calls (specs/), and the theorems about whole lists (proofs/). No code, but for one function that names the claims.
#![tactic(auto)]

ghost use Rattle.trace.specs.Private.Demand.{Demands};

// Does nothing. A theorem is proved only where a contract names it: this one names all claims about the model.
pub fn claims_hold()
    ensures { Demands }
{}

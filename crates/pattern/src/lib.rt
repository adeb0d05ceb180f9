// Which cached answers an update can change: for a query and an update, the pattern of each joint clause of the two (document 01, "Patterns", rules 1 to 7).
// (Casts are of lengths, counts and bits to smaller numbers, and to and from the codes of operands, which are u64. For these there is no `From`, and the check shows that each fits.)
#![tactic(auto)]

mod affected; // whether an update with its values can change an answer
mod filled; // comparisons with their values filled in
mod filling; // entries with the update's values
mod joint; // a joint clause in arrays
mod labels; // the classes of a joint clause, and its pattern
mod listing; // the list of patterns
mod literals; // whether some row meets comparisons
mod masks; // the clauses of a condition
mod pairing; // the joint clauses of a query and an update
mod relevance; // rules 1 and 2

ghost use Rattle.std.specs.Prelude.{◌≡◌};
ghost use Rattle.pattern.specs.Stored.{clause_total, pattern_at, pattern_list, filled_of, agrees_stored};

pub use affected::reaches;
use lists::in_use;
use relevance::Pair;
pub use relevance::reads;
use std::array;
use table::{Query, Update};

// What a pattern asks of a value of a key: that it is this constant, or the update's parameter of this number (counted from 0), or nothing.
#[derive(Clone, Copy, PartialEq, Eq)]
pub enum Entry {
    Constant(i32),
    Parameter(u8),
    Any,
}

// The pattern of a clause: an entry for each of the query's parameters, the first `count` entries. (An array and a count: there is no heap.)
#[derive(Clone, Copy)]
pub struct Pattern {
    pub entries: [Entry; Pattern::ENTRIES],
    pub count: u8,
}

impl Pattern {
    pub const ENTRIES: usize = 8;

    // The pattern with the update's values for its parameters. (By number: with `map` on the array an update that drops none of 8 kept answers takes 7 % more instructions,
    // and one in the fullest state 3 %: 7,917 for 7,405, and 349,154 for 338,846, in one build.)
    pub fn filled(self, values: &[i32]) -> Pattern
        ensures { result ≡ filled_of values.now self }
    {
        Pattern {
            entries: array::from_fn(|i| filling::filled(self.entries[i], values)),
            count: self.count,
        }
    }

    // Whether the values of a key are what the pattern asks for. (An entry before its value: turned round, an update with 64 kept answers takes 7 to 9 % more instructions.)
    pub fn agrees(&self, values: &[i32]) -> bool
        ensures { result ≡ agrees_stored self.now values.now }
    {
        let entries = in_use(&self.entries, usize::from(self.count));
        values.len() == entries.len()
            && entries
                .iter()
                .zip(values)
                .all(|(entry, value)| filling::agrees(*entry, *value))
    }
}

// The patterns of a query and an update, the first `count` items. Past them stand patterns without entries, which nothing reads. (An array and a count: there is no heap.)
#[derive(Clone, Copy)]
pub struct Patterns {
    pub items: [Pattern; Patterns::CLAUSES],
    pub count: u8,
}

impl Patterns {
    // The most joint clauses that are worked out (rule 5).
    pub const CLAUSES: usize = 64;

    // The patterns of a query and an update, in the order of their clauses.
    pub fn of(query: &Query, update: &Update) -> Patterns
        ensures { result ≡ pattern_list query.now update.now }
    {
        let mut list = listing::no_patterns();
        for i in 0..clause_total(query, update) {
            if let Some(p) = clause_pattern(query, update, i) {
                listing::add(&mut list, p);
            }
        }
        list
    }
}

// How many joint clauses there are to look at.
pub fn clause_total(query: &Query, update: &Update) -> u8
    ensures { result ≡ clause_total query.now update.now }
{
    let pair = Pair::of(query, update);
    if !pair.is_relevant() {
        return 0;
    }
    match pair.pairing() {
        None => 1,
        Some(p) => p.total as u8,
    }
}

// The pattern of joint clause i, if it has one. That the update can matter to the query at all is for `clause_total` to tell, once for all clauses.
// (By number: a caller looks at one pattern and drops it, and no list of 64 is laid out for it.)
pub fn clause_pattern(query: &Query, update: &Update, i: u8) -> Option<Pattern>
    ensures { result ≡ pattern_at query.now update.now i }
{
    let pair = Pair::of(query, update);
    match pair.pairing() {
        None => (i == 0).then_some(pairing::all_any(query)),
        Some(p) => {
            if p.total <= u16::from(i) {
                return None;
            }
            pair.clause_at(&p, i)
        }
    }
}

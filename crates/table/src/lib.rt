// The table layer: statement texts (crate `statement`), answer records (crate `answer`), and here evaluation: rows in the lent cells are tested, listed and changed.
// What lies above names this crate alone. (Casts are of lengths, counts and places to smaller numbers, for which there is no `From`, and one of an enum
// to its place, `target_place`; the check shows that each fits.)
#![tactic(auto)]

mod area; // the rows of a table in the cells
mod changes; // rows inserted, updated, deleted
mod masks; // rows tested, up to 64 at a time
mod listing; // questions: the rows listed, written as a record
mod pairs; // questions over two tables: the pairs of rows listed
mod rows; // the test of a row

ghost use Rattle.table.specs.Demand.{Demands};

pub use answer::{NoRow, check_row, row};
pub use changes::{Changed, change, count_change, removal};
pub use listing::{Selected, select};
pub use pairs::select_pair;
pub use statement::{
    Comparison, Condition, Given, Name, Operand, Order, Query, Refusal, Setting, Statement, Step,
    Table, Term, Update, Value,
};

// All claims of specs/Demand hold. A theorem is proved only where a contract names it: this function is there to name them, and does nothing.
pub fn claims_hold()
    ensures { Demands }
{}

// What test programs share: a script and its lines, the constants of a line, a text beside the tables that a script makes, and how the rows of a record are printed.
// These programs run on a host and may use the heap.
#![tactic(auto)]

mod constants; // the constants of a line
mod lines; // a script, line by line
mod rows; // the rows of a record
mod tables; // a text beside the tables so far

pub use constants::{Constants, Count, LINE, count_at, counted, number, numbered};
pub use lines::{Program, run_lines, run_script, split_line, split_part};
pub use rows::{PAIRS_RECORD, Row, Rows, TABLE_RECORD};
pub use tables::compile;

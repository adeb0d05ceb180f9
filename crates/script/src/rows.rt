// The rows of a record, as they are printed.
use answer::Answer;
use statement::{Query, Table};
use std::fmt;

// The bytes of the longest record of one table, and of any. (`as`: a `From` can't be called in a constant.)
pub const TABLE_RECORD: usize = Answer::HEAD
    + Answer::VALUE * (Query::SELECTED * (Table::ROWS as usize));

pub const PAIRS_RECORD: usize = Answer::HEAD + Answer::VALUE * (Query::SELECTED * Answer::ROWS);

// The values of a row, each behind a space: four bytes each, big-endian. (A type: bytes have no `Display` of their own, and a row is printed alone, too.)
#[derive(Clone, Copy)]
pub struct Row<'a>(pub &'a [u8]);

impl fmt::Display for Row<'_> {
    fn fmt<W: fmt::Write>(&self, f: &mut fmt::Formatter<W>) -> fmt::Result {
        let (values, _) = self.0.as_chunks();
        for value in values {
            write!(f, " {}", i32::from_be_bytes(*value))?;
        }
        Ok(())
    }
}

// The rows of a record, parted by strokes, if the bytes are one.
#[derive(Clone, Copy)]
pub struct Rows<'a>(pub &'a [u8]);

impl fmt::Display for Rows<'_> {
    fn fmt<W: fmt::Write>(&self, f: &mut fmt::Formatter<W>) -> fmt::Result {
        // By number, up to the first that is not there: `answer` gives a row by its number, and an iterator of them would be no shorter than this loop.
        for i in 0..Answer::ROWS {
            if answer::check_row(self.0, i).is_err() {
                break;
            }
            let stroke = if i == 0 { "" } else { " /" };
            write!(f, "{stroke}{}", Row(answer::row(self.0, i)))?;
        }
        Ok(())
    }
}

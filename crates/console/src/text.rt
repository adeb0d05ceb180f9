// What is printed: each line at the start of a lent buffer, as far as there is room. The result says how many bytes that is.
ghost use Rattle.std.specs.Prelude.{◌≡◌, ◌∷◌, ◌++◌};
ghost use Rattle.meaning.specs.Record.{numbers_of};
ghost use Rattle.console.specs.Room.{filled, filled_to};
ghost use Rattle.console.specs.Private.Pieces.{Puts, rows_from, kind_word};
ghost use Rattle.console.specs.Printed.{decimal_text, number_text, row_text, further_text, rows_text, rows_shown, source_word, bad_text, refused_text, added_text, updated_text, flushed_text, answer_text};

use super::numbers::Numbered;
use super::writer::Writer;
use answer::Answer;

// ---- pieces

impl Writer<'_, u8> {
    // A number's digits: those in front of the last, and the last. (`as`: a digit fits, and u64 has no `From` to u8.)
    // Not by `write!`: std says what that leaves only where it succeeds, and nowhere when it does.
    fn decimal(&mut self, n: u64)
        ensures { Puts self.old (decimal_text n) self.new }
    {
        if 10 <= n {
            self.decimal(n / 10);
        }
        self.put(b'0' + (n % 10) as u8);
    }

    fn number(&mut self, n: i32)
        ensures { Puts self.old (number_text n) self.new }
    {
        if n < 0 {
            self.put(b'-');
        }
        self.decimal(u64::from(n.unsigned_abs()));
    }

    // The values of a row, each behind a space.
    fn row(&mut self, row: &[u8])
        ensures { Puts self.old (row_text (numbers_of row.now)) self.new }
    {
        let (values, _) = row.as_chunks::<4>();
        for value in values {
            self.put(b' ');
            self.number(i32::from_be_bytes(*value));
        }
    }

    // The rows behind the first, each behind a stroke, up to the first that is not there: `table` gives a row by its number.
    fn further(&mut self, bytes: &[u8])
        ensures { Puts self.old (further_text (rows_from bytes.now 1)) self.new }
    {
        for i in 1..Answer::ROWS {
            if table::check_row(bytes, i).is_err() {
                return;
            }
            self.put_all(b" /");
            self.row(table::row(bytes, i));
        }
    }

    fn rows(&mut self, bytes: &[u8])
        ensures { Puts self.old (rows_text (rows_shown bytes.now)) self.new }
    {
        if table::check_row(bytes, 0).is_ok() {
            self.row(table::row(bytes, 0));
            self.further(bytes);
        }
    }

    // A word, a space and a number.
    fn item(&mut self, word: &[u8], n: u64)
        ensures { Puts self.old (word.now ++ (32 ∷ decimal_text n)) self.new }
    {
        self.put_all(word);
        self.put(b' ');
        self.decimal(n);
    }
}

// By the kind's number: 1 a table, 2 a question, and any other an update.
fn kind_word(kind: u8) -> &'static [u8]
    ensures { result.now ≡ kind_word kind }
{
    match kind {
        1 => b"table",
        2 => b"query",
        _ => b"update",
    }
}

// Whether the answer was kept: 0 where it is new, and any other number where it was.
fn source_word(source: u8) -> &'static [u8]
    ensures { result.now ≡ source_word source }
{
    match source {
        0 => b"new ",
        _ => b"kept ",
    }
}

// ---- lines

pub fn write_bad(out: &mut [u8]) -> usize
    ensures result { result ≡ filled_to out.old 0 bad_text }
    ensures text { out.new ≡ filled out.old 0 bad_text }
{
    let mut line = Writer::at(out, 0);
    line.put_all(b"bad line\n");
    line.place
}

// A refusal, or its number: any of the 256.
pub fn write_refused<N: Numbered>(out: &mut [u8], refusal: N) -> usize
    ensures result { result ≡ filled_to out.old 0 (refused_text (N.number refusal)) }
    ensures text { out.new ≡ filled out.old 0 (refused_text (N.number refusal)) }
{
    let mut line = Writer::at(out, 0);
    line.item(b"refused", u64::from(refusal.to_number()));
    line.put(b'\n');
    line.place
}

// A kind, or its number: one that is neither 1 nor 2 is an update's.
pub fn write_added<N: Numbered>(out: &mut [u8], kind: N, number: u8) -> usize
    ensures result { result ≡ filled_to out.old 0 (added_text (N.number kind) number) }
    ensures text { out.new ≡ filled out.old 0 (added_text (N.number kind) number) }
{
    let mut line = Writer::at(out, 0);
    line.item(kind_word(kind.to_number()), u64::from(number));
    line.put(b'\n');
    line.place
}

pub fn write_updated(out: &mut [u8], rows: u16, invalidated: u8) -> usize
    ensures result { result ≡ filled_to out.old 0 (updated_text rows invalidated) }
    ensures text { out.new ≡ filled out.old 0 (updated_text rows invalidated) }
{
    let mut line = Writer::at(out, 0);
    line.item(b"rows", u64::from(rows));
    line.put(b' ');
    line.item(b"dropped", u64::from(invalidated));
    line.put(b'\n');
    line.place
}

pub fn write_flushed(out: &mut [u8]) -> usize
    ensures result { result ≡ filled_to out.old 0 flushed_text }
    ensures text { out.new ≡ filled out.old 0 flushed_text }
{
    let mut line = Writer::at(out, 0);
    line.put_all(b"flushed\n");
    line.place
}

// An answer: kept or new (by the source, or its number: 0 is new, any other kept), the rows read, and the rows of the record; of bytes that are no record, none.
pub fn write_answer<N: Numbered>(out: &mut [u8], source: N, scanned: u32, bytes: &[u8]) -> usize
    ensures result { result ≡ filled_to out.old 0 (answer_text (N.number source) scanned bytes.now) }
    ensures text { out.new ≡ filled out.old 0 (answer_text (N.number source) scanned bytes.now) }
{
    let mut line = Writer::at(out, 0);
    line.put_all(source_word(source.to_number()));
    line.item(b"read", u64::from(scanned));
    line.put_all(b" :");
    line.rows(bytes);
    line.put(b'\n');
    line.place
}

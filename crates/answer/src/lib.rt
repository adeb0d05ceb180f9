// Answer records: a row shown as a part of the record, and the bytes of a record written to a lent buffer.
// A record is four bytes, the length of what follows; a version byte; a byte, columns; two bytes, rows; then four bytes a value. All big-endian.
#![tactic(auto)]

ghost use Rattle.std.specs.Prelude.{◌≡◌, true, false, ◌&&◌, ◌+◌, ◌*◌, ◌≤◌, ◌<◌, leb, eqb, length, get_or, MatchOption};
ghost use Rattle.meaning.specs.Record.{bits_of, bytes4, four_at, columns_in, row_count, row_bytes, has_row, row_refusal, row_start, row_part};
ghost use Rattle.answer.specs.Answer.{record_length, header, put, pointer_past};
ghost use Rattle.answer.specs.Refusal.{number_of, number_in};
ghost use Rattle.answer.specs.Demand.{Demands};

use std::ops::Range;

// The form of a record, and its limits.
#[derive(Clone, Copy)]
pub struct Answer {}

impl Answer {
    pub const VERSION: u8 = 1;

    // The most columns and rows (65,535: request A.1).
    pub const COLUMNS: usize = 8;

    pub const ROWS: usize = 65535;

    // The bytes in front of the first row, and those of a value.
    pub const HEAD: usize = 8;

    pub const VALUE: usize = 4;
}

// Why a row is not shown: the bytes are no record, or it is not there. (The other refusals are of crate `statement`, which lies beside this one.)
#[derive(Clone, Copy, PartialEq, Eq)]
pub struct NoRow {}

impl NoRow {
    // The papers' number.
    pub fn number(self) -> u8
        ensures { result ≡ number_of self }
    {
        14
    }
}

// What the first bytes say: the length of what follows the first four, the version, the columns and the rows.
#[derive(Clone, Copy)]
struct Head {
    size: u32,
    version: u8,
    columns: u8,
    rows: u16,
}

impl Head {
    // The head, if the bytes are as many.
    fn read(bytes: &[u8]) -> Option<Head>
        ensures { MatchOption result (length bytes.now < 8) (λ h. (8 ≤ length bytes.now) × (h.size ≡ four_at bytes.now 0) × (h.version ≡ get_or bytes.now 4 0) × (h.columns ≡ columns_in bytes.now) × (h.rows ≡ row_count bytes.now)) }
    {
        match bytes {
            [a, b, c, d, version, columns, high, low, ..] => Some(Head {
                size: u32::from_be_bytes([*a, *b, *c, *d]),
                version: *version,
                columns: *columns,
                rows: u16::from_be_bytes([*high, *low]),
            }),
            _ => None,
        }
    }

    // The bytes of a row.
    fn width(self) -> usize
        ensures { result ≡ 4 * self.columns }
    {
        Answer::VALUE * usize::from(self.columns)
    }

    // Whether its numbers agree, and the whole length is among so many bytes.
    fn agrees(self, len: usize) -> bool
        ensures { result ≡ (eqb self.version 1 && (leb 1 self.columns && (leb self.columns 8 && (eqb self.size (self.rows * (4 * self.columns) + 4) && leb (self.size + 4) len)))) }
    {
        let columns = usize::from(self.columns);
        let size = self.size as usize; // usize has no From of u32
        self.version == Answer::VERSION
            && (1..=Answer::COLUMNS).contains(&columns)
            && size == usize::from(self.rows) * self.width() + 4
            && size + 4 <= len
    }
}

// Where row i of a record stands, if the bytes are a record, with any bytes behind it, and the row is there.
fn row_range(bytes: &[u8], i: usize) -> Option<Range<usize>>
    ensures { MatchOption result (has_row bytes.now i ≡ false) (λ r. (has_row bytes.now i ≡ true) × (r.start ≡ 8 + i * row_bytes bytes.now) × (r.end ≡ r.start + row_bytes bytes.now) × (r.end ≤ length bytes.now)) }
{
    let head = Head::read(bytes)?;
    if head.agrees(bytes.len()) && i < usize::from(head.rows) {
        let width = head.width();
        let start = Answer::HEAD + i * width;
        return Some(start..start + width);
    }
    None
}

// Row i of a record: the part of the caller's bytes that holds it, or the empty part at their beginning. (No Result: document 01 names this form, the part or the empty part, so why
// there is none is asked of `check_row`.)
pub fn row(bytes: &[u8], i: usize) -> &[u8]
    ensures part { result.now ≡ row_part bytes.now i }
    ensures place { result.ref_ptr ≡ pointer_past bytes.entry (row_start bytes.now i) }
{
    match row_range(bytes, i) {
        Some(range) => &bytes[range],
        None => &bytes[..0],
    }
}

// Refuses a row that is not shown.
pub fn check_row(bytes: &[u8], i: usize) -> Result<(), NoRow>
    ensures { number_in result ≡ row_refusal bytes.now i }
{
    match row_range(bytes, i) {
        Some(_) => Ok(()),
        None => Err(NoRow {}),
    }
}

// Puts bytes at a place, if they fit.
fn put(out: &mut [u8], at: usize, bytes: &[u8])
    ensures { out.new ≡ put out.old at bytes.now }
{
    let size = bytes.len();
    if size <= out.len() && at <= out.len() - size {
        out[at..at + size].copy_from_slice(bytes);
    }
}

// Puts a value at a place, if its four bytes fit.
pub fn put_value(out: &mut [u8], at: usize, v: i32)
    ensures { out.new ≡ put out.old at (bytes4 (bits_of v)) }
{
    put(out, at, &v.to_be_bytes());
}

// The length of the record of so many columns and rows.
pub fn record_length(columns: u8, rows: u16) -> usize
    ensures { result ≡ record_length columns rows }
{
    Answer::HEAD + Answer::VALUE * (usize::from(columns) * usize::from(rows))
}

// Puts the head of that record at the start of the buffer, if its eight bytes fit.
pub fn put_header(out: &mut [u8], columns: u8, rows: u16)
    ensures { out.new ≡ put out.old 0 (header columns rows) }
{
    let size = 4 + 4 * (u32::from(columns) * u32::from(rows));
    let [a, b, c, d] = size.to_be_bytes();
    let [high, low] = rows.to_be_bytes();
    put(out, 0, &[a, b, c, d, Answer::VERSION, columns, high, low]);
}

// Does nothing. A theorem is proved only where a contract names it: this one names the claims about records and their rows.
pub fn claims_hold()
    ensures { Demands }
{}

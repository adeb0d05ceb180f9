// A line gathered from pieces of the input, and what it says.
ghost use Rattle.std.specs.Prelude.{◌≡◌, drop, position};
ghost use Rattle.console.specs.Room.{filled};
ghost use Rattle.console.specs.Lines.{is_newline, line_from, gathered_of, command_of, line_of, values_of, words, word_number, word_value, word_values};
ghost use Rattle.console.specs.Private.Parts.{as_option, values_at, count_on, named_line, numbered_line};

use super::writer::Writer;
use super::{Gathered, Line};
use token::Kind;

// ---- lines of the input

// The bytes from `from` on.
fn rest_of(bytes: &[u8], from: usize) -> &[u8]
    ensures { result.now ≡ drop from bytes.now }
{
    &bytes[from.min(bytes.len())..]
}

// Where the line ends, if its end is there.
fn line_end(bytes: &[u8]) -> Option<usize>
    ensures { result ≡ position is_newline bytes.now }
{
    bytes.iter().position(|b| *b == b'\n')
}

// Puts the input's bytes from `from` on, up to the end of the line, behind the `held` bytes of `line`, as far as there is room: `held` is the place where they go.
// `from`: the promise is for any place of a piece that is lent whole; `serve` lends the rest of a piece, so there it is 0. `line` and `held`: there is no heap, so a line
// is gathered in a lent buffer over several calls, and the caller keeps the place.
pub fn gather(input: &[u8], from: usize, line: &mut [u8], held: usize) -> Gathered
    ensures result { result ≡ gathered_of input.now from line.old held }
    ensures bytes { line.new ≡ filled line.old held (line_from input.now from) }
{
    let rest = rest_of(input, from);
    let end = line_end(rest);
    let size = end.unwrap_or(rest.len());
    let mut gathered = Writer::at(line, held);
    gathered.put_all(&rest[..size]);
    Gathered {
        next: from + size + usize::from(end.is_some()),
        held: gathered.place,
        ended: end.is_some(),
    }
}

// ---- numbers and values

// The value that a word is: one constant within 32 bits.
fn value_in(word: &[u8]) -> Option<i32>
    ensures { result ≡ as_option (word_value word.now) }
{
    let t = token::next(word, 0);
    match t.kind {
        Kind::Constant(value) if t.start == 0 && t.next == word.len() => Some(value),
        _ => None,
    }
}

// A statement's number is a value of digits only.
fn number_in(word: &[u8]) -> Option<usize>
    ensures { result ≡ as_option (word_number word.now) }
{
    if word.starts_with(b"-") {
        return None;
    }
    let value = value_in(word)?;
    usize::try_from(value).ok()
}

// How many values stand behind the first two words of a line, if all are good.
fn count_values(line: &[u8]) -> Option<usize>
    ensures { result ≡ count_on 0 (word_values (drop 2 (words line.now))) }
{
    let mut count = 0;
    for word in line.split(|b| *b == b' ').skip(2) {
        let _good = value_in(word)?;
        count += 1;
    }
    Some(count)
}

// Puts those values at the start of `values`, as far as there is room. They are counted first: a line with a word that is no value leaves `values` as it is.
fn put_values(line: &[u8], values: &mut [i32])
    ensures { values.new ≡ filled values.old 0 (values_at (drop 2 (words line.now))) }
{
    let mut writer = Writer::at(values, 0);
    for word in line.split(|b| *b == b' ').skip(2) {
        writer.put(value_in(word).unwrap_or(0));
    }
}

// ---- commands

// ASK or DO, by their word.
fn named_line(command: &[u8], number: usize, count: usize) -> Option<Line>
    ensures { result ≡ named_line command.now number count }
{
    match command {
        b"ASK" => Some(Line::Ask { number, count }),
        b"DO" => Some(Line::Do { number, count }),
        _ => None,
    }
}

// ASK or DO, with a number and values.
fn numbered_line(line: &[u8]) -> Option<Line>
    ensures { result ≡ numbered_line (words line.now) }
{
    let mut words = line.split(|b| *b == b' ');
    let command = words.next()?;
    let word = words.next()?;
    let number = number_in(word)?;
    let count = count_values(line)?;
    named_line(command, number, count)
}

// What a line says. Its values stand at the start of `values`, as far as there is room.
pub fn read_line(line: &[u8], values: &mut [i32]) -> Line
    ensures result { result ≡ line_of (command_of line.now) }
    ensures values { values.new ≡ filled values.old 0 (values_of (command_of line.now)) }
{
    if Line::BYTES < line.len() {
        return Line::Bad;
    }
    if line.starts_with(b"ADD ") {
        return Line::Add;
    }
    if line == b"FLUSH".as_slice() {
        return Line::Flush;
    }
    match numbered_line(line) {
        Some(said) => {
            put_values(line, values);
            said
        }
        None => Line::Bad,
    }
}

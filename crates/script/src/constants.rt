// The constants of a line.
ghost use Rattle.std.specs.Prelude.{◌≡◌, take, drop, IfOk};
ghost use Rattle.std.specs.Iterator.{YieldsFirst, item_count};
ghost use Rattle.script.specs.Script.{natural_of, number_at, constants_of, constants_left, count_at};

use std::alloc::{AllocError, Global};
use token::Kind;

// The most numbers of a line, where a program reads no more than these: `evaluation` and `examples`.
pub const LINE: usize = 16;

// A count in a text, and where the text goes on behind it.
#[derive(Clone, Copy)]
pub struct Count {
    pub value: usize,
    pub next: usize,
}

// The constants of a text from a place on, up to the first token that is none.
#[derive(Clone, Copy)]
pub struct Constants<'a> {
    text: &'a [u8],
    at: usize,
}

impl<'a> Constants<'a> {
    pub fn new(text: &'a [u8]) -> Self
        ensures { constants_left result ≡ constants_of text.now }
    {
        Constants { text, at: 0 }
    }
}

impl Iterator for Constants<'_> {
    type Item = i32;

    ghost next_gives = { YieldsFirst constants_left };

    ghost remaining = { item_count constants_left };

    fn next(&mut self) -> Option<i32> {
        let t = token::next(self.text, self.at);
        let Kind::Constant(value) = t.kind else {
            return None;
        };
        self.at = t.next;
        Some(value)
    }
}

// A constant as a number; 0 where it is negative.
fn natural(z: i32) -> usize
    ensures { result ≡ natural_of z }
{
    usize::try_from(z).unwrap_or(0)
}

// Number i; 0 where there is none or it is negative. No Option: a missing number is no error of a script, for what such a line gives is not fixed (tests/README.md).
pub fn number(numbers: &[i32], i: usize) -> usize
    ensures { result ≡ number_at numbers.now i }
{
    numbers.get(i).map_or(0, |z| natural(*z))
}

// The number at the start of a text, 0 where there is none or it is negative, and the constants behind it: none where the first token is no constant.
pub fn numbered(alloc: Global, text: &[u8]) -> Result<(usize, Vec<i32>), AllocError>
    ensures number { IfOk result (λ r. r.0 ≡ number_at (constants_of text.now) 0) }
    ensures values { IfOk result (λ r. r.1.items ≡ drop 1 (constants_of text.now)) }
{
    let mut constants = Constants::new(text);
    let first = constants.next();
    let number = first.map_or(0, natural);
    Ok((number, constants.collect(alloc)?))
}

// The first token from a place on, whatever it is, as a count: 0 where it is no constant, or a negative one.
pub fn count_at(text: &[u8], at: usize) -> Count
    ensures { result ≡ count_at text.now at }
{
    let t = token::next(text, at);
    let value = match t.kind {
        Kind::Constant(z) => natural(z),
        _ => 0,
    };
    Count {
        value,
        next: t.next,
    }
}

// What the first token of a text counts, whatever it is, and the constants behind that token, at most so many. (Lines of `bench` are read so: some have no number.)
pub fn counted(alloc: Global, text: &[u8], most: usize) -> Result<(usize, Vec<i32>), AllocError>
    ensures number { IfOk result (λ r. r.0 ≡ (count_at text.now 0).value) }
    ensures values { IfOk result (λ r. r.1.items ≡ take most (constants_of (drop (count_at text.now 0).next text.now))) }
{
    let count = count_at(text, 0);
    let behind = Constants {
        text,
        at: count.next,
    };
    let mut values: Vec<i32> = behind.collect(alloc)?;
    values.truncate(most);
    Ok((count.value, values))
}

#[cfg(test)]
mod tests {
    use super::{counted, numbered};

    // Memory is there, so the values are.
    #[test]
    fn reads_a_number_and_its_values(rt: HostRuntime) {
        match numbered(rt.alloc(), b"7 -1 20 x 3") {
            Ok((number, values)) => {
                assert_eq!(rt; number, 7);
                assert!(rt; values.as_slice() == [-1, 20].as_slice(), "values");
            }
            Err(_) => assert!(rt; false, "no memory"),
        }
    }

    #[test]
    fn counts_a_token_and_reads_the_values_behind_it(rt: HostRuntime) {
        match counted(rt.alloc(), b" x 7 -1 20 3", 3) {
            Ok((number, values)) => {
                assert_eq!(rt; number, 0);
                assert!(rt; values.as_slice() == [7, -1, 20].as_slice(), "values");
            }
            Err(_) => assert!(rt; false, "no memory"),
        }
    }
}

// Whether some row of 32-bit numbers meets literals, comparisons of columns with numbers to be true or not true (A.7): column by column, over null, the least number, the numbers that
// the column is compared with and the numbers after them.
ghost use Rattle.std.specs.Prelude.{◌≡◌, ◌++◌, map};
ghost use Rattle.lists.specs.Lists.{any};
ghost use Rattle.pattern.specs.Private.Deciding.{literal, fits_code, beside_code, all_fit, literals_of, number_fits, beside_fits, column_fits, possible_code};

use super::joint::Joined;
use super::labels::Compared;

impl Compared {
    // Whether it is as wanted with the constant w in a column, or of another column.
    fn fits(self, want: bool, column: u64, w: u64) -> bool
        ensures { result ≡ fits_code column w (literal want self) }
    {
        let test = self.replaced(column, w);
        test.is_open() || test.holds() == want
    }

    // The constant that it compares a column with, if it does.
    fn beside(self, column: u64) -> Option<u64>
        ensures { result ≡ beside_code column self }
    {
        let other = if self.left == column {
            self.right
        } else if self.right == column {
            self.left
        } else {
            column
        };
        (other < Joined::FROM_MARKS).then_some(other)
    }
}

// Whether each of several is.
fn all_fit(tests: &[Compared], want: bool, column: u64, w: u64) -> bool
    ensures { result ≡ all_fit (map (literal want) tests.now) column w }
{
    tests.iter().all(|test| test.fits(want, column, w))
}

// Comparisons that are all to be true, and others of which each is to be as wanted.
#[derive(Clone, Copy)]
pub struct Conjunction<'a> {
    pub first: &'a [Compared],
    pub second: &'a [Compared],
    pub third: &'a [Compared],
    pub want: bool,
}

impl Conjunction<'_> {
    // Whether each is as wanted with the constant w in a column, or of another column.
    fn fits(self, column: u64, w: u64) -> bool
        ensures { result ≡ all_fit (literals_of self.entry) column w }
    {
        all_fit(self.first, true, column, w)
            && (all_fit(self.second, true, column, w) && all_fit(self.third, self.want, column, w))
    }

    // The same with a constant or the next one.
    fn number_fits(self, column: u64, w: u64) -> bool
        ensures { result ≡ number_fits (literals_of self.entry) column w }
    {
        self.fits(column, w) || w < Joined::FROM_MARKS - 1 && self.fits(column, w + 1)
    }

    // The same with the constant that a comparison compares the column with, if it does.
    fn beside_fits(self, test: Compared, column: u64) -> bool
        ensures { result ≡ beside_fits (literals_of self.entry) column test }
    {
        match test.beside(column) {
            Some(w) => self.number_fits(column, w),
            None => false,
        }
    }

    // The same with one of several comparisons.
    fn some_fits(self, tests: &[Compared], column: u64) -> bool
        ensures { result ≡ any (beside_fits (literals_of self.entry) column) tests.now }
    {
        tests.iter().any(|test| self.beside_fits(*test, column))
    }

    // Whether some number in a column meets the literals on it, and those on no column are met.
    fn column_fits(self, column: u64) -> bool
        ensures { result ≡ column_fits (literals_of self.entry) (self.entry.first.now ++ (self.entry.second.now ++ self.entry.third.now)) column }
    {
        self.number_fits(column, Joined::NULL)
            || (self.some_fits(self.first, column)
                || (self.some_fits(self.second, column) || self.some_fits(self.third, column)))
    }

    // Whether each of so many columns has such a number.
    pub fn is_possible(self, width: u8) -> bool
        ensures { result ≡ possible_code width (literals_of self.entry) }
    {
        (0..width).all(|i| self.column_fits(Joined::FROM_COLUMNS + u64::from(i)))
    }
}

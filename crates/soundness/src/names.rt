// Names as numbers: two sound names are the same exactly if their numbers are, so that names are compared in one step. And what a table is but for its name.
ghost use Rattle.std.specs.Prelude.{◌≡◌, Bool, not, ◌&&◌, Option, ℕ, ◌≤◌, eqb, map, length};
ghost use Rattle.lists.specs.Lists.{all, repeats};
ghost use Rattle.soundness.specs.Private.Parts.{some_if, digit_of, digit_table, packed_name, name_number, code_of, columns_on, table_on, single};

use std::array;
use table::{Name, Table};

// ---- the number of a name

// How many digits there are: 1 to 26 for small letters, 27 to 36 for 0 to 9, 37 for the underscore; 0 for any other byte.
const BASE: u64 = 38;

// The digit of each byte, as the ghost field says. The table is made once a test and lent: a constant would be laid out anew wherever it is read.
#[derive(Drop)]
pub struct Digits {
    by_byte: [u8; 256],
    ghost numbered: { by_byte ≡ digit_table },
}

impl Digits {
    // (The casts are of places below 26 and below 10.)
    pub fn new() -> Digits
        ensures { result.by_byte ≡ digit_table }
    {
        let letters: [u8; 26] = array::from_fn(|k| k as u8 + 1);
        let numerals: [u8; 10] = array::from_fn(|k| k as u8 + 27);
        let mut by_byte = [0u8; 256];
        by_byte[usize::from(b'a')..=usize::from(b'z')].copy_from_slice(&letters);
        by_byte[usize::from(b'0')..=usize::from(b'9')].copy_from_slice(&numerals);
        by_byte[usize::from(b'_')] = 37;
        Digits { by_byte }
    }

    fn digit(&self, b: u8) -> u8
        ensures { result ≡ digit_of b }
    {
        self.by_byte[usize::from(b)]
    }

    // Bytes as a number, the first byte its lowest digit, if all are bytes of a name.
    fn packed(&self, bytes: &[u8]) -> Option<u64>
        requires { length bytes.now ≤ 12 }
        ensures { result ≡ packed_name bytes.now }
    {
        let mut code = 0u64;
        for b in bytes.iter().rev() {
            let d = self.digit(*b);
            if d == 0 {
                return None;
            }
            code = code * BASE + u64::from(d);
        }
        Some(code)
    }

    // The number of a name of 1 to 12 bytes.
    pub fn code(&self, name: &Name) -> Option<u64>
        ensures { result ≡ code_of name.now }
    {
        let n = usize::from(name.len);
        if (1 <= n) & (n <= Name::BYTES) & name.bytes[0].is_ascii_lowercase() {
            return self.packed(&name.bytes[..n]);
        }
        None
    }

    // Whether each of these items passes a test and no two have the same number; `code` gives the number of one that passes. (`means`: the test and the number. The numbers stand in
    // an array as far as they are known: there is no heap.)
    pub fn are_apart<T, F: Fn(&Digits, &T) -> Option<u64>>(&self, items: &[T], code: F) -> bool
        ghost means: { (T → Bool) × (T → ℕ) }
        requires few { length items.now ≤ 8 }
        requires callable { F.IsAlwaysCallable code }
        requires told { (d : _) (x : _) (r : Option ℕ) → F.post code d x r → r ≡ some_if (means.0 x.now) (means.1 x.now) }
        ensures { result ≡ (all means.0 items.now && not (repeats eqb (map means.1 items.now))) }
    {
        let mut codes = [0u64; Table::TABLES];
        let mut same = false;
        for (i, item) in items.iter().enumerate() {
            let Some(number) = code(self, item) else {
                return false;
            };
            same |= codes[..i].contains(&number);
            codes[i] = number;
        }
        !same
    }
}

// ---- tables

impl Digits {
    // Whether the names are sound and no two are the same.
    fn columns_are_sound(&self, names: &[Name]) -> bool
        requires { length names.now ≤ 8 }
        ensures { result ≡ columns_on names.now }
    {
        self.are_apart(names, Digits::code)
    }

    // Whether a table's columns and ROWS are sound.
    #[tactic(auto, unfolding(crate::specs::Private::Parts::table_on))]
    fn table_fits(&self, t: &Table) -> bool
        ensures { result ≡ table_on t.now }
    {
        let few = (1 <= t.count) & (usize::from(t.count) <= Table::COLUMNS);
        few && self.columns_are_sound(t.names()) && (1..=Table::ROWS).contains(&t.capacity)
    }

    // The number of a table's name, if the table is sound by itself.
    pub fn table_code(&self, t: &Table) -> Option<u64>
        ensures { result ≡ some_if (single t.now) (name_number t.now.name) }
    {
        let code = self.code(&t.name)?;
        self.table_fits(t).then_some(code)
    }
}

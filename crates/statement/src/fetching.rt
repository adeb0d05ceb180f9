// What stands at a place of a text: names, values, sides of comparisons, a number of rows.
ghost use Rattle.std.specs.Prelude.{◌≡◌, ℕ, map, ◌-◌, ◌*◌, ◌≤◌, ◌<◌, length, take, drop};
ghost use Rattle.meaning.specs.Tokens.{folded};
ghost use Rattle.meaning.specs.Limits.{most_items};
ghost use Rattle.token.specs.Tokens.{token_at};
ghost use Rattle.meaning.specs.Statement.{numbered, operand_of};
ghost use Rattle.statement.specs.Private.Places.{name_on, given_on, column_on};
ghost use Rattle.statement.specs.Private.Sentences.{names_on};
ghost use Rattle.statement.specs.Compiled.{padded, name_struct, no_name, value_struct, operand_struct};
ghost use Rattle.statement.specs.Private.Built.{dotted, place_in, short_name, short_names, short_given, short_column, side_on, columns_on, constant_in, size_in, rows_on};

use super::build::Reading;
use super::names::Scope;
use super::sentences::Item;
use super::{Name, Operand, Table, Value, names};
use token::{Kind, Token};

// An array filled from the front with what `make` makes of each item, and with `blank` behind those. (`made`: what it makes.) By `enumerate` and an index: with `iter_mut` and `zip` the
// proof is about the borrow of each place. It asks of its closure that it may be called, so it is private to this crate.
pub fn placed<T, U: Copy, const N: usize, F: Fn(&T) -> U>(items: &[T], blank: U, make: F) -> [U; N]
    ghost made: { T → U }
    requires few { length items.now ≤ N }
    requires callable { F.IsAlwaysCallable make }
    requires told { (x : _) (r : U) → F.post make x r → r ≡ made x.now }
    ensures { result ≡ padded N blank (map made items.now) }
{
    let mut all = lists::filled(blank);
    for (i, item) in items.iter().enumerate() {
        all[i] = make(item);
    }
    all
}

// The name from `start` up to `end` in small letters, at most twelve bytes of it. Nothing else takes a name's bytes from a text.
fn name_from(text: &[u8], start: usize, end: usize) -> Name
    requires { (start ≤ end) × (end ≤ length text.now) }
    ensures { result ≡ name_struct (short_name (folded (take (end - start) (drop start text.now)))) }
{
    let n = (end - start).min(Name::BYTES);
    Name {
        bytes: placed(&text[start..start + n], 0, |b| token::folded(*b)),
        len: n as u8, // at most 12; u8 has no From of usize
    }
}

// The name that a token of the text is, else the empty one.
fn name_of(text: &[u8], t: Token) -> Name
    requires { (t.start ≤ t.next) × (t.next ≤ length text.now) }
    ensures { (p : ℕ) → t ≡ token_at text.now p → result ≡ name_struct (short_name (name_on text.now p)) }
{
    match t.kind {
        Kind::Name => name_from(text, t.start, t.next),
        _ => Name::default(),
    }
}

pub fn name_at(text: &[u8], place: usize) -> Name
    ensures { result ≡ name_struct (short_name (name_on text.now place)) }
{
    name_of(text, token::next(text, place))
}

// The constant that a token is, 0 for one outside 32 bits.
fn constant(kind: Kind) -> Option<i32>
    ensures { result ≡ constant_in kind }
{
    match kind {
        Kind::Constant(z) => Some(z),
        Kind::Big => Some(0),
        _ => None,
    }
}

// A constant, or the question mark before which so many stand.
pub fn value_at(text: &[u8], place: usize, marks: u8) -> Value
    requires { marks < 128 }
    ensures { result ≡ value_struct (numbered marks (short_given (given_on text.now place))) }
{
    match constant(token::next(text, place).kind) {
        Some(number) => Value { mark: 0, number },
        None => Value {
            mark: marks + 1,
            number: 0,
        },
    }
}

// ---- columns and operands (`text` and `scope` are no struct: `Reading` has the text and each form makes its scope, so one would be made of both for each list and condition, and no
// contract would be shorter)

// The place of the column whose first token is `first`: a dotted one has its own name behind the dot that follows.
fn column_of(text: &[u8], first: Token, scope: &Scope) -> u8
    requires { (first.start ≤ first.next) × (first.next ≤ length text.now) }
    ensures is { (p : ℕ) → first ≡ token_at text.now p → result ≡ place_in scope.now (short_column (dotted scope.now) (column_on (dotted scope.now) text.now p)) }
    ensures few { result ≤ 2 * most_items }
{
    let name = name_of(text, first);
    match scope {
        Scope::One(t) => names::find_column(&name, t),
        Scope::Two(t, u) => {
            let dot = token::next(text, first.next);
            names::find_dotted(&name, &name_at(text, dot.next), t, u)
        }
    }
}

// The place of the column that is written there.
fn column_at(text: &[u8], place: usize, scope: &Scope) -> u8
    ensures { result ≡ place_in scope.now (short_column (dotted scope.now) (column_on (dotted scope.now) text.now place)) }
{
    column_of(text, token::next(text, place), scope)
}

// A side of a comparison.
pub fn operand_at(text: &[u8], place: usize, scope: &Scope, marks: u8) -> Operand
    requires { marks < 127 }
    ensures { result ≡ operand_struct (operand_of (place_in scope.now) marks (side_on (dotted scope.now) text.now place)) }
{
    let t = token::next(text, place);
    if let Kind::Name = t.kind {
        let i = column_of(text, t, scope);
        return Operand {
            code: 2 * i + 2,
            number: 0,
        };
    }
    match constant(t.kind) {
        Some(number) => Operand { code: 0, number },
        None => Operand {
            code: 2 * marks + 1,
            number: 0,
        },
    }
}

// ---- numbers of rows

// A number of rows: 1 to 512. (Crate `soundness` tests a capacity so too: it is one expression of the library's, which a method of `Table` would only name.)
pub fn rows_in(z: i32) -> Option<u16>
    ensures { result ≡ size_in z }
{
    match u16::try_from(z) {
        Ok(n) if (1..=Table::ROWS).contains(&n) => Some(n),
        _ => None,
    }
}

// The number of rows that is written there, or 0: a sentence with another number is past a limit and refused, so that 0 is never stored.
pub fn rows_at(text: &[u8], place: usize) -> u16
    ensures { result ≡ rows_on text.now place }
{
    match token::next(text, place).kind {
        Kind::Constant(z) => rows_in(z).unwrap_or(0),
        _ => 0,
    }
}

// ---- the list of a sentence

impl Reading<'_> {
    // The names of its items.
    pub fn listed_names(&self) -> [Name; Item::ITEMS]
        ensures { result ≡ padded most_items no_name (map name_struct (short_names (names_on self.now.text.now self.now.items.now))) }
    {
        placed(self.items, Name::default(), |item| {
            name_at(self.text, item.name)
        })
    }

    // The places of its columns.
    pub fn listed_places(&self, scope: &Scope) -> [u8; Item::ITEMS]
        ensures { result ≡ padded most_items 0 (map (place_in scope.now) (columns_on (dotted scope.now) self.now.text.now self.now.items.now)) }
    {
        placed(self.items, 0, |item| {
            column_at(self.text, item.name, scope)
        })
    }
}

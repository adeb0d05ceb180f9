// A joint clause in arrays, made from the comparisons that masks select: rule 3 says whose operands they are and what a column of the query becomes.
// A.1: `from` columns of the query stand before those of the updated table, whose column i is the query's column from + i.
ghost use Rattle.std.specs.Prelude.{◌≡◌, true, map, suc, ◌≤◌, min, length, take};
ghost use Rattle.lists.specs.Lists.{All};
ghost use Rattle.meaning.specs.Limits.{is_within32};
ghost use Rattle.meaning.specs.Pattern.{of_value, moved, placed_from, replacing};
ghost use Rattle.statement.specs.Sound.{value_read, operand_read, setting_read};
ghost use Rattle.pattern.specs.Private.Least.{constant_code};
ghost use Rattle.pattern.specs.Private.Flat.{column_of, operand_of, values_of, Coding, Readable, chosen_of, no_clause, Extended, SetOnce, mark_of};

use super::Pattern;
use std::array;
use table::{Condition, Given, Operand, Setting, Term, Value};

// Whose an operand is: the update's, the query's, the query's with columns as INSERT or UPDATE gives them.
// (An enum and no closures: the role says at once what a column and what a question mark becomes, and the contracts name it.)
#[derive(Clone, Copy, PartialEq, Eq)]
pub enum Role {
    Given,
    Asked,
    Inserted,
    Set,
}

// How the operands of a condition are read: whose they are, how many columns of the query stand before those of the updated table, and the update's settings.
#[derive(Clone, Copy)]
pub struct Reading<'a> {
    pub role: Role,
    pub from: u8,
    pub settings: &'a [Setting],
}

// A clause of `count` comparisons: their operators, and their sides as numbers, two a comparison; the query's question marks stand behind the sides.
// (Arrays and a count: there is no heap. Sides and question marks are one array, so that a label is renamed in one pass; and they are numbers and no enum, so that the
// least operand of a class is the least number.)
#[derive(Clone, Copy)]
pub struct Joined {
    pub codes: [u64; Joined::OPERANDS],
    pub ops: [u8; Joined::COMPARISONS],
    pub count: usize,
}

impl Joined {
    // Both sides of sixteen comparisons, and eight question marks of the query.
    pub const OPERANDS: usize = Joined::ASKED + Pattern::ENTRIES;

    pub const COMPARISONS: usize = 2 * Condition::COMPARISONS;

    // Where the question marks start.
    pub const ASKED: usize = 2 * Joined::COMPARISONS;

    // The first number that is no constant; the first of the query's question marks; of columns.
    pub const FROM_MARKS: u64 = 4294967296;

    pub const FROM_ASKED: u64 = 4295032832;

    pub const FROM_COLUMNS: u64 = 4295098368;

    // The number of the null constant, the least of all: constants are counted from it.
    pub const NULL: u64 = 0;

    // No comparison yet.
    pub fn empty() -> Joined
        ensures { result ≡ no_clause }
    {
        // (`as`: there is no `From` of a length.)
        let marks: [u64; Pattern::ENTRIES] = array::from_fn(|k| Joined::FROM_ASKED
            + (k as u64)
            + 1);
        let mut codes = [0u64; Joined::OPERANDS];
        codes[Joined::ASKED..].copy_from_slice(&marks);
        Joined {
            codes,
            ops: [0; Joined::COMPARISONS],
            count: 0,
        }
    }

    // Adds the comparisons of a condition that a mask selects. (A count by hand: there is no heap to collect into. Each is written behind the others,
    // and the next takes its place where it is not selected, so there is no branch.)
    pub fn add(&mut self, condition: &Condition, mask: u8, reading: Reading)
        requires { self.old.count ≤ 8 }
        ensures { Extended self.old.codes self.old.ops self.old.count (chosen_of reading.entry.role reading.entry.from (map setting_read reading.entry.settings.now) condition.now mask) self.new }
    {
        let mut left = mask;
        for c in condition.used() {
            let at = self.count;
            self.codes[2 * at] = reading.operand(c.left_side());
            self.codes[2 * at + 1] = reading.operand(c.right_side());
            self.ops[at] = c.op;
            self.count += usize::from(left % 2);
            left /= 2;
        }
    }
}

// ---- operands

// A constant's number.
pub fn constant_code(z: i32) -> u64
    ensures { (result ≡ constant_code z) × (is_within32 z ≡ true) }
{
    u64::from(z.abs_diff(i32::MIN))
}

// What VALUES or SET gives.
fn value_code(value: Value) -> u64
    ensures { Coding (of_value (value_read value)) result }
{
    match value.read() {
        Given::Constant(z) => constant_code(z),
        Given::Parameter(k) => Joined::FROM_MARKS + u64::from(k) + 1,
    }
}

// A column's number, or the one given, where a setting is of another column.
fn set_once(item: &Setting, column: u8, from: u8, code: u64) -> u64
    ensures { SetOnce item.now from column code result }
{
    if u16::from(from) + u16::from(item.column) == u16::from(column) {
        return value_code(item.new_value());
    }
    code
}

impl Reading<'_> {
    // What a column becomes in an INSERT: the value of its place, or itself outside the inserted ones.
    fn inserted(self, column: u8) -> u64
        ensures { Coding (replacing (placed_from self.entry.from (values_of (map setting_read self.entry.settings.now))) column) result }
    {
        if let Some(i) = column.checked_sub(self.from) {
            if let Some(item) = self.settings.get(usize::from(i)) {
                return value_code(item.new_value());
            }
        }
        Joined::FROM_COLUMNS + u64::from(column)
    }

    // What a column becomes in an UPDATE: what it is last set to, or itself.
    fn set(self, column: u8) -> u64
        ensures { Coding (replacing (moved self.entry.from (map setting_read self.entry.settings.now)) column) result }
    {
        let from = self.from;
        let mut code = Joined::FROM_COLUMNS + u64::from(column);
        for item in self.settings {
            code = set_once(item, column, from, code);
        }
        code
    }

    // A column's number: its own, the updated table's counted through both tables, or of what the update puts there.
    pub fn column(self, column: u8) -> u64
        ensures { Coding (column_of self.entry.role self.entry.from (map setting_read self.entry.settings.now) column) result }
    {
        match self.role {
            Role::Given => Joined::FROM_COLUMNS + u64::from(self.from) + u64::from(column),
            Role::Asked => Joined::FROM_COLUMNS + u64::from(column),
            Role::Inserted => self.inserted(column),
            Role::Set => self.set(column),
        }
    }

    // The number of question mark k + 1, of whom the role says.
    fn mark(self, k: u8) -> u64
        ensures { Coding (mark_of self.entry.role (suc k)) result }
    {
        let from = if self.role == Role::Given {
            Joined::FROM_MARKS
        } else {
            Joined::FROM_ASKED
        };
        from + u64::from(k) + 1
    }

    // A side of a comparison.
    pub fn operand(self, o: Operand) -> u64
        ensures { Coding (operand_of self.entry.role self.entry.from (map setting_read self.entry.settings.now) (operand_read o)) result }
    {
        match o.read() {
            Term::Constant(z) => constant_code(z),
            Term::Parameter(k) => self.mark(k),
            Term::Column(i) => self.column(i),
        }
    }
}

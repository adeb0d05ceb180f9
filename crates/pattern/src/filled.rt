// The comparisons of a query and an update with their values filled in (A.7), and the clauses of "not true".
ghost use Rattle.std.specs.Prelude.{◌≡◌, true, [], ◌∷◌, ◌++◌, map, ◌+◌, ◌≤◌, ◌<◌, length, get_or, pos};
ghost use Rattle.meaning.specs.Condition.{renamed};
ghost use Rattle.meaning.specs.Exact.{is_column};
ghost use Rattle.meaning.specs.Statement.{column as column_operand};
ghost use Rattle.statement.specs.Sound.{comparison_read, operand_read, setting_read};
ghost use Rattle.pattern.specs.Private.Masks.{select, comparisons_read};
ghost use Rattle.pattern.specs.Stored.{is_formed, is_plain, plain_condition, separate_stored};
ghost use Rattle.meaning.specs.Pattern.{constant};
ghost use Rattle.pattern.specs.Private.Flat.{Coding};
ghost use Rattle.pattern.specs.Private.Literals.{Sided, holds_number, exchanged_step, exchanged_of, NotMasked, alike_stored};
ghost use Rattle.pattern.specs.Private.Deciding.{no_tests, tests_in, operand_in, Fills, Reads, FilledAs, is_altered, altered_tests, IsApart, Separated};

use super::joint::{self, Joined, Reading, Role};
use super::labels::Compared;
use super::masks::{self, Clauses};
use lists::in_use;
use table::{Comparison, Condition, Operand, Query, Setting, Step, Term, Update};

// At most as many comparisons as a condition has, with their values, the first `count`: their sides are numbers as in `Joined`, constants and columns alone.
// (An array and a count: there is no heap.)
#[derive(Clone, Copy)]
pub struct Filled {
    pub tests: [Compared; Condition::COMPARISONS],
    pub count: usize,
}

impl Filled {
    // None yet.
    fn none() -> Filled
        ensures { result ≡ no_tests }
    {
        let test = Compared {
            op: Comparison::EQ,
            left: Joined::NULL,
            right: Joined::NULL,
        };
        Filled {
            tests: [test; Condition::COMPARISONS],
            count: 0,
        }
    }

    // The comparisons.
    pub fn used(&self) -> &[Compared]
        ensures are { result.now ≡ tests_in self.now }
        ensures few { length result.now ≤ 8 }
        ensures size { length self.now.tests ≡ 8 }
    {
        in_use(&self.tests, self.count)
    }

    // One more.
    fn push(&mut self, test: Compared)
        requires { self.old.count < 8 }
        ensures counted { self.new.count ≡ self.old.count + 1 }
        ensures are { tests_in self.new ≡ tests_in self.old ++ (test ∷ []) }
    {
        self.tests[self.count] = test;
        self.count += 1;
    }

    // Those that a mask selects. (Each is written; the next takes its place where it is not selected.)
    pub fn chosen(&self, mask: u8) -> Filled
        ensures { tests_in result ≡ select (tests_in self.now) mask }
    {
        let mut chosen = Filled::none();
        let mut left = mask;
        for test in self.used() {
            let at = chosen.count;
            chosen.tests[at] = *test;
            chosen.count += usize::from(left % 2);
            left /= 2;
        }
        chosen
    }
}

// How operands are read with their values: whose they are, the update's settings, its values and the query's.
#[derive(Clone, Copy)]
pub struct Filling<'a> {
    pub role: Role,
    pub settings: &'a [Setting],
    pub given: &'a [i32],
    pub asked: &'a [i32],
}

// ---- operands

// The number of value k, counted from 0; of 0 past the values.
fn value_code(values: &[i32], k: u64) -> u64
    ensures { Coding (constant (get_or values.now k (pos 0))) result }
{
    let value = values.get(k as usize).copied().unwrap_or(0);
    joint::constant_code(value)
}

// Whether a column is among the first `width` and selected.
fn is_altered(column: u8, selected: &[u8], width: u8) -> bool
    ensures { result ≡ is_altered width selected.now column }
{
    column < width && selected.iter().any(|c| column == *c)
}

impl<'a> Filling<'a> {
    // A side, whose question marks become their values.
    fn filled(self, code: u64) -> u64
        ensures { Fills self.entry.given.now self.entry.asked.now code result }
    {
        if code < Joined::FROM_MARKS || Joined::FROM_COLUMNS <= code {
            return code;
        }
        if code < Joined::FROM_ASKED {
            return value_code(self.given, (code - Joined::FROM_MARKS).saturating_sub(1));
        }
        value_code(self.asked, (code - Joined::FROM_ASKED).saturating_sub(1))
    }

    // How operands are read without values.
    fn reading(self) -> Reading<'a>
        ensures role { result.role ≡ self.entry.role }
        ensures from { result.from ≡ 0 }
        ensures settings { result.settings.now ≡ self.entry.settings.now }
    {
        Reading {
            role: self.role,
            from: 0,
            settings: self.settings,
        }
    }

    // A column, by whose it is.
    fn column(self, column: u8) -> u64
        ensures { Sided (operand_in self.entry (column_operand column)) result }
    {
        self.filled(self.reading().column(column))
    }

    // A side of a comparison.
    fn operand(self, o: Operand) -> u64
        ensures { Sided (operand_in self.entry (operand_read o)) result }
    {
        self.filled(self.reading().operand(o))
    }

    // A comparison.
    fn test(self, c: &Comparison) -> Compared
        ensures { Reads (renamed (operand_in self.entry) (comparison_read c.now)) result }
    {
        Compared {
            op: c.op,
            left: self.operand(c.left_side()),
            right: self.operand(c.right_side()),
        }
    }

    // The comparisons of a condition.
    pub fn fill(self, condition: &Condition) -> Filled
        ensures { FilledAs (map (renamed (operand_in self.entry)) (comparisons_read condition.now)) result }
    {
        let mut filled = Filled::none();
        for c in condition.used() {
            filled.push(self.test(c));
        }
        filled
    }

    // That a column holds what it becomes.
    fn unaltered(self, column: u8) -> Compared
        ensures { Reads (holds_number column (operand_in self.entry (column_operand column))) result }
    {
        let right = self.column(column);
        let op = if right == Joined::NULL {
            Comparison::IS_NULL
        } else {
            Comparison::EQ
        };
        let left = Joined::FROM_COLUMNS + u64::from(column);
        Compared { op, left, right }
    }

    // That for each set column that is selected and among the first `width`.
    pub fn alterations(self, selected: &[u8], width: u8) -> Filled
        requires { length self.settings.now ≤ 8 }
        ensures { FilledAs (altered_tests width selected.now (map setting_read self.entry.settings.now) (operand_in self.entry)) result }
    {
        let mut altered = Filled::none();
        for item in self.settings {
            if is_altered(item.column, selected, width) {
                altered.push(self.unaltered(item.column));
            }
        }
        altered
    }
}

// ---- not true

// AND for OR, and OR for AND. (Steps are numbers of the state.)
fn exchanged_step(step: u8) -> u8
    ensures { result ≡ exchanged_step step }
{
    match step {
        Step::COMPARISON => Step::COMPARISON,
        Step::AND => Step::OR,
        _ => Step::AND,
    }
}

fn exchange(steps: &mut [u8; Condition::STEPS])
    ensures { steps.new ≡ map exchanged_step steps.old }
{
    for step in steps.iter_mut() {
        *step = exchanged_step(*step);
    }
}

// A condition with AND and OR exchanged.
fn exchanged(condition: &Condition) -> Condition
    ensures { result ≡ exchanged_of condition.now }
{
    let mut exchanged = *condition;
    exchange(&mut exchanged.steps);
    exchanged
}

// The clauses of "the condition is not true", each comparison in them not true; of an absent WHERE none.
pub fn not_masks(condition: &Condition) -> Clauses
    requires { is_formed condition.now ≡ true }
    ensures { NotMasked condition.now result }
{
    if condition.count == 0 {
        return Clauses {
            masks: [0; Clauses::MOST],
            count: 0,
        };
    }
    masks::formed_masks(&exchanged(condition))
}

// ---- where A.7 decides

fn is_column(o: Operand) -> bool
    ensures { result ≡ is_column (operand_read o) }
{
    matches!(o.read(), Term::Column(_))
}

// Whether a comparison compares no two columns, and columns in it are among the first `width`.
fn is_plain(c: &Comparison, width: u8) -> bool
    ensures { result ≡ is_plain width (comparison_read c.now) }
{
    let apart = Comparison::tests_null(c.op)
        || !(is_column(c.left_side()) && is_column(c.right_side()));
    apart && c.is_below(usize::from(width))
}

// Whether a condition may come from a text, and all its comparisons are such.
fn plain_condition(condition: &Condition, width: u8) -> bool
    ensures plain { result ≡ plain_condition width condition.now }
    ensures apart { result ≡ true → IsApart condition.now }
{
    masks::is_formed(condition) && condition.used().iter().all(|c| is_plain(c, width))
}

// Whether the query is of the updated table alone, and an INSERT has a value for each of the table's columns.
fn is_alike(query: &Query, update: &Update, width: u8) -> bool
    ensures { result ≡ alike_stored width query.now update.now }
{
    let alone = (query.second == 0) & (query.table == update.table);
    let valued = (update.form != Update::INSERT) | (usize::from(width) <= update.used().len());
    alone & ((0 < width) & valued)
}

// Whether A.7 decides: besides, no column is compared with a column.
pub fn is_separate(query: &Query, update: &Update, width: u8) -> bool
    ensures separate { result ≡ separate_stored width query.now update.now }
    ensures separated { result ≡ true → Separated width query.now update.now }
{
    is_alike(query, update, width)
        && (plain_condition(&query.condition, width) && plain_condition(&update.condition, width))
}

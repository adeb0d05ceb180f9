// The classes of a joint clause (rules 6 and 7): operands are numbers, constants the lowest, then the update's parameters, then all others; each class is labelled by its
// least operand, which says what a question mark of the class becomes.
ghost use Rattle.std.specs.Prelude.{◌≡◌, ◌||◌, map, ◌+◌, ◌*◌, ◌≤◌, ◌<◌, min, max, length, get_or};
ghost use Rattle.lists.specs.Lists.{All, any};
ghost use Rattle.meaning.specs.Operator.{truth};
ghost use Rattle.meaning.specs.Pattern.{strict as strict_of};
ghost use Rattle.statement.specs.Operators.{predicate_at, order_of};
ghost use Rattle.pattern.specs.Private.Least.{rename_code, join_least, clashes as clash_of, never_code, is_constant, fails as fail_of, code_constant, entry_of_code};
ghost use Rattle.pattern.specs.Stored.{entry_struct};
ghost use Rattle.pattern.specs.Private.Deciding.{replaced, is_open};
ghost use Rattle.pattern.specs.Private.Flat.{is_join, failing, clause_at, Readable, Ready, Labelled, entries_of, coded_pattern};

use super::joint::Joined;
use super::{Entry, Pattern};
use table::{Comparison, Order};

// ---- labels

fn renamed(from: u64, to: u64, x: u64) -> u64
    ensures { result ≡ rename_code from to x }
{
    if x == from { to } else { x }
}

// Every label `from` becomes `to`. (`table` has the same loop over bytes: one for both would promise by the type's own `==` what each promises by its numbers, and each caller
// would show that they are the same.)
fn relabel(labels: &mut [u64; Joined::OPERANDS], from: u64, to: u64)
    ensures { labels.new ≡ map (rename_code from to) labels.old }
{
    for label in labels.iter_mut() {
        *label = renamed(from, to, *label);
    }
}

// ---- comparisons

// A comparison of a clause: its operator, by its number in the state, and the labels of its sides.
#[derive(Clone, Copy)]
pub struct Compared {
    pub op: u8,
    pub left: u64,
    pub right: u64,
}

// Whether a comparison by this number is false of equal sides, whatever they are.
fn strict(op: u8) -> bool
    ensures { result ≡ strict_of (predicate_at op) }
{
    (op != Comparison::IS_NULL) & !Comparison::truth(op, Order::Equal)
}

// How two constants stand, by their numbers. (`table` does so with values, of another type and with another null; what the two share is `Order::from`.)
fn order(a: u64, b: u64) -> Order
    ensures { result ≡ order_of (code_constant a) (code_constant b) }
{
    if a.min(b) == Joined::NULL {
        return Order::Unknown;
    }
    Order::from(a.cmp(&b))
}

impl Compared {
    // Comparison i, by this operator: its sides are labels 2 i and 2 i + 1.
    fn at(labels: &[u64; Joined::OPERANDS], op: u8, i: usize) -> Compared
        requires { i < 16 }
        ensures op { result.op ≡ op }
        ensures left { result.left ≡ get_or labels.now (2 * i) 0 }
        ensures right { result.right ≡ get_or labels.now (2 * i + 1) 0 }
    {
        Compared {
            op,
            left: labels[2 * i],
            right: labels[2 * i + 1],
        }
    }

    // Whether it is by `=`.
    fn joins(self) -> bool
        ensures { result ≡ is_join (predicate_at self.op) }
    {
        self.op == Comparison::EQ
    }

    // Whether both labels are constants.
    fn is_constant(self) -> bool
        ensures { result ≡ is_constant (max self.left self.right) }
    {
        self.left.max(self.right) < Joined::FROM_MARKS
    }

    // What it does to the labels.
    fn join(self, labels: &mut [u64; Joined::OPERANDS])
        ensures { labels.new ≡ map (join_least (predicate_at self.op) self.left self.right) labels.old }
    {
        if self.joins() {
            relabel(labels, self.left.max(self.right), self.left.min(self.right));
        }
    }

    // Whether it joins two different constants.
    fn clashes(self) -> bool
        ensures { result ≡ clash_of (predicate_at self.op) self.left self.right }
    {
        self.joins() & self.is_constant() & (self.left != self.right)
    }

    // It with a number in place of another.
    pub fn replaced(self, from: u64, to: u64) -> Compared
        ensures { result ≡ replaced from to self }
    {
        Compared {
            op: self.op,
            left: renamed(from, to, self.left),
            right: renamed(from, to, self.right),
        }
    }

    // Whether a side that it looks at is no constant. A null test (A.5) looks at the left one alone.
    pub fn is_open(self) -> bool
        ensures { result ≡ is_open self }
    {
        Joined::FROM_MARKS <= self.left
            || Joined::FROM_MARKS <= self.right && !Comparison::tests_null(self.op)
    }

    // Whether it is true of two constants. A null test looks at the left one alone.
    pub fn holds(self) -> bool
        ensures { result ≡ truth (predicate_at self.op) (code_constant self.left) (code_constant self.right) }
    {
        if Comparison::tests_null(self.op) {
            return Comparison::truth(self.op, order(self.left, self.left));
        }
        Comparison::truth(self.op, order(self.left, self.right))
    }

    // Whether it is never true, since the class of a side holds the null constant (A.5); null tests aside.
    fn never_holds(self) -> bool
        ensures { result ≡ (never_code (predicate_at self.op) self.left || never_code (predicate_at self.op) self.right) }
    {
        (self.left.min(self.right) == Joined::NULL) & !Comparison::tests_null(self.op)
    }

    // Whether it cannot be true of its sides' labels.
    fn fails(self) -> bool
        ensures { result ≡ fail_of (predicate_at self.op) self.left self.right }
    {
        (strict(self.op) & (self.left == self.right))
            | (self.never_holds() | (self.is_constant() & !self.holds()))
    }
}

// ---- the labels of a clause

// The labels of the operands of a clause, unless two different constants are in one class.
fn label_all(clause: &Joined) -> Option<[u64; Joined::OPERANDS]>
    requires { Ready clause.now.codes clause.now.count }
    ensures { Labelled clause.now.codes clause.now.ops clause.now.count result }
{
    let mut labels = clause.codes;
    // An index loop: a turn reads two of the labels that it then changes.
    for i in 0..clause.count {
        let comparison = Compared::at(&labels, clause.ops[i], i);
        if comparison.clashes() {
            return None;
        }
        comparison.join(&mut labels);
    }
    Some(labels)
}

// Whether some comparison by these numbers cannot hold of its sides' labels. (By number: the sides of comparison i are labels 2 i and 2 i + 1.)
fn some_fails(labels: &[u64; Joined::OPERANDS], ops: &[u8]) -> bool
    requires { length ops.now ≤ 16 }
    ensures { result ≡ any failing (clause_at labels.now ops.now (length ops.now)) }
{
    for (i, op) in ops.iter().enumerate() {
        let comparison = Compared::at(labels, *op, i);
        if comparison.fails() {
            return true;
        }
    }
    false
}

// ---- patterns

// The constant of a number. (A difference; `TryFrom` would test what is asked.)
fn constant_of(code: u64) -> i32
    requires { code < 4294967296 }
    ensures { result ≡ code_constant code }
{
    ((code as i64) + i64::from(i32::MIN)) as i32
}

// What a label says of a question mark.
fn entry_of(code: u64) -> Entry
    requires { Readable code }
    ensures { result ≡ entry_struct (entry_of_code code) }
{
    if code < Joined::FROM_MARKS {
        return Entry::Constant(constant_of(code));
    }
    if code < Joined::FROM_ASKED {
        return Entry::Parameter((code - Joined::FROM_MARKS - 1) as u8);
    }
    Entry::Any
}

// The entries of question marks, by their labels. (`statement` has this loop for any type in `placed`, which asks of its closure what it makes, so it can't be public.
// By number: with `iter_mut` and `zip` the proof is about the borrow of each place.)
fn entries_of(labels: &[u64]) -> [Entry; Pattern::ENTRIES]
    requires { (length labels.now ≤ 8) × All Readable labels.now }
    ensures { result ≡ entries_of labels.now }
{
    let mut entries = [Entry::Any; Pattern::ENTRIES];
    for (k, label) in labels.iter().enumerate() {
        entries[k] = entry_of(*label);
    }
    entries
}

// The pattern of a clause in arrays, if it has one, for so many question marks.
pub fn pattern_of(clause: &Joined, marks: usize) -> Option<Pattern>
    requires { Ready clause.now.codes clause.now.count × (marks ≤ 8) }
    ensures { result ≡ coded_pattern marks (clause_at clause.now.codes clause.now.ops clause.now.count) }
{
    let labels = label_all(clause)?;
    if some_fails(&labels, &clause.ops[..clause.count]) {
        return None;
    }
    Some(Pattern {
        entries: entries_of(&labels[Joined::ASKED..Joined::ASKED + marks]),
        count: marks as u8,
    })
}

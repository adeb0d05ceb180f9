// Settings, conditions and statements put together from their parts.
ghost use Rattle.std.specs.Prelude.{◌≡◌, ◌+◌, ◌≤◌, ◌<◌, eqb, map, length};
ghost use Rattle.meaning.specs.Condition.{renamed};
ghost use Rattle.meaning.specs.Limits.{most_marks, most_comparisons};
ghost use Rattle.meaning.specs.Statement.{comparison_of};
ghost use Rattle.meaning.specs.Private.Walk.{resolve_nodes};
ghost use Rattle.statement.specs.Operators.{predicate_at, predicate_number};
ghost use Rattle.statement.specs.Private.Places.{bare_mark, bare_marks_on};
ghost use Rattle.statement.specs.Private.Sentences.{givens_on};
ghost use Rattle.statement.specs.Compiled.{left_side, right_side, comparison_struct, condition_struct, marks_number};
ghost use Rattle.statement.specs.Private.Built.{place_in, dotted, short_column, short_term, kept_on, mark_in_value, mark_in_side, comparison_on, step_in, last_of, settings_on, outer_on, outer_in};

use super::build::Reading;
use super::conditions::Node;
use super::names::Scope;
use super::{Comparison, Condition, Given, Operand, Setting, Step, Term, Update, Value, fetching};

// ---- question marks: how many each has

impl Value {
    fn marks(self) -> u8
        ensures { result ≡ mark_in_value self }
    {
        u8::from(matches!(self.read(), Given::Parameter(_)))
    }
}

impl Operand {
    fn marks(self) -> u8
        ensures { result ≡ mark_in_side self }
    {
        u8::from(matches!(self.read(), Term::Parameter(_)))
    }
}

impl Comparison {
    fn marks(self) -> u8
        ensures { result ≡ mark_in_side (left_side self) + mark_in_side (right_side self) }
    {
        self.left_side().marks() + self.right_side().marks()
    }
}

// ---- settings

// Settings, and how many question marks they have.
#[derive(Clone, Copy)]
pub struct Settings {
    pub all: [Setting; Update::SETTINGS],
    pub marks: u8,
}

impl Reading<'_> {
    // The values of the items of its list, one for each of these columns. An item, its column and its setting stand at one place of three arrays, so that the place is counted.
    pub fn listed_settings(&self, columns: &[u8]) -> Settings
        requires { length columns.now ≡ length self.now.items.now }
        ensures { result ≡ settings_on columns.now (givens_on self.now.text.now self.now.items.now) }
    {
        let mut all = [Setting::default(); Update::SETTINGS];
        let mut marks: u8 = 0;
        for (i, item) in self.items.iter().enumerate() {
            let value = fetching::value_at(self.text, item.value, marks);
            all[i] = Setting {
                column: columns[i],
                mark: value.mark,
                number: value.number,
            };
            marks += value.marks();
        }
        Settings { all, marks }
    }
}

// ---- conditions

// The number by which an operator is stored: a number past the last one is read as <>.
fn operator(op: u8) -> u8
    ensures { result ≡ predicate_number (predicate_at op) }
{
    if op < Comparison::OPERATORS {
        op
    } else {
        Comparison::NE
    }
}

// A comparison, by its operator and the places of its sides. (Why `text` and `scope` are no struct is said in `fetching`, "columns and operands".)
fn comparison_at(
    text: &[u8],
    op: u8,
    left: usize,
    right: usize,
    scope: &Scope,
    marks: u8,
) -> Comparison
    requires { marks < 126 }
    ensures { result ≡ comparison_struct (comparison_of (place_in scope.now) marks (renamed (short_term (short_column (dotted scope.now))) (comparison_on (dotted scope.now) text.now op left right))) }
{
    let a = fetching::operand_at(text, left, scope, marks);
    let b = fetching::operand_at(text, right, scope, marks + a.marks());
    Comparison {
        op: operator(op),
        left: a.code,
        right: b.code,
        left_number: a.number,
        right_number: b.number,
    }
}

fn step_in(node: &Node) -> u8
    ensures { result ≡ step_in node.now }
{
    match node {
        Node::Comparison { .. } => Step::COMPARISON,
        Node::And => Step::AND,
        Node::Or => Step::OR,
    }
}

impl Reading<'_> {
    // Its condition, with columns of these tables, where so many question marks stand before it. A loop, since the marks before a comparison are counted on from the ones before it.
    pub fn noted_condition(&self, scope: &Scope, marks: u8) -> Condition
        requires { marks ≤ most_marks }
        ensures { result ≡ condition_struct (resolve_nodes (place_in scope.now) marks (kept_on (dotted scope.now) self.now.text.now self.now.nodes.now)) }
    {
        let mut comparisons = [Comparison::default(); Condition::COMPARISONS];
        let mut found: usize = 0;
        let mut m = marks;
        for node in self.nodes {
            if let Node::Comparison {
                op,
                left,
                right,
                ..
            } = node
            {
                let c = comparison_at(self.text, *op, *left, *right, scope, m);
                comparisons[found] = c;
                found += 1;
                m += c.marks();
            }
        }
        Condition {
            comparisons,
            steps: fetching::placed(self.nodes, 0, step_in),
            count: found as u8, // at most 8; u8 has no From of usize
        }
    }
}

// ---- outer comparisons (A.6)

// One mark more behind these, if the node is a comparison.
fn with_mark(marks: u8, node: &Node) -> u8
    requires { marks_number marks (bare_mark node.now) ≤ 255 }
    ensures { result ≡ marks_number marks (bare_mark node.now) }
{
    match node {
        Node::Comparison { bare, .. } => 2 * marks + u8::from(*bare),
        _ => marks,
    }
}

// Whether OR is the last node. (By its step: with `matches!` of the last node the proof did not close, since nothing says in the other branch that it is not OR.)
fn ends_in_or(nodes: &[Node]) -> bool
    ensures { result ≡ eqb (last_of 0 (map step_in nodes.now)) 2 }
{
    match nodes.last() {
        Some(node) => step_in(node) == Step::OR,
        None => false,
    }
}

// The marks of the outer comparisons among the nodes that are noted: the bare ones, but none under OR. Where OR is the last node, it joins them all, or none is bare.
// No `fold`: a mark more is put where eight are enough, which holds of these nodes, and a fold's closure must take any.
fn outer_marks(nodes: &[Node]) -> u8
    requires { length (bare_marks_on nodes.now) ≤ most_comparisons }
    ensures { result ≡ outer_on nodes.now }
{
    let mut marks: u8 = 0;
    for node in nodes {
        marks = with_mark(marks, node);
    }
    if ends_in_or(nodes) { 0 } else { marks }
}

impl Reading<'_> {
    // Those of a question over two tables; over one they are not needed.
    pub fn outer_of(&self, scope: &Scope) -> u8
        ensures { result ≡ outer_in (dotted scope.now) self.now.nodes.now }
    {
        match scope {
            Scope::One(_) => 0,
            Scope::Two(_, _) => outer_marks(self.nodes),
        }
    }
}

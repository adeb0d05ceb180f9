// Conditions: the readers of OR, AND and single conditions call each other in a cycle, and the text that remains gets shorter. They note each comparison and
// each AND and OR in an array that is lent down the cycle, in postfix order with NOT pushed to the comparisons; what goes in and out by value is a cursor.
ghost use Rattle.std.specs.Prelude.{◌≡◌, true, ◌&&◌, cond, ◌≤◌, ◌<◌};
ghost use Rattle.meaning.specs.Condition.{atom, conjunction, disjunction};
ghost use Rattle.token.specs.Tokens.{token_at};
ghost use Rattle.statement.specs.Operators.{opposite_of};
ghost use Rattle.statement.specs.Private.Places.{comparison_node};
ghost use Rattle.statement.specs.Private.Reading.{tokens_past, is_operand, operator_in, is_name, is_is, marks_at, behind, ReadsDotted, ReadsSide, with_sides, PutsNode, PutsNull, Stands, Reaches, TestsNull, Compares, Reads};
ghost use Rattle.statement.specs.Private.Sentences.{Expects};

use super::sides::Side;
use super::{Comparison, Condition, Name, operators};
use token::{Kind, Token};

// Where a reader stands in a text, and what it has counted: question marks, and nodes of the condition, past the last place of the lent array too, so that a passed limit is seen (there
// is no heap for all of them). `over` says that a limit was passed by a name, a constant or the depth: a flag, since reading goes on (a text that is no sentence is refused by 4, before
// 5). Where `dotted`, which no reader changes, columns are dotted: a question over two tables (A.1); it stands here and not in `Parser`, which is made again behind each reader, at many
// places that would all hand it on.
#[derive(Clone, Copy)]
pub struct Cursor {
    pub over: bool,
    pub dotted: bool,
    pub nodes: u16,
    pub marks: u16,
    pub at: usize,
}

impl Cursor {
    // Behind a name, a constant or a column that ends there, and is past a limit or not.
    pub fn behind(self, next: usize, past: bool) -> Cursor
        ensures { result ≡ behind next past self }
    {
        Cursor {
            over: self.over | past,
            at: next,
            ..self
        }
    }
}

// A text and where it is read. The readers are its methods, and give the cursor behind what they read, without the text: of numbers alone they promise that one cursor is another
// with some changed (`with_node`, `with_sides`, `moved_to`); with the text in it each would have to promise too that it is the same text.
#[derive(Clone, Copy)]
pub struct Parser<'a> {
    pub text: &'a [u8],
    pub c: Cursor,
    ghost stands: { Stands text.now c },
}

// A condition to be read, under so many parentheses and NOTs, each of which is a token before it; `positive` under an even number of NOTs: a flag, since each NOT turns it by `!`.
#[derive(Clone, Copy)]
pub struct Nested<'a> {
    pub p: Parser<'a>,
    pub positive: bool,
    pub depth: u16,
    ghost few: { depth ≤ p.c.at },
}

// A node of a condition as it is noted: a comparison by its operator (by the number that a state has for it, which goes there as it is) and the places of its sides, `bare` if it
// stands outside all parentheses and NOT (A.6); or AND or OR.
#[derive(Clone, Copy)]
pub enum Node {
    Comparison {
        op: u8,
        bare: bool,
        left: usize,
        right: usize,
    },
    And,
    Or,
}

impl Node {
    // Room for the nodes of a condition.
    pub const NODES: usize = Condition::STEPS;
}

// ---- tokens

// A name that is too long, or a constant outside 32 bits.
#[tactic(auto, unfolding(crate::specs::Private::Reading::token_past))]
pub fn is_past(t: Token) -> bool
    ensures { result ≡ tokens_past t }
{
    match t.kind {
        Kind::Big => true,
        Kind::Name => Name::BYTES < t.next.saturating_sub(t.start),
        _ => false,
    }
}

// Whether a token is a name, a constant or a question mark.
fn is_operand(kind: Kind) -> bool
    ensures { result ≡ is_operand kind }
{
    matches!(
        kind,
        Kind::Name | Kind::Constant(_) | Kind::Big | Kind::Mark
    )
}

// The number of the operator that a token is, one of six.
fn operator(kind: Kind) -> Option<u8>
    ensures { result ≡ operator_in kind }
{
    match kind {
        Kind::Eq => Some(Comparison::EQ),
        Kind::Ne => Some(Comparison::NE),
        Kind::Lt => Some(Comparison::LT),
        Kind::Le => Some(Comparison::LE),
        Kind::Gt => Some(Comparison::GT),
        Kind::Ge => Some(Comparison::GE),
        _ => None,
    }
}

// Whether a token is the first one of a dotted column.
fn is_dotted(dotted: bool, kind: Kind) -> bool
    ensures { result ≡ (dotted && is_name kind) }
{
    dotted & matches!(kind, Kind::Name)
}

// Whether a null test (A.5) stands there: IS behind a column.
fn tests_null(first: Kind, word: Kind) -> bool
    ensures { result ≡ (is_is word && is_name first) }
{
    matches!(word, Kind::Is) & matches!(first, Kind::Name)
}

// How many question marks a token is.
pub fn marks_of(kind: Kind) -> u16
    ensures { result ≡ marks_at kind }
{
    match kind {
        Kind::Mark => 1,
        _ => 0,
    }
}

// ---- nodes

impl Parser<'_> {
    // The token that stands there.
    pub fn next(self) -> Token
        ensures { result ≡ token_at self.entry.text.now self.entry.c.at }
    {
        token::next(self.text, self.c.at)
    }

    // A node at the end. Past the last place none is noted, but it is counted.
    fn put(self, nodes: &mut [Node; Node::NODES], node: Node) -> Cursor
        ensures { PutsNode nodes.old self.entry.c node nodes.new result }
    {
        lists::put(nodes, usize::from(self.c.nodes), node);
        Cursor {
            nodes: self.c.nodes + 1,
            ..self.c
        }
    }
}

impl Nested<'_> {
    // The comparison `op` of two sides.
    fn put_comparison(&self, nodes: &mut [Node; Node::NODES], a: Side, op: u8, b: Side) -> Cursor
        ensures { PutsNode nodes.old (with_sides self.now.depth a b self.now.p.c) (comparison_node self.now.depth (cond self.now.positive op (opposite_of op)) a.start b.start) nodes.new result }
    {
        let node = Node::Comparison {
            op: if self.positive {
                op
            } else {
                operators::opposite(op)
            },
            bare: self.depth == 0,
            left: a.start,
            right: b.start,
        };
        let d = self.p.put(nodes, node);
        Cursor {
            over: d.over | ((Condition::DEPTH < self.depth) | (a.over | b.over)),
            marks: d.marks + (a.marks + b.marks),
            at: b.next,
            ..d
        }
    }

    // The null test `op` (A.5) of the column a, if the token t is NULL: a comparison of the column with itself.
    fn put_null(&self, nodes: &mut [Node; Node::NODES], a: Side, op: u8, t: Token) -> Option<Cursor>
        ensures { PutsNull nodes.old self.now.p.c self.now.positive self.now.depth a op t nodes.new result }
    {
        let Kind::Null = t.kind else {
            return None;
        };
        let b = Side {
            over: a.over,
            marks: a.marks,
            start: a.start,
            next: t.next,
        };
        Some(self.put_comparison(nodes, a, op, b))
    }
}

// ---- operands

// A column of a question over two tables, a name, a dot and a name (A.1), whose first token is read.
pub fn read_dotted(text: &[u8], first: Token) -> Option<Side>
    ensures { ReadsDotted text.now first result }
{
    let Kind::Name = first.kind else {
        return None;
    };
    let dot = token::next(text, first.next);
    let Kind::Dot = dot.kind else {
        return None;
    };
    let t = token::next(text, dot.next);
    let Kind::Name = t.kind else {
        return None;
    };
    Some(Side {
        over: is_past(first) | is_past(t),
        marks: 0,
        start: first.start,
        next: t.next,
    })
}

impl Parser<'_> {
    // An operand whose first token is read: a column, dotted where there are two tables (A.1), a constant or a question mark.
    fn read_operand(self, first: Token) -> Option<Side>
        ensures { ReadsSide self.entry.c.dotted self.entry.text.now first result }
    {
        if is_dotted(self.c.dotted, first.kind) {
            return read_dotted(self.text, first);
        }
        if !is_operand(first.kind) {
            return None;
        }
        Some(Side {
            over: is_past(first),
            marks: marks_of(first.kind),
            start: first.start,
            next: first.next,
        })
    }

    // A token that its kind tells.
    pub fn expect(self, kind: Kind) -> Option<Cursor>
        ensures { Expects self.entry.text.now kind self.entry.c result }
    {
        let t = self.next();
        if t.kind != kind {
            return None;
        }
        Some(Cursor {
            at: t.next,
            ..self.c
        })
    }
}

// ---- the readers (`read_or` and `read_and` are alike but for a word, a node and the reader of what they join: one function of these would choose by a `match` which reader to call,
// and whether it calls itself)

impl Nested<'_> {
    // A condition of ORs.
    #[cycle(read_and_read_one_read_or)]
    pub fn read_or(&self, nodes: &mut [Node; Node::NODES]) -> Option<Cursor>
        ensures { Reads disjunction self.now.p.text.now self.now.positive self.now.depth self.now.p.c nodes.old result nodes.new }
    {
        let text = self.p.text;
        let mut p = self.read_and(nodes)?;
        let t = Parser { text, c: p }.next();
        let Kind::Or = t.kind else {
            return Some(p);
        };
        p.at = t.next;
        let rest = Nested {
            p: Parser { text, c: p },
            positive: self.positive,
            depth: self.depth,
        };
        let q = rest.read_or(nodes)?;
        let node = if self.positive { Node::Or } else { Node::And };
        Some(Parser { text, c: q }.put(nodes, node))
    }

    // A condition of ANDs.
    #[cycle(read_and_read_one_read_or)]
    fn read_and(&self, nodes: &mut [Node; Node::NODES]) -> Option<Cursor>
        ensures { Reads conjunction self.now.p.text.now self.now.positive self.now.depth self.now.p.c nodes.old result nodes.new }
    {
        let text = self.p.text;
        let mut p = self.read_one(nodes)?;
        let t = Parser { text, c: p }.next();
        let Kind::And = t.kind else {
            return Some(p);
        };
        p.at = t.next;
        let rest = Nested {
            p: Parser { text, c: p },
            positive: self.positive,
            depth: self.depth,
        };
        let q = rest.read_and(nodes)?;
        let node = if self.positive { Node::And } else { Node::Or };
        Some(Parser { text, c: q }.put(nodes, node))
    }

    // A single condition: NOT and a single one, a condition in parentheses, or a comparison.
    #[cycle(read_and_read_one_read_or)]
    fn read_one(&self, nodes: &mut [Node; Node::NODES]) -> Option<Cursor>
        ensures { Reads atom self.now.p.text.now self.now.positive self.now.depth self.now.p.c nodes.old result nodes.new }
    {
        let text = self.p.text;
        let t = self.p.next();
        let mut here = self.p.c;
        match t.kind {
            Kind::Not => {
                here.at = t.next;
                let negated = Nested {
                    p: Parser { text, c: here },
                    positive: !self.positive,
                    depth: self.depth + 1,
                };
                negated.read_one(nodes)
            }
            Kind::Open => {
                here.at = t.next;
                let inner = Nested {
                    p: Parser { text, c: here },
                    positive: self.positive,
                    depth: self.depth + 1,
                };
                let inside = inner.read_or(nodes)?;
                Parser { text, c: inside }.expect(Kind::Close)
            }
            _ => self.read_comparison(nodes, t),
        }
    }

    // IS NULL or IS NOT NULL (A.5) behind the column a, where the text goes on at `at` behind IS.
    fn read_null(&self, nodes: &mut [Node; Node::NODES], a: Side, at: usize) -> Option<Cursor>
        requires { Reaches self.now.p.text.now self.now.p.c a at }
        ensures { TestsNull self.now.p.text.now self.now.positive self.now.depth self.now.p.c nodes.old a at result nodes.new }
    {
        let t = token::next(self.p.text, at);
        if let Kind::Not = t.kind {
            let u = token::next(self.p.text, t.next);
            return self.put_null(nodes, a, Comparison::IS_NOT_NULL, u);
        }
        self.put_null(nodes, a, Comparison::IS_NULL, t)
    }

    // A comparison, whose first token is read.
    fn read_comparison(&self, nodes: &mut [Node; Node::NODES], first: Token) -> Option<Cursor>
        requires { first ≡ token_at self.now.p.text.now self.now.p.c.at }
        ensures { Compares self.now.p.text.now self.now.positive self.now.depth self.now.p.c nodes.old result nodes.new }
    {
        let a = self.p.read_operand(first)?;
        let t = token::next(self.p.text, a.next);
        if tests_null(first.kind, t.kind) {
            return self.read_null(nodes, a, t.next);
        }
        let op = operator(t.kind)?;
        let b = self.p.read_operand(token::next(self.p.text, t.next))?;
        Some(self.put_comparison(nodes, a, op, b))
    }
}

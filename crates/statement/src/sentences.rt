// Sentences: each of the forms is a row of calls with `?`. What is read is noted as places of the text: of the items of the list in one lent array, and of the nodes of
// the condition in another; names are not looked up here.
ghost use Rattle.std.specs.Prelude.{◌≡◌, true, false, ◌+◌, ◌≤◌, ◌<◌, length, drop};
ghost use Rattle.meaning.specs.Limits.{most_text};
ghost use Rattle.meaning.specs.Tokens.{tokens};
ghost use Rattle.meaning.specs.Reader.{sentence, is_paired, a_table, a_select, a_single, a_pair, an_insert, an_update};
ghost use Rattle.statement.specs.Private.Sentences.{Names, Columns, Gives, Sizes, ring_in, is_value, rows_past, CountsRows, ends_list, is_comma_second, ReadsItem, ReadsList, ReadsWhere, Starts, ReadsForm, Lists, Deletes, ReadsAny, Noted};

use super::conditions::{Cursor, Nested, Node, Parser};
use super::{Table, conditions, fetching};
use token::{Kind, Token};

// The form of a sentence, with what only it has: the place of the constant of ROWS or RING, and whether it is RING (A.4); of a question over two tables (A.1) the place of the
// second one's name.
#[derive(Clone, Copy)]
pub enum Form {
    Table { rows: usize, ring: bool },
    Select,
    Insert,
    Update,
    Delete,
    Pair { second: usize },
}

// A sentence as it is read: where the reader stands, its form, the place of its table's name, and how many items its list has: counted past the last place of the lent array, so that a
// passed limit is seen (there is no heap for all of them).
#[derive(Clone, Copy)]
pub struct Entry {
    pub c: Cursor,
    pub form: Form,
    pub table: usize,
    pub listed: usize,
}

// An item of a list as it is noted: the place of its name, and that of its value; 0 for what it has not, which is not read. No Options: the form of the sentence tells which of the
// two there are, so each would be taken apart where that is known.
#[derive(Clone, Copy, Default)]
pub struct Item {
    pub name: usize,
    pub value: usize,
}

impl Item {
    // Room for the items of a list, whichever of the limits is its own.
    pub const ITEMS: usize = Table::COLUMNS;
}

// What a list holds; columns are dotted ones. An enum, by which `read_item` chooses, and no closure that reads an item: its contract would want as ghost parameters what the grammar
// reads, what of it is noted and how it is counted, which are three definitions over this enum.
#[derive(Clone, Copy)]
enum Contents {
    Names,
    Values,
    Settings,
    Columns,
}

// ---- tokens

// Whether a token is a constant or a question mark.
fn is_value(kind: Kind) -> bool
    ensures { result ≡ is_value kind }
{
    matches!(kind, Kind::Constant(_) | Kind::Big | Kind::Mark)
}

// Whether it is RING, of one of the two words.
fn ring_in(kind: Kind) -> Option<bool>
    ensures { result ≡ ring_in kind }
{
    match kind {
        Kind::Rows => Some(false),
        Kind::Ring => Some(true),
        _ => None,
    }
}

// Whether a constant of ROWS or RING is outside 1 to 512, if the token is a constant.
fn rows_past(kind: Kind) -> Option<bool>
    ensures { result ≡ rows_past kind }
{
    match kind {
        Kind::Constant(z) => Some(fetching::rows_in(z).is_none()),
        Kind::Big => Some(true),
        _ => None,
    }
}

// What tells a token and what is counted differ from one of these readers to the other; what they share is `Cursor::behind`.
impl Parser<'_> {
    // A name, and where it starts.
    fn read_name(self) -> Option<(Cursor, usize)>
        ensures { Names self.entry.text.now self.entry.c result }
    {
        let t = self.next();
        let Kind::Name = t.kind else {
            return None;
        };
        Some((self.c.behind(t.next, conditions::is_past(t)), t.start))
    }

    // A dotted column (A.1), and where it starts.
    fn read_column(self) -> Option<(Cursor, usize)>
        ensures { Columns self.entry.text.now self.entry.c result }
    {
        let d = conditions::read_dotted(self.text, self.next())?;
        Some((self.c.behind(d.next, d.over), d.start))
    }

    // A constant or a question mark, and where it starts.
    fn read_value(self) -> Option<(Cursor, usize)>
        ensures { Gives self.entry.text.now self.entry.c result }
    {
        let t = self.next();
        if !is_value(t.kind) {
            return None;
        }
        let behind = Cursor {
            marks: self.c.marks + conditions::marks_of(t.kind),
            ..self.c.behind(t.next, conditions::is_past(t))
        };
        Some((behind, t.start))
    }

    // ROWS or RING (A.4), and whether it is RING.
    fn read_size(self) -> Option<(Cursor, bool)>
        ensures { Sizes self.entry.text.now self.entry.c result }
    {
        let t = self.next();
        let ring = ring_in(t.kind)?;
        let behind = Cursor {
            at: t.next,
            ..self.c
        };
        Some((behind, ring))
    }

    // The constant of ROWS or RING, and where it starts.
    fn read_rows(self) -> Option<(Cursor, usize)>
        ensures { CountsRows self.entry.text.now self.entry.c result }
    {
        let t = self.next();
        let past = rows_past(t.kind)?;
        Some((self.c.behind(t.next, past), t.start))
    }
}

// ---- lists

impl Parser<'_> {
    // An item: a name, a value, a setting, or a dotted column.
    #[tactic(auto, using(crate::proofs::SentenceReaders::stands))]
    fn read_item(self, holds: Contents) -> Option<(Cursor, Item)>
        ensures { ReadsItem holds self.entry.text.now self.entry.c result }
    {
        let text = self.text;
        match holds {
            Contents::Names => {
                let (c, name) = self.read_name()?;
                Some((c, Item { name, value: 0 }))
            }
            Contents::Values => {
                let (c, value) = self.read_value()?;
                Some((c, Item { name: 0, value }))
            }
            Contents::Settings => {
                let (c, name) = self.read_name()?;
                let c = Parser { text, c }.expect(Kind::Eq)?;
                let (c, value) = Parser { text, c }.read_value()?;
                Some((c, Item { name, value }))
            }
            Contents::Columns => {
                let (c, name) = self.read_column()?;
                Some((c, Item { name, value: 0 }))
            }
        }
    }

    // Items, parted by commas, behind so many: how many those are then. Past the last place none is noted, but it is counted. The text that is left gets shorter.
    fn read_list(
        self,
        items: &mut [Item; Item::ITEMS],
        listed: usize,
        holds: Contents,
    ) -> Option<(Cursor, usize)>
        requires { listed ≤ self.c.at }
        ensures { ReadsList holds self.entry.text.now items.old self.entry.c listed items.new result }
    {
        let text = self.text;
        let (mut c, item) = self.read_item(holds)?;
        lists::put(items, listed, item);
        let more = listed + 1;
        let t = Parser { text, c }.next();
        let Kind::Comma = t.kind else {
            return Some((c, more));
        };
        c.at = t.next;
        Parser { text, c }.read_list(items, more, holds)
    }

    // ---- WHERE

    // An optional WHERE.
    fn read_where(self, nodes: &mut [Node; Node::NODES]) -> Option<Cursor>
        ensures { ReadsWhere self.entry.text.now self.entry.c nodes.old result nodes.new }
    {
        let t = self.next();
        let Kind::Where = t.kind else {
            return Some(self.c);
        };
        let c = Cursor {
            at: t.next,
            ..self.c
        };
        let condition = Nested {
            p: Parser { text: self.text, c },
            positive: true,
            depth: 0,
        };
        condition.read_or(nodes)
    }
}

// ---- FROM

// Whether a FROM is followed by a token and a comma.
fn is_comma_second(text: &[u8], from: Token) -> bool
    ensures { result ≡ is_comma_second text.now from }
{
    let one = token::next(text, from.next);
    let two = token::next(text, one.next);
    matches!(from.kind, Kind::From) & matches!(two.kind, Kind::Comma)
}

// Whether the list of a SELECT reaches no further.
fn ends_list(kind: Kind) -> bool
    ensures { result ≡ ends_list kind }
{
    matches!(kind, Kind::End | Kind::From)
}

// A.1: whether the question is over two tables: behind its first FROM a token and a comma stand.
// A loop over tokens, which counts no index: each is read from where the last one ends.
fn is_paired(text: &[u8], at: usize) -> bool
    ensures { result ≡ is_paired (tokens (drop at text.now)) }
{
    let mut t = token::next(text, at);
    while !ends_list(t.kind) {
        t = token::next(text, t.next);
    }
    is_comma_second(text, t)
}

// ---- the forms, after their first word (two arrays are lent and no struct of both: TABLE and INSERT write items alone and DELETE nodes alone, and their contracts speak of that one)

// A text behind the first word of a sentence: nothing is counted yet.
#[derive(Clone, Copy)]
struct Start<'a> {
    p: Parser<'a>,
    ghost starts: { Starts false p.c },
}

impl Start<'_> {
    // TABLE name ( names ) ROWS constant, or RING in place of ROWS (A.4)
    #[tactic(auto, using(crate::proofs::SentenceReaders::stands, crate::proofs::SentenceLists::stands_behind))]
    fn read_table(self, items: &mut [Item; Item::ITEMS]) -> Option<Entry>
        ensures { Lists a_table self.entry.p.text.now self.entry.p.c items.new result }
    {
        let text = self.p.text;
        let (c, table) = self.p.read_name()?;
        let c = Parser { text, c }.expect(Kind::Open)?;
        let (c, listed) = Parser { text, c }.read_list(items, 0, Contents::Names)?;
        let c = Parser { text, c }.expect(Kind::Close)?;
        let (c, ring) = Parser { text, c }.read_size()?;
        let (c, rows) = Parser { text, c }.read_rows()?;
        Some(Entry {
            c,
            form: Form::Table { rows, ring },
            table,
            listed,
        })
    }

    // SELECT names FROM name [WHERE condition]
    #[tactic(auto, using(crate::proofs::SentenceReaders::stands, crate::proofs::SentenceLists::stands_behind))]
    fn read_single(
        self,
        items: &mut [Item; Item::ITEMS],
        nodes: &mut [Node; Node::NODES],
    ) -> Option<Entry>
        ensures { ReadsForm a_single self.entry.p.text.now self.entry.p.c items.new nodes.new result }
    {
        let text = self.p.text;
        let (c, listed) = self.p.read_list(items, 0, Contents::Names)?;
        let c = Parser { text, c }.expect(Kind::From)?;
        let (c, table) = Parser { text, c }.read_name()?;
        let c = Parser { text, c }.read_where(nodes)?;
        Some(Entry {
            c,
            form: Form::Select,
            table,
            listed,
        })
    }

    // SELECT columns FROM name , name [WHERE condition], where columns are dotted (A.1)
    #[tactic(auto, using(crate::proofs::SentenceReaders::stands, crate::proofs::SentenceLists::stands_behind))]
    fn read_pair(
        self,
        items: &mut [Item; Item::ITEMS],
        nodes: &mut [Node; Node::NODES],
    ) -> Option<Entry>
        ensures { ReadsForm a_pair self.entry.p.text.now self.entry.p.c items.new nodes.new result }
    {
        let text = self.p.text;
        let c = Cursor {
            dotted: true,
            ..self.p.c
        };
        let (c, listed) = Parser { text, c }.read_list(items, 0, Contents::Columns)?;
        let c = Parser { text, c }.expect(Kind::From)?;
        let (c, table) = Parser { text, c }.read_name()?;
        let c = Parser { text, c }.expect(Kind::Comma)?;
        let (c, second) = Parser { text, c }.read_name()?;
        let c = Parser { text, c }.read_where(nodes)?;
        Some(Entry {
            c,
            form: Form::Pair { second },
            table,
            listed,
        })
    }

    // SELECT: what stands behind FROM tells its form
    fn read_select(
        self,
        items: &mut [Item; Item::ITEMS],
        nodes: &mut [Node; Node::NODES],
    ) -> Option<Entry>
        ensures { ReadsForm a_select self.entry.p.text.now self.entry.p.c items.new nodes.new result }
    {
        if is_paired(self.p.text, self.p.c.at) {
            return self.read_pair(items, nodes);
        }
        self.read_single(items, nodes)
    }

    // INSERT INTO name VALUES ( values )
    #[tactic(auto, using(crate::proofs::SentenceReaders::stands, crate::proofs::SentenceLists::stands_behind))]
    fn read_insert(self, items: &mut [Item; Item::ITEMS]) -> Option<Entry>
        ensures { Lists an_insert self.entry.p.text.now self.entry.p.c items.new result }
    {
        let text = self.p.text;
        let c = self.p.expect(Kind::Into)?;
        let (c, table) = Parser { text, c }.read_name()?;
        let c = Parser { text, c }.expect(Kind::Values)?;
        let c = Parser { text, c }.expect(Kind::Open)?;
        let (c, listed) = Parser { text, c }.read_list(items, 0, Contents::Values)?;
        let c = Parser { text, c }.expect(Kind::Close)?;
        Some(Entry {
            c,
            form: Form::Insert,
            table,
            listed,
        })
    }

    // UPDATE name SET settings [WHERE condition]
    #[tactic(auto, using(crate::proofs::SentenceReaders::stands, crate::proofs::SentenceLists::stands_behind))]
    fn read_update(
        self,
        items: &mut [Item; Item::ITEMS],
        nodes: &mut [Node; Node::NODES],
    ) -> Option<Entry>
        ensures { ReadsForm an_update self.entry.p.text.now self.entry.p.c items.new nodes.new result }
    {
        let text = self.p.text;
        let (c, table) = self.p.read_name()?;
        let c = Parser { text, c }.expect(Kind::Set)?;
        let (c, listed) = Parser { text, c }.read_list(items, 0, Contents::Settings)?;
        let c = Parser { text, c }.read_where(nodes)?;
        Some(Entry {
            c,
            form: Form::Update,
            table,
            listed,
        })
    }

    // DELETE FROM name [WHERE condition]
    #[tactic(auto, using(crate::proofs::SentenceReaders::stands))]
    fn read_delete(self, nodes: &mut [Node; Node::NODES]) -> Option<Entry>
        ensures { Deletes self.entry.p.text.now self.entry.p.c nodes.new result }
    {
        let text = self.p.text;
        let c = self.p.expect(Kind::From)?;
        let (c, table) = Parser { text, c }.read_name()?;
        let c = Parser { text, c }.read_where(nodes)?;
        Some(Entry {
            c,
            form: Form::Delete,
            table,
            listed: 0,
        })
    }
}

// ---- sentences

// A sentence from the start of the text: its first token tells its form.
fn read_form(
    text: &[u8],
    items: &mut [Item; Item::ITEMS],
    nodes: &mut [Node; Node::NODES],
) -> Option<Entry>
    requires { length text.now ≤ most_text }
    ensures { ReadsAny text.now items.new nodes.new result }
{
    let t = token::next(text, 0);
    let c = Cursor {
        over: false,
        dotted: false,
        nodes: 0,
        marks: 0,
        at: t.next,
    };
    let start = Start {
        p: Parser { text, c },
    };
    match t.kind {
        Kind::Table => start.read_table(items),
        Kind::Select => start.read_select(items, nodes),
        Kind::Insert => start.read_insert(items),
        Kind::Update => start.read_update(items, nodes),
        Kind::Delete => start.read_delete(nodes),
        _ => None,
    }
}

// A sentence, from the start of the text to its end.
pub fn read_sentence(
    text: &[u8],
    items: &mut [Item; Item::ITEMS],
    nodes: &mut [Node; Node::NODES],
) -> Option<Entry>
    requires { length text.now ≤ most_text }
    ensures { Noted text.now items.new nodes.new result (sentence text.now) }
{
    let e = read_form(text, items, nodes)?;
    let t = token::next(text, e.c.at);
    match t.kind {
        Kind::End => Some(e),
        _ => None,
    }
}

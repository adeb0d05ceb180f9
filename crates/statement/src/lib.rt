// The table layer: statement texts to statements in which names are positions and question marks are numbered. Nothing of a text is needed afterwards.
#![tactic(auto)]

mod operators; // opposites, and comparisons by the order of their sides
mod sides; // a side of a comparison, as it is read
mod conditions; // the readers of OR, AND and single conditions
mod sentences; // the six forms: where each token of a sentence stands
mod names; // names compared and found
mod fetching; // what stands at a place of a text
mod assembling; // settings, conditions and statements from their parts
mod refusals; // limits, and refusals by what is there
mod build; // the six forms, names looked up

ghost use Rattle.std.specs.Prelude.{◌≡◌, ◌*◌, ◌≤◌, leb, min, length};
ghost use Rattle.meaning.specs.Plain.{of_first};
ghost use Rattle.meaning.specs.Statement.{is_below};
ghost use Rattle.statement.specs.Operators.{order_at};
ghost use Rattle.statement.specs.Refusals.{number_of};
ghost use Rattle.statement.specs.Sound.{used_columns, operand_read, comparison_read, used_comparisons, used_steps, used_settings, value_read};
ghost use Rattle.statement.specs.Terms.{term_read, given_read, order_said, used_selected, second_said};
ghost use Rattle.statement.specs.Compiled.{left_side, right_side, new_value, compiled, compiled_of};
ghost use Rattle.statement.specs.Demand.{Demands};

use std::cmp::Ordering;

// The state of a store is made of the types below, and any caller may fill one in; what it says is tested (crate `soundness`), and a state that is not sound is refused. So all
// of it is plain numbers and flags: no enum stands in it, and an array has a count beside it. Numbers for kinds are a comparison's operator (`Comparison::EQ` ..), a side's code
// (`Operand`), a step (`Step`), a value's mark (`Value`), an update's form (`Update::INSERT` ..), and of a question `second`, `start` and `outer`; of a table `rows`, `oldest`
// and `ring`. What a code or a mark says is read by `Operand::read` and `Value::read`; forms and steps carry nothing, so that comparing with a constant says as
// much as an enum would: a number of no kind is read as the last of them, and refused by the test.

// A name: its first `len` bytes.
#[repr(C)]
#[derive(Clone, Copy, Default)]
pub struct Name {
    pub bytes: [u8; Name::BYTES],
    pub len: u8,
}

impl Name {
    pub const BYTES: usize = 12;
}

// A table: what its TABLE text says, how many rows are in use, and the place of the oldest row in the area (A.4: its starting place; 0 but in a ring that is full). `capacity` is
// its ROWS or its RING, and `ring` says which.
#[repr(C)]
#[derive(Clone, Copy, Default)]
pub struct Table {
    pub name: Name,
    pub columns: [Name; Table::COLUMNS],
    pub count: u8,
    pub capacity: u16,
    pub rows: u16,
    pub oldest: u16,
    pub ring: bool,
}

impl Table {
    pub const TABLES: usize = 8;

    pub const COLUMNS: usize = 8;

    pub const ROWS: u16 = 512;

    // The names of its columns.
    pub fn names(&self) -> &[Name]
        ensures are { result.now ≡ used_columns self.now }
        ensures few { length result.now ≤ 8 }
    {
        lists::in_use(&self.columns, usize::from(self.count))
    }

    // The cells of its area.
    pub fn cells(&self) -> usize
        ensures are { result ≡ self.now.count * self.now.capacity }
        ensures few { result ≤ 16711425 }
    {
        usize::from(self.count) * usize::from(self.capacity)
    }

    // Whether no row is free: an INSERT is refused, or in a ring the oldest row goes.
    pub fn is_full(&self) -> bool
        ensures { result ≡ leb self.now.capacity self.now.rows }
    {
        self.capacity <= self.rows
    }
}

// A side of a comparison: a column by its position, a constant, or a parameter (question mark), counted from 0.
// By its code: 0 is the constant `number`, 2 k + 1 parameter k, 2 i + 2 column i. So every code is an operand; of those that are no constant, `number` is not read.
#[repr(C)]
#[derive(Clone, Copy)]
pub struct Operand {
    pub code: u8,
    pub number: i32,
}

// What an operand is.
#[derive(Clone, Copy, PartialEq, Eq)]
pub enum Term {
    Constant(i32),
    Parameter(u8),
    Column(u8),
}

impl Operand {
    // The null (A.5).
    pub const NULL: i32 = -2147483648;

    // By its code.
    pub fn read(self) -> Term
        ensures { term_read result ≡ operand_read self }
    {
        if self.code == 0 {
            Term::Constant(self.number)
        } else if self.code % 2 == 1 {
            Term::Parameter(self.code / 2)
        } else {
            Term::Column(self.code / 2 - 1)
        }
    }

    // Whether it is no column, or one below `limit`.
    pub fn is_below(self, limit: usize) -> bool
        ensures { result ≡ is_below limit (operand_read self) }
    {
        match self.read() {
            Term::Constant(_) | Term::Parameter(_) => true,
            Term::Column(i) => usize::from(i) < limit,
        }
    }
}

// Two operands, by their codes and numbers, and the number of the operator between them. A null test (A.5) has its column on both sides.
// Flat, as a setting is: two structs are mostly padding, and with them the state had 10,976 bytes in place of 8,416 (docs/DECISIONS.md, 84).
#[repr(C)]
#[derive(Clone, Copy, Default)]
pub struct Comparison {
    pub op: u8,
    pub left: u8,
    pub right: u8,
    pub left_number: i32,
    pub right_number: i32,
}

impl Comparison {
    // The operators, numbers of the state: = <> < <= > >= IS NULL, IS NOT NULL
    pub const EQ: u8 = 0;

    pub const NE: u8 = 1;

    pub const LT: u8 = 2;

    pub const LE: u8 = 3;

    pub const GT: u8 = 4;

    pub const GE: u8 = 5;

    pub const IS_NULL: u8 = 6;

    pub const IS_NOT_NULL: u8 = 7;

    // How many they are.
    pub const OPERATORS: u8 = 8;

    pub fn left_side(self) -> Operand
        ensures { result ≡ left_side self }
    {
        Operand {
            code: self.left,
            number: self.left_number,
        }
    }

    pub fn right_side(self) -> Operand
        ensures { result ≡ right_side self }
    {
        Operand {
            code: self.right,
            number: self.right_number,
        }
    }

    // Whether the columns that it names are below `limit`.
    pub fn is_below(self, limit: usize) -> bool
        ensures { result ≡ of_first limit (comparison_read self) }
    {
        self.left_side().is_below(limit) && self.right_side().is_below(limit)
    }
}

// How two sides of a comparison stand: the left one is less, equal or greater, or one is null. Not `Option<Ordering>`: its number is the place of a target in a row's test (crate
// `table`), and an Option has none.
#[derive(Clone, Copy, PartialEq, Eq)]
pub enum Order {
    Less,
    Equal,
    Greater,
    Unknown,
}

// Of two sides that are not null.
impl From<Ordering> for Order {
    ghost from_gives = { λ o r. r ≡ order_said o };

    fn from(o: Ordering) -> Order {
        match o {
            Ordering::Less => Order::Less,
            Ordering::Equal => Order::Equal,
            Ordering::Greater => Order::Greater,
        }
    }
}

// What an order of two sides can be given as.
pub trait ToOrder {
    ghost use Rattle.statement.specs.declared.Order.{Order};

    // The order that a value stands for.
    ghost order: { Self → Order };

    fn to_order(self) -> Order
        ensures { result ≡ order self };
}

impl ToOrder for Order {
    ghost order = { λ o. o };

    fn to_order(self) -> Order {
        self
    }
}

// By its number: 0 less, 1 equal, 2 greater, 3 unknown. A number past the last is read as unknown.
impl ToOrder for u8 {
    ghost order = { order_at };

    fn to_order(self) -> Order {
        match self {
            0 => Order::Less,
            1 => Order::Equal,
            2 => Order::Greater,
            _ => Order::Unknown,
        }
    }
}

// What a step of a condition does: it takes the next comparison, or joins the two conditions before it. Steps are numbers of the state.
#[derive(Clone, Copy)]
pub struct Step {}

impl Step {
    pub const COMPARISON: u8 = 0;

    pub const AND: u8 = 1;

    pub const OR: u8 = 2;

    // How many kinds of steps there are.
    pub const KINDS: u8 = 3;
}

// A condition without NOT: the first `count` comparisons, and for more than none 2 * count - 1 steps (`Step`) in postfix order.
// None at all is an absent WHERE.
#[repr(C)]
#[derive(Clone, Copy, Default)]
pub struct Condition {
    pub comparisons: [Comparison; Condition::COMPARISONS],
    pub steps: [u8; Condition::STEPS],
    pub count: u8,
}

impl Condition {
    pub const COMPARISONS: usize = 8;

    pub const STEPS: usize = 15;

    pub const DEPTH: u16 = 8;

    // The comparisons in use.
    pub fn used(&self) -> &[Comparison]
        ensures are { result.now ≡ used_comparisons self.now }
        ensures few { length result.now ≤ 8 }
        ensures size { length self.now.comparisons ≡ 8 }
    {
        lists::in_use(&self.comparisons, usize::from(self.count))
    }

    // The steps in use.
    pub fn used_steps(&self) -> &[u8]
        ensures are { result.now ≡ used_steps self.now }
        ensures few { length result.now ≤ 15 }
        ensures size { length self.now.steps ≡ 15 }
    {
        lists::in_use(&self.steps, (2 * usize::from(self.count)).saturating_sub(1))
    }
}

// A question: its table, the first `count` selected columns, how many parameters it has, its condition. Over two tables `second` is the number of the second one and 1,
// and columns are counted through both: those of the second from `start` on; and `outer` marks the comparisons that stand outside all OR, NOT and parentheses (A.6), a binary
// digit each, the last one's last. Over one table `second` is 0, and `start` and `outer` are not read.
#[repr(C)]
#[derive(Clone, Copy, Default)]
pub struct Query {
    pub table: u8,
    pub selected: [u8; Query::SELECTED],
    pub count: u8,
    pub parameters: u8,
    pub second: u8,
    pub start: u8,
    pub outer: u8,
    pub condition: Condition,
}

impl Query {
    pub const QUERIES: usize = 16;

    pub const SELECTED: usize = 8;

    // The columns that are selected.
    pub fn used(&self) -> &[u8]
        ensures are { result.now ≡ used_selected self.now }
        ensures few { length result.now ≤ 8 }
    {
        lists::in_use(&self.selected, usize::from(self.count))
    }

    // The number of the second table, if there is one.
    pub fn second_table(&self) -> Option<u8>
        ensures { result ≡ second_said self.now.second }
    {
        self.second.checked_sub(1)
    }
}

// What VALUES and SET give: parameter `mark` - 1, or for 0 the constant `number`.
#[repr(C)]
#[derive(Clone, Copy)]
pub struct Value {
    pub mark: u8,
    pub number: i32,
}

// What VALUES or SET gives.
#[derive(Clone, Copy, PartialEq, Eq)]
pub enum Given {
    Constant(i32),
    Parameter(u8),
}

impl Value {
    // By its mark.
    pub fn read(self) -> Given
        ensures { given_read result ≡ value_read self }
    {
        match self.mark.checked_sub(1) {
            None => Given::Constant(self.number),
            Some(k) => Given::Parameter(k),
        }
    }
}

// A column and its new value, by its mark and number (flat, as a comparison is); in an INSERT the column is the value's own place.
#[repr(C)]
#[derive(Clone, Copy, Default)]
pub struct Setting {
    pub column: u8,
    pub mark: u8,
    pub number: i32,
}

impl Setting {
    pub fn new_value(self) -> Value
        ensures { result ≡ new_value self }
    {
        Value {
            mark: self.mark,
            number: self.number,
        }
    }
}

// An update: its form (a number of the state: 0 INSERT, 1 UPDATE, 2 DELETE), its table, the first `count` settings, how many parameters it has, its condition.
#[repr(C)]
#[derive(Clone, Copy, Default)]
pub struct Update {
    pub form: u8,
    pub table: u8,
    pub settings: [Setting; Update::SETTINGS],
    pub count: u8,
    pub parameters: u8,
    pub condition: Condition,
}

impl Update {
    pub const UPDATES: usize = 16;

    pub const SETTINGS: usize = 8;

    pub const INSERT: u8 = 0;

    pub const UPDATE: u8 = 1;

    pub const DELETE: u8 = 2;

    // The settings in use.
    pub fn used(&self) -> &[Setting]
        ensures are { result.now ≡ used_settings self.now }
        ensures few { length result.now ≤ 8 }
        ensures size { length self.now.settings ≡ 8 }
    {
        lists::in_use(&self.settings, usize::from(self.count))
    }
}

// Why a call is not taken. (A row that is not there is of crate `answer`.) It has a number and no Display: programs print the number, each in its own words.
#[derive(Clone, Copy, PartialEq, Eq)]
pub enum Refusal {
    // The opening's sizes.
    Opening,
    // A state that is not sound, or other lengths lent than at the opening.
    State,
    // A text over 256 bytes, one that is no sentence, one past a limit.
    Text,
    Sentence,
    Limit,
    // A name that is unknown, or taken or repeated; values that are not one a column; no place or too few cells.
    Unknown,
    Taken,
    Miscounted,
    Place,
    // No such question or update; the wrong number of values.
    Number,
    Values,
    // A table that is full and no ring; an answer buffer that is too short.
    Full,
    Buffer,
    // A question that names one table twice, looked for after `Miscounted`; an answer of more rows than a record can hold, after `Full`.
    Twice,
    Rows,
    // No update is proposed that could be committed or withdrawn, looked for after `State`.
    Note,
}

impl Refusal {
    // The papers' number.
    pub fn number(self) -> u8
        ensures { result ≡ number_of self }
    {
        match self {
            Refusal::Opening => 1,
            Refusal::State => 2,
            Refusal::Text => 3,
            Refusal::Sentence => 4,
            Refusal::Limit => 5,
            Refusal::Unknown => 6,
            Refusal::Taken => 7,
            Refusal::Miscounted => 8,
            Refusal::Place => 9,
            Refusal::Number => 10,
            Refusal::Values => 11,
            Refusal::Full => 12,
            Refusal::Buffer => 13,
            Refusal::Twice => 15,
            Refusal::Rows => 16,
            Refusal::Note => 17,
        }
    }
}

// What a text says.
#[derive(Clone, Copy)]
pub enum Statement {
    Table(Table),
    Query(Query),
    Update(Update),
}

impl Statement {
    pub const TEXT: usize = 256;

    pub const MARKS: u16 = 8;

    // What a text says beside these tables, of which a store has at most eight, where there are so many questions and updates already, and so many cells.
    pub fn compile(
        text: &[u8],
        tables: &[Table],
        queries: u8,
        updates: u8,
        cells: u32,
    ) -> Result<Statement, Refusal>
        ensures { compiled result ≡ compiled_of text.now tables.now (min (length tables.now) 8) queries updates cells }
    {
        if Statement::TEXT < text.len() {
            return Err(Refusal::Text);
        }
        let mut items = [sentences::Item::default(); sentences::Item::ITEMS];
        let mut nodes = [conditions::Node::And; conditions::Node::NODES];
        let e = sentences::read_sentence(text, &mut items, &mut nodes).ok_or(Refusal::Sentence)?;
        if refusals::is_over(e) {
            return Err(Refusal::Limit);
        }
        let reading = build::Reading {
            text,
            items: lists::in_use(&items, e.listed),
            nodes: lists::in_use(&nodes, usize::from(e.c.nodes)),
            e,
        };
        let beside = names::Catalog {
            tables: &tables[..tables.len().min(Table::TABLES)],
            queries,
            updates,
            cells: cells as usize, // usize has no From of u32
        };
        match e.form {
            sentences::Form::Table { rows, ring } => reading.table(rows, ring, &beside),
            _ => reading.beside(&beside),
        }
    }
}

// Does nothing. A theorem is proved only where a contract names it: this one names the claims about the array of opposites.
pub fn claims_hold()
    ensures { Demands }
{}

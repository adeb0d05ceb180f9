// The forms: statements from what was read, with names looked up in the tables that there are.
ghost use Rattle.std.specs.Prelude.{◌≡◌, map};
ghost use Rattle.statement.specs.Catalog.{name_of_struct, schema_of};
ghost use Rattle.statement.specs.Private.Built.{column_names, place_in, width_in, start_in, twice_in, dotted, Fits, table_on, select_on, insert_on, update_on, delete_on, form_on, pair_on, beside_on};
ghost use Rattle.statement.specs.Compiled.{compiled};

use super::conditions::Node;
use super::names::{Catalog, Found, Scope};
use super::refusals::Met;
use super::sentences::{Entry, Form, Item};
use super::{
    Condition, Query, Refusal, Setting, Statement, Table, Update, fetching, names, refusals,
};

// Lists are arrays of eight and a count, as a state has them: there is no heap. (Counts of items and of question marks are `as u8`: at most 8, which `TryFrom` would test again.)

// An INSERT's values stand in the order of the columns.
const PLACES: [u8; Update::SETTINGS] = [0, 1, 2, 3, 4, 5, 6, 7];

// A sentence within the limits, as it was read: its text, where the items of its list and the nodes of its condition stand there, and its form.
#[derive(Clone, Copy)]
pub struct Reading<'a> {
    pub text: &'a [u8],
    pub items: &'a [Item],
    pub nodes: &'a [Node],
    pub e: Entry,
    ghost fits: { Fits text.now items.now nodes.now e },
}

impl Reading<'_> {
    // TABLE: a new table, by the place of the constant of its ROWS or RING.
    pub fn table(&self, rows: usize, ring: bool, beside: &Catalog) -> Result<Statement, Refusal>
        ensures { compiled result ≡ table_on self.now.text.now self.now.items.now self.now.e.table rows ring (map schema_of beside.now.tables.now) beside.now.cells }
    {
        let n = self.items.len();
        let name = fetching::name_at(self.text, self.e.table);
        let columns = self.listed_names();
        let capacity = fetching::rows_at(self.text, rows);
        let met = Met {
            taken: beside.is_taken(&name, &columns[..n]),
            full: beside.has_no_place(n * usize::from(capacity)),
            ..Met::default()
        };
        let t = Table {
            name,
            columns,
            count: n as u8,
            capacity,
            rows: 0,
            oldest: 0,
            ring,
        };
        met.refuse()?;
        Ok(Statement::Table(t))
    }

    // SELECT from the table of that number, and from the second one of that code, which have these columns. (The code is the state's, 0 for none: no Option, since it is stored as it is
    // handed on.)
    fn select(
        &self,
        scope: &Scope,
        table: u8,
        second: u8,
        queries: u8,
    ) -> Result<Statement, Refusal>
        ensures { compiled result ≡ select_on (dotted scope.now) (place_in scope.now) (width_in scope.now) self.now.text.now self.now.items.now self.now.nodes.now self.now.e table second (start_in scope.now) (twice_in scope.now) queries }
    {
        let n = self.items.len();
        let selected = self.listed_places(scope);
        let condition = self.noted_condition(scope, 0);
        let met = Met {
            unknown: refusals::is_unknown(&selected[..n], &condition, scope.width()),
            twice: scope.is_twice(),
            full: Query::QUERIES <= usize::from(queries),
            ..Met::default()
        };
        let q = Query {
            table,
            selected,
            count: n as u8,
            parameters: self.e.c.marks as u8,
            second,
            start: scope.start(),
            outer: self.outer_of(scope),
            condition,
        };
        met.refuse()?;
        Ok(Statement::Query(q))
    }

    // INSERT into, UPDATE and DELETE of a table.
    fn insert(&self, found: &Found, updates: u8) -> Result<Statement, Refusal>
        ensures { compiled result ≡ insert_on self.now.text.now self.now.items.now self.now.e (column_names found.now.table.now) found.now.number updates }
    {
        let n = self.items.len();
        let s = self.listed_settings(&PLACES[..n]);
        let settings = s.all;
        let met = Met {
            miscounted: n != Scope::One(found.table).width(),
            full: Update::UPDATES <= usize::from(updates),
            ..Met::default()
        };
        let u = Update {
            form: Update::INSERT,
            table: found.number,
            settings,
            count: n as u8,
            parameters: self.e.c.marks as u8,
            condition: Condition::default(),
        };
        met.refuse()?;
        Ok(Statement::Update(u))
    }

    fn update(&self, found: &Found, updates: u8) -> Result<Statement, Refusal>
        ensures { compiled result ≡ update_on self.now.text.now self.now.items.now self.now.nodes.now self.now.e (column_names found.now.table.now) found.now.number updates }
    {
        let n = self.items.len();
        let scope = Scope::One(found.table);
        let names = self.listed_names();
        let at = names::positions(&names[..n], found.table);
        let s = self.listed_settings(&at[..n]);
        let settings = s.all;
        let condition = self.noted_condition(&scope, s.marks);
        let met = Met {
            unknown: refusals::is_unknown(&at[..n], &condition, scope.width()),
            taken: names::is_repeated(&names[..n]),
            full: Update::UPDATES <= usize::from(updates),
            ..Met::default()
        };
        let u = Update {
            form: Update::UPDATE,
            table: found.number,
            settings,
            count: n as u8,
            parameters: self.e.c.marks as u8,
            condition,
        };
        met.refuse()?;
        Ok(Statement::Update(u))
    }

    fn delete(&self, found: &Found, updates: u8) -> Result<Statement, Refusal>
        ensures { compiled result ≡ delete_on self.now.text.now self.now.nodes.now self.now.e (column_names found.now.table.now) found.now.number updates }
    {
        let scope = Scope::One(found.table);
        let condition = self.noted_condition(&scope, 0);
        let met = Met {
            unknown: refusals::is_unknown(&[], &condition, scope.width()),
            full: Update::UPDATES <= usize::from(updates),
            ..Met::default()
        };
        let u = Update {
            form: Update::DELETE,
            table: found.number,
            settings: [Setting::default(); Update::SETTINGS],
            count: 0,
            parameters: self.e.c.marks as u8,
            condition,
        };
        met.refuse()?;
        Ok(Statement::Update(u))
    }

    // A question of one table alone, or an update of it.
    fn form(&self, found: &Found, beside: &Catalog) -> Result<Statement, Refusal>
        ensures { compiled result ≡ form_on self.now.text.now self.now.items.now self.now.nodes.now self.now.e (column_names found.now.table.now) found.now.number beside.now.queries beside.now.updates }
    {
        match self.e.form {
            Form::Select => self.select(&Scope::One(found.table), found.number, 0, beside.queries),
            Form::Insert => self.insert(found, beside.updates),
            Form::Update => self.update(found, beside.updates),
            _ => self.delete(found, beside.updates),
        }
    }

    // A question of the table that was found first, and of the one that the text names at that place.
    fn pair(&self, first: &Found, place: usize, beside: &Catalog) -> Result<Statement, Refusal>
        ensures { compiled result ≡ pair_on (name_of_struct first.now.table.now.name) (column_names first.now.table.now) place self.now.text.now self.now.items.now self.now.nodes.now self.now.e (map schema_of beside.now.tables.now) first.now.number beside.now.queries }
    {
        let name = fetching::name_at(self.text, place);
        let second = beside.find(&name).ok_or(Refusal::Unknown)?;
        let scope = Scope::Two(first.table, second.table);
        self.select(&scope, first.number, second.number + 1, beside.queries)
    }

    // A question or an update of one of the tables.
    pub fn beside(&self, beside: &Catalog) -> Result<Statement, Refusal>
        ensures { compiled result ≡ beside_on self.now.text.now self.now.items.now self.now.nodes.now self.now.e (map schema_of beside.now.tables.now) beside.now.queries beside.now.updates }
    {
        let name = fetching::name_at(self.text, self.e.table);
        let found = beside.find(&name).ok_or(Refusal::Unknown)?;
        match self.e.form {
            Form::Pair { second } => self.pair(&found, second, beside),
            _ => self.form(&found, beside),
        }
    }
}

// Rules 1 and 2: whether an update can matter to a query at all, and where the updated table's columns stand among the query's (A.1).
ghost use Rattle.std.specs.Prelude.{◌≡◌, map, ◌+◌};
ghost use Rattle.lists.specs.Lists.{any};
ghost use Rattle.statement.specs.Sound.{comparison_read, operand_read, used_steps};
ghost use Rattle.pattern.specs.Stored.{start_read, relevant as relevant_to, is_read};
ghost use Rattle.pattern.specs.Private.Relevance.{is_among, names_any, tests_any, comparison_steps, sets_used};

use lists::in_use;
use table::{Comparison, Condition, Operand, Query, Setting, Step, Term, Update};

// A.1: whether a query of these tables reads the updated one. The second is given by its number and 1, 0 for none.
// (By numbers: the promise is for any three, and a caller that has no query may ask it; so the code of the second is read here, as `second_table` reads it.)
pub fn reads(table: u8, second: u8, updated: u8) -> bool
    ensures { result ≡ is_read table second updated }
{
    table == updated || second.checked_sub(1) == Some(updated)
}

// A.1: how many columns of the query stand before those of the updated table.
fn start_of(query: &Query, update: &Update) -> u8
    ensures { result ≡ start_read query.now update.now }
{
    if query.table == update.table {
        return 0;
    }
    if query.second_table() == Some(update.table) {
        return query.start;
    }
    0
}

// The columns of settings, as columns of the query.
fn columns_of(settings: &[Setting; Update::SETTINGS], from: u8) -> [u16; Update::SETTINGS]
    ensures { result ≡ map (λ s. from + s.column) settings.now }
{
    settings.map(|item| u16::from(from) + u16::from(item.column))
}

// Whether a column is one of these.
fn is_among(columns: &[u16], column: u8) -> bool
    ensures { result ≡ is_among columns.now column }
{
    columns.iter().any(|c| *c == u16::from(column))
}

// Whether a selected column is.
fn selects(selected: &[u8], columns: &[u16]) -> bool
    ensures { result ≡ any (is_among columns.now) selected.now }
{
    selected.iter().any(|c| is_among(columns, *c))
}

// Whether a side of a comparison is such a column.
fn names(o: Operand, columns: &[u16]) -> bool
    ensures { result ≡ names_any columns.now (operand_read o) }
{
    match o.read() {
        Term::Column(i) => is_among(columns, i),
        _ => false,
    }
}

// Whether a side of one of these comparisons is.
fn tests(comparisons: &[Comparison], columns: &[u16]) -> bool
    ensures { result ≡ any (tests_any columns.now) (map comparison_read comparisons.now) }
{
    comparisons.iter().any(|c| names(c.left_side(), columns) | names(c.right_side(), columns))
}

// How many comparisons the steps of a condition ask for.
fn comparison_steps(condition: &Condition) -> usize
    ensures { result ≡ comparison_steps (used_steps condition.now) }
{
    let steps = condition.used_steps();
    steps.iter().filter(|s| **s == Step::COMPARISON).count()
}

// A query and an update, and how many columns of the query stand before those of the updated table.
#[derive(Clone, Copy)]
pub struct Pair<'a> {
    pub query: &'a Query,
    pub update: &'a Update,
    pub from: u8,
    ghost starts: { from ≡ start_read query.now update.now },
}

impl<'a> Pair<'a> {
    // These two.
    pub fn of(query: &'a Query, update: &'a Update) -> Pair<'a>
        ensures query { result.query.now ≡ query.now }
        ensures update { result.update.now ≡ update.now }
    {
        let from = start_of(query, update);
        Pair {
            query,
            update,
            from,
        }
    }

    // Whether the query selects or tests a column that the update sets.
    fn touches(self) -> bool
        ensures { result ≡ sets_used self.entry.from self.entry.query.now self.entry.update.now }
    {
        let all = columns_of(&self.update.settings, self.from);
        let columns = in_use(&all, usize::from(self.update.count));
        if selects(self.query.used(), columns) {
            return true;
        }
        let condition = &self.query.condition;
        let used = condition.used();
        let asked = comparison_steps(condition).min(used.len());
        tests(&used[..asked], columns)
    }

    // Rules 1 and 2: whether the update can change an answer of the query.
    pub fn is_relevant(self) -> bool
        ensures { result ≡ relevant_to self.entry.query.now self.entry.update.now }
    {
        if !reads(self.query.table, self.query.second, self.update.table) {
            return false;
        }
        if self.update.form == Update::UPDATE {
            return self.touches();
        }
        true
    }
}

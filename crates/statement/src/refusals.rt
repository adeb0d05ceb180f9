// Whether a sentence is past a limit, and which of the refusals that look at the tables it meets.
ghost use Rattle.std.specs.Prelude.{◌≡◌, ◌||◌, ◌-◌, map, ltb, leb, length};
ghost use Rattle.lists.specs.Lists.{repeats};
ghost use Rattle.meaning.specs.Limits.{most_tables, most_items};
ghost use Rattle.meaning.specs.Names.{same_name, has, table_names};
ghost use Rattle.meaning.specs.Cells.{areas_size};
ghost use Rattle.statement.specs.Private.Sentences.{over_on};
ghost use Rattle.statement.specs.Catalog.{name_of_struct, schema_of};
ghost use Rattle.statement.specs.Refusals.{number_in};
ghost use Rattle.statement.specs.Private.Built.{lowest_by, condition_below, unknown_on};

use super::names::Catalog;
use super::sentences::{Entry, Form};
use super::{Condition, Name, Query, Refusal, Statement, Table, Update, names};

// ---- limits

// The most items that a list may have, by the form of its sentence.
fn most_listed(form: Form) -> usize
    ensures { result ≡ most_items }
{
    match form {
        Form::Table { .. } => Table::COLUMNS,
        Form::Select | Form::Pair { .. } => Query::SELECTED,
        Form::Insert | Form::Update | Form::Delete => Update::SETTINGS,
    }
}

// Whether a sentence is past a limit. A condition of n nodes has (n + 1) / 2 comparisons.
pub fn is_over(e: Entry) -> bool
    ensures { result ≡ over_on e }
{
    let comparisons = (usize::from(e.c.nodes) + 1) / 2;
    e.c.over
        | ((most_listed(e.form) < e.listed)
            | ((Statement::MARKS < e.c.marks) | (Condition::COMPARISONS < comparisons)))
}

// ---- tables

impl Catalog<'_> {
    // Whether a table of that name is there, or a column twice.
    pub fn is_taken(&self, name: &Name, columns: &[Name]) -> bool
        ensures { result ≡ (has (table_names (map schema_of self.now.tables.now)) (name_of_struct name.now) || repeats same_name (map name_of_struct columns.now)) }
    {
        self.find(name).is_some() | names::is_repeated(columns)
    }

    // Whether there is no place for a table of that size.
    pub fn has_no_place(&self, size: usize) -> bool
        ensures { result ≡ (leb most_tables (length (map schema_of self.now.tables.now)) || ltb (self.now.cells - areas_size (map schema_of self.now.tables.now)) size) }
    {
        (Table::TABLES <= self.tables.len()) | (self.cells.saturating_sub(self.areas()) < size)
    }
}

// ---- columns

// Whether all columns of a condition are below `limit`.
fn columns_below(condition: &Condition, limit: usize) -> bool
    ensures { result ≡ condition_below limit condition.now }
{
    condition.used().iter().all(|c| c.is_below(limit))
}

// Whether one of these places, or a column of the condition, is not below `width`.
pub fn is_unknown(places: &[u8], condition: &Condition, width: usize) -> bool
    ensures { result ≡ unknown_on width places.now condition.now }
{
    !(lists::are_below(places, width) & columns_below(condition, width))
}

// ---- the lowest

// Which of the refusals that look at the tables a sentence meets: flags, since it may meet several, of which `refuse` tells the lowest.
#[derive(Clone, Copy, Default)]
pub struct Met {
    pub unknown: bool,
    pub taken: bool,
    pub miscounted: bool,
    pub twice: bool,
    pub full: bool,
}

impl Met {
    // The first of 6, 7, 8, 15 and 9 that is met.
    pub fn refuse(self) -> Result<(), Refusal>
        ensures { number_in result ≡ lowest_by self.unknown self.taken self.miscounted self.twice self.full }
    {
        if self.unknown {
            Err(Refusal::Unknown)
        } else if self.taken {
            Err(Refusal::Taken)
        } else if self.miscounted {
            Err(Refusal::Miscounted)
        } else if self.twice {
            Err(Refusal::Twice)
        } else if self.full {
            Err(Refusal::Place)
        } else {
            Ok(())
        }
    }
}

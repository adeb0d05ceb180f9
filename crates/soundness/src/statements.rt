// Questions and updates, by how many columns their table has.
ghost use Rattle.std.specs.Prelude.{◌≡◌, not, Some, ℕ, ◌≤◌, ltb, map, length, slice_get};
ghost use Rattle.lists.specs.Lists.{any, all, repeats};
ghost use Rattle.statement.specs.SoundTest.{sound_update_on};
ghost use Rattle.soundness.specs.Private.Parts.{width_of, width_with, query_on, query_at, update_at, same_column, form_fits, column_fits, value_fits, settings_on};

use super::conditions;
use table::{Given, Query, Setting, Table, Update, Value};

// ---- how many columns the tables have

// (A cast: they are at most eight, and `try_from` would have an answer for a case that can't be.)
fn width(t: &Table) -> u8
    ensures { (result ≡ width_of t.now) × (result ≤ 8) }
{
    t.names().len() as u8
}

// Of a table, if it is there.
fn width_at(tables: &[Table], table: u8) -> Option<u8>
    ensures there { result ≡ slice_get (map width_of tables.now) table }
    ensures few { (w : ℕ) → result ≡ Some w → w ≤ 8 }
{
    let t = tables.get(usize::from(table))?;
    Some(width(t))
}

// Of the tables of a question, if they are there. A.1: a second one is another than the first, and begins behind the first's columns.
fn width_with(q: &Query, tables: &[Table]) -> Option<u8>
    ensures { result ≡ width_with (map width_of tables.now) q.now.table q.now.second q.now.start }
{
    let columns = width_at(tables, q.table)?;
    let Some(second) = q.second_table() else {
        return Some(columns);
    };
    if (second == q.table) | (q.start != columns) {
        return None;
    }
    Some(columns + width_at(tables, second)?)
}

// ---- questions

// Whether a question is sound, where its tables have so many columns. A.6: its marks are read where it is over two tables.
fn query_is_sound(q: &Query, columns: u8) -> bool
    ensures { result ≡ query_on columns q.now }
{
    let few = (1 <= q.count) & (usize::from(q.count) <= Query::SELECTED);
    few && lists::are_below(q.used(), usize::from(columns))
        && conditions::is_sound(&q.condition, columns, 0, q.parameters)
        && (q.second_table().is_none() || conditions::outer_is_sound(&q.condition, q.outer))
}

// Whether a question is sound beside these tables.
pub fn query_fits(q: &Query, tables: &[Table]) -> bool
    ensures { result ≡ query_at (map width_of tables.now) q.now }
{
    width_with(q, tables).is_some_and(|columns| query_is_sound(q, columns))
}

// ---- updates (Their forms are numbers and no enum: a state is plain numbers that any caller may fill in, and here it is tested.)

// Whether an update of this form may have so many settings and comparisons.
fn form_fits(form: u8, count: u8, columns: u8, comparisons: u8) -> bool
    ensures { result ≡ form_fits form count columns comparisons }
{
    match form {
        Update::INSERT => (count == columns) & (comparisons == 0),
        Update::UPDATE => (1 <= count) & (usize::from(count) <= Update::SETTINGS),
        _ => (form == Update::DELETE) & (count == 0),
    }
}

// Whether the i-th setting may set this column: in an INSERT its own place.
fn column_fits(form: u8, columns: u8, i: usize, column: u8) -> bool
    ensures { result ≡ column_fits form columns i column }
{
    if form == Update::INSERT {
        return usize::from(column) == i;
    }
    column < columns
}

// Whether a value is a constant or the parameter m.
fn value_fits(v: Value, m: u8) -> bool
    ensures { result ≡ value_fits m v }
{
    match v.read() {
        Given::Constant(_) => true,
        Given::Parameter(k) => k == m,
    }
}

// The number of the parameter behind the settings, if these are sound.
fn after_settings(settings: &[Setting], form: u8, columns: u8) -> Option<u8>
    requires { length settings.now ≤ 8 }
    ensures { result ≡ settings_on form columns settings.now }
{
    let mut next = 0u8;
    for (i, s) in settings.iter().enumerate() {
        let value = s.new_value();
        if !(column_fits(form, columns, i, s.column) & value_fits(value, next)) {
            return None;
        }
        if let Given::Parameter(_) = value.read() {
            next += 1;
        }
    }
    Some(next)
}

// Whether one of the settings sets the same column as s. (No function of `lists` asks this and `are_distinct` for all: settings are compared by column, slots by their keys, names by
// their bytes in use, and of a closure a public function, which asks nothing, would have to ask that it gives a test's value.)
fn is_set(s: &Setting, settings: &[Setting]) -> bool
    ensures { result ≡ any (same_column s.now) settings.now }
{
    settings.iter().any(|t| s.column == t.column)
}

// Whether no two settings set the same column.
fn are_distinct(settings: &[Setting]) -> bool
    ensures { result ≡ not (repeats same_column settings.now) }
{
    !settings
        .iter()
        .enumerate()
        .any(|(i, s)| is_set(s, &settings[..i]))
}

// Whether an update is sound, where its table has so many columns.
fn update_is_sound(u: &Update, columns: u8) -> bool
    requires { columns ≤ 8 }
    ensures { result ≡ sound_update_on columns u.now }
{
    let settings = u.used();
    form_fits(u.form, u.count, columns, u.condition.count)
        && after_settings(settings, u.form, columns).is_some_and(|next| {
            // the columns of an INSERT are their places, so they differ
            ((u.form != Update::UPDATE) | are_distinct(settings))
                & conditions::is_sound(&u.condition, columns, next, u.parameters)
        })
}

// Whether an update is sound beside these tables.
pub fn update_fits(u: &Update, tables: &[Table]) -> bool
    ensures { result ≡ update_at (map width_of tables.now) u.now }
{
    width_at(tables, u.table).is_some_and(|columns| update_is_sound(u, columns))
}

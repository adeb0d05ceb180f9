// Rows in the lent cells are inserted, updated and deleted. A table's area is a lent part of the cells; its rows lie one after another from its start on, and where a ring is full the
// oldest is any of them.
ghost use Rattle.std.specs.Prelude.{◌≡◌, cond, not, false, true, ◌&&◌, [], ◌∷◌, ◌++◌, map, ◌+◌, ◌*◌, ◌≤◌, ◌<◌, leb, length, drop};
ghost use Rattle.std.proofs.Math.Seq.{paste};
ghost use Rattle.lists.specs.Lists.{keep, count};
ghost use Rattle.meaning.specs.Cells.{stored};
ghost use Rattle.meaning.specs.Limits.{most_items};
ghost use Rattle.meaning.specs.Meaning.{value_of, assigned};
ghost use Rattle.statement.specs.Sound.{value_read, setting_read, settings_read};
ghost use Rattle.statement.specs.Compiled.{no_setting};
ghost use Rattle.table.specs.Rows.{meets_stored, area_rows};
ghost use Rattle.table.specs.Changed.{updated_if, laid, next_place, area_fits, is_full_ring, form_fits, changed_of, change_of, cells_after, unchanged, removal_of};
ghost use Rattle.table.specs.Private.Changing.{row_of, TurnsRows, ChangeFits, Insertable, inserted_of, constants_of};

use super::area::Rows;
use super::{area, listing, rows};
use lists::filled;
use statement::{Condition, Given, Setting, Table, Update, Value};

// What an update did: how many rows it inserted, matched or deleted, how many are in use now, and which place is the oldest's. (Of one that did nothing these are the table's own, so that a
// caller stores them without asking: an Option would be taken apart first.)
#[derive(Clone, Copy)]
pub struct Changed {
    pub count: u16,
    pub rows: u16,
    pub oldest: u16,
}

impl Changed {
    // Nothing was done.
    pub fn none(table: &Table) -> Changed
        ensures { result ≡ unchanged table.now }
    {
        Changed {
            count: 0,
            rows: table.rows,
            oldest: table.oldest,
        }
    }
}

// ---- INSERT

// A value; of a question mark past the values 0.
fn value_of(value: Value, values: &[i32]) -> i32
    ensures { result ≡ value_of values.now (value_read value) }
{
    match value.read() {
        Given::Constant(number) => number,
        Given::Parameter(k) => rows::number_or(values, usize::from(k), 0),
    }
}

// Puts the values of the settings into a row. (By number: of a loop over `row.iter_mut().zip(settings)` the invariant has no word for the cells that are written. `settings` and `values`
// stay two slices here, in `insert_row` and in `assign`: no fact joins them, so in a struct of both no clause would go, and each would name its two fields.)
fn put_values(row: &mut [i32], settings: &[Setting], values: &[i32])
    requires { length row.old ≡ length settings.now }
    ensures { row.new ≡ row_of settings.now values.now }
{
    for (i, setting) in settings.iter().enumerate() {
        row[i] = value_of(setting.new_value(), values);
    }
}

// Writes a row behind the first n.
fn insert_row(area: &mut [i32], n: u16, settings: &[Setting], values: &[i32])
    requires { n * length settings.now + length settings.now ≤ length area.old }
    ensures { area.new ≡ stored area.old (n * length settings.now) (area_rows (length settings.now) n area.old ++ (row_of settings.now values.now ∷ [])) }
{
    let at = usize::from(n) * settings.len();
    put_values(&mut area[at..at + settings.len()], settings, values);
}

// ---- UPDATE

// Sets columns of a row, in order; a column that the row does not have is passed over.
fn assign(row: &mut [i32], settings: &[Setting], values: &[i32])
    ensures { row.new ≡ assigned (map setting_read settings.now) values.now row.old }
{
    for setting in settings {
        let column = usize::from(setting.column);
        if column < row.len() {
            row[column] = value_of(setting.new_value(), values);
        }
    }
}

// Sets columns of all rows.
fn assign_all(area: &mut [i32], columns: u8, used: u16, settings: &[Setting], values: &[i32])
    requires { used * columns ≤ length area.old }
    ensures { area.new ≡ stored area.old (used * columns) (map (assigned (map setting_read settings.now) values.now) (area_rows columns used area.old)) }
{
    let width = usize::from(columns);
    let mut at = 0;
    for _ in 0..used {
        assign(&mut area[at..at + width], settings, values);
        at += width;
    }
}

// Sets columns of the rows that meet the condition, each tested as it was. Returns how many they are, counted where they are set. (That the rows lie inside the area is
// asked by three functions: a struct that lends it would ask it once, but each clause would then say of a borrow within what it holds after the call and at its end. `at` is counted, since
// `chunks_exact_mut` fails for a table of no columns, whose rows are still counted.)
fn update_rows(area: &mut [i32], columns: u8, used: u16, update: &Update, values: &[i32]) -> u16
    requires { used * columns ≤ length area.old }
    ensures count { result ≡ count (meets_stored update.now.condition values.now) (area_rows columns used area.old) }
    ensures cells { area.new ≡ stored area.old (used * columns) (map (updated_if (meets_stored update.now.condition values.now) (assigned (settings_read update.now) values.now)) (area_rows columns used area.old)) }
{
    let test = rows::prepare(&update.condition, values);
    let settings = update.used();
    let width = usize::from(columns);
    if test.is_met() {
        assign_all(area, columns, used, settings, values);
        return used;
    }
    let mut found: u16 = 0;
    let mut at = 0;
    let mut left = used;
    while left > 0 {
        let n = left.min(64);
        let mut mask = test.mask(&[], &Rows::at_start(&area[at..], width, n));
        for _ in 0..n {
            let row = &mut area[at..at + width];
            if mask % 2 == 1 {
                assign(row, settings, values);
                found += 1;
            }
            mask /= 2;
            at += width;
        }
        left -= n;
    }
    found
}

// ---- DELETE

// Copies a row to an earlier place; at its own it stays.
fn move_row(area: &mut [i32], from: usize, to: usize, columns: usize)
    requires { (to ≤ from) × (from + columns ≤ length area.old) }
    ensures { area.new ≡ paste area.old to (drop from area.old) columns }
{
    if from == to {
        return;
    }
    // An index loop: `copy_within` takes 14 instructions a row more, of rows of four cells, beside those of the library's memmove.
    for i in 0..columns {
        area[to + i] = area[from + i];
    }
}

// Closes up the rows that do not meet the condition, in order, and clears the cells that this vacates. Returns how many rows are gone. (`from` is counted for the reason at `update_rows`,
// and `to` goes on with each row that stays.)
fn delete_rows(
    area: &mut [i32],
    columns: u8,
    used: u16,
    condition: &Condition,
    values: &[i32],
) -> u16
    requires { used * columns ≤ length area.old }
    ensures count { result ≡ count (meets_stored condition.now values.now) (area_rows columns used area.old) }
    ensures cells { area.new ≡ stored area.old (used * columns) (keep (λ r. not (meets_stored condition.now values.now r)) (area_rows columns used area.old)) }
{
    let test = rows::prepare(condition, values);
    let width = usize::from(columns);
    let mut from = 0;
    let mut to = 0;
    let mut gone: u16 = 0;
    let mut left = used;
    if test.is_met() {
        from = usize::from(used) * width;
        gone = used;
        left = 0;
    }
    while left > 0 {
        let n = left.min(64);
        let mut mask = test.mask(&[], &Rows::at_start(&area[from..], width, n));
        for _ in 0..n {
            if mask % 2 == 1 {
                gone += 1;
            } else {
                move_row(area, from, to, width);
                to += width;
            }
            mask /= 2;
            from += width;
        }
        left -= n;
    }
    area[to..from].fill(0);
    gone
}

// Turns the rows in use so that the oldest, at place k, lies first.
fn turn_rows(area: &mut [i32], columns: u8, used: u16, k: u16)
    requires { used * columns ≤ length area.old }
    ensures { TurnsRows columns used k area.old area.new }
{
    if k < used {
        let width = usize::from(columns);
        area[..usize::from(used) * width].rotate_left(usize::from(k) * width);
    }
}

// ---- any update

// Whether the area lies inside so many cells, and the rows in use inside the area.
fn area_fits(table: &Table, start: usize, cells: usize) -> bool
    ensures { result ≡ area_fits table.now start cells }
{
    area::is_inside(cells, start, table.cells()) && table.rows <= table.capacity
}

// Whether a table is a ring that is full.
fn is_full_ring(table: &Table) -> bool
    ensures { result ≡ is_full_ring table.now }
{
    table.ring && table.is_full()
}

// Whether the settings are few enough, and an INSERT has a row free, or a ring's oldest row to take the place of, and a value for each column.
fn form_fits(update: &Update, table: &Table) -> bool
    ensures { result ≡ (leb update.now.count most_items && form_fits update.now.form update.now table.now) }
{
    if Update::SETTINGS < usize::from(update.count) {
        return false;
    }
    if update.form == Update::INSERT {
        let free = !table.is_full() || (table.ring && table.oldest < table.rows);
        return free && update.count == table.count;
    }
    true
}

// The place behind place k of n, round.
fn next_place(n: u16, k: u16) -> u16
    requires { k < n }
    ensures { result ≡ next_place n k }
{
    if k + 1 < n { k + 1 } else { 0 }
}

// Where an INSERT puts its row: behind the rows in use, and in a full ring at the oldest's place.
fn new_place(table: &Table) -> u16
    ensures { result ≡ cond (is_full_ring table.now) table.now.oldest table.now.rows }
{
    if is_full_ring(table) {
        table.oldest
    } else {
        table.rows
    }
}

// What an INSERT did.
fn inserted(table: &Table) -> Changed
    requires { Insertable (is_full_ring table.now) table.now.rows table.now.oldest }
    ensures { result ≡ inserted_of (is_full_ring table.now) table.now.rows table.now.oldest }
{
    if is_full_ring(table) {
        return Changed {
            count: 1,
            rows: table.rows,
            oldest: next_place(table.rows, table.oldest),
        };
    }
    Changed {
        count: 1,
        rows: table.rows + 1,
        oldest: table.oldest,
    }
}

// An update of the rows of an area.
fn change_area(area: &mut [i32], table: &Table, update: &Update, values: &[i32]) -> Changed
    requires { ChangeFits (is_full_ring table.now) table.now.oldest update.now.form update.now.count table.now.count table.now.rows (length area.old) }
    ensures counted { result ≡ changed_of (is_full_ring table.now) table.now.oldest update.now.form update.now values.now (area_rows table.now.count table.now.rows area.old) }
    ensures cells { area.new ≡ stored area.old (table.now.rows * table.now.count) (laid (is_full_ring table.now) table.now.oldest update.now.form update.now values.now (area_rows table.now.count table.now.rows area.old)) }
{
    if update.form == Update::INSERT {
        insert_row(area, new_place(table), update.used(), values);
        return inserted(table);
    }
    if update.form == Update::UPDATE {
        return Changed {
            count: update_rows(area, table.count, table.rows, update, values),
            rows: table.rows,
            oldest: table.oldest,
        };
    }
    turn_rows(area, table.count, table.rows, table.oldest);
    let count = delete_rows(area, table.count, table.rows, &update.condition, values);
    Changed {
        count,
        rows: table.rows - count,
        oldest: 0,
    }
}

// Makes an update of the table whose area starts there; where something does not fit, nothing happens.
pub fn change(
    update: Update,
    table: Table,
    start: usize,
    cells: &mut [i32],
    values: &[i32],
) -> Changed
    ensures counted { result ≡ change_of update table start cells.old values.now }
    ensures cells { cells.new ≡ cells_after update table start cells.old values.now }
{
    if !area_fits(&table, start, cells.len()) || !form_fits(&update, &table) {
        return Changed::none(&table);
    }
    let end = start + table.cells();
    change_area(&mut cells[start..end], &table, &update, values)
}

// How many rows the update would insert, match or delete, by the definition that `change` promises; where something does not fit, none. Nothing is changed.
pub fn count_change(
    update: Update,
    table: Table,
    start: usize,
    cells: &[i32],
    values: &[i32],
) -> u16
    ensures { result ≡ (change_of update table start cells.now values.now).count }
{
    if !area_fits(&table, start, cells.len()) || !form_fits(&update, &table) {
        return 0;
    }
    if update.form == Update::INSERT {
        return 1;
    }
    let rows = Rows::of(&table, start, cells);
    let test = rows::prepare(&update.condition, values);
    listing::count_rows(&rows, &test)
}

// ---- the row that a full ring pushes out

// A row's values as the first settings of an INSERT, as constants. (By number, since a setting's place is its column.)
fn constants(row: &[i32]) -> [Setting; Update::SETTINGS]
    requires { length row.now ≤ most_items }
    ensures { result ≡ constants_of row.now }
{
    let mut list: [Setting; Update::SETTINGS] = filled(Setting::default());
    for (i, number) in row.iter().enumerate() {
        list[i] = Setting {
            column: i as u8,
            mark: 0,
            number: *number,
        };
    }
    list
}

// The oldest row's values as an INSERT of constants into the table of that number; of a table without rows an INSERT of no values. (No Option: it is total,
// as `removal_of` is, and asked for only where a row is inserted into a full ring.)
pub fn removal(number: u8, table: Table, start: usize, cells: &[i32]) -> Update
    ensures { result ≡ removal_of number table start cells.now }
{
    let rows = Rows::paired(&table, start, cells);
    let oldest = if rows.count == 0 { &[] } else { rows.row(0) };
    Update {
        form: Update::INSERT,
        table: number,
        settings: constants(oldest),
        count: oldest.len() as u8,
        parameters: 0,
        condition: Condition::default(),
    }
}

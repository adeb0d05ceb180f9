// A field of a state, changed by its name. The numbers say which entry and what it becomes; an entry past an array changes nothing.
// Names are words of the script, one field each, so they are told apart by a `match` on bytes: an enum of them would be a second `match` and no plainer.
use cache::{Pending, State};
use script::number;
use slots::{Key, SlotList};
use table::{Comparison, Condition, Name, Query, Table, Update};

// The low bits of a number. Two functions: what a number is cut to is no parameter of a cast.
fn low8(v: usize) -> u8 {
    (v & 0xff) as u8
}

fn low16(v: usize) -> u16 {
    (v & 0xffff) as u16
}

// Changes the field of that name, which is one of one group only.
pub fn set_field(state: &mut State, name: &[u8], n: &[i32]) {
    let i = number(n, 0);
    set_size(state, name, i);
    set_slots(&mut state.slots, name, n);
    set_note(&mut state.pending, name, n);
    if let Some(key) = state.keys.get_mut(i) {
        set_key(key, name, n);
    }
    if let (b"length", Some(size)) = (name, state.lengths.get_mut(i)) {
        *size = low16(number(n, 1));
    }
    if let Some(table) = state.tables.get_mut(i) {
        set_table(table, name, n);
    }
    if let Some(query) = state.queries.get_mut(i) {
        set_query(query, name, n);
    }
    if let Some(update) = state.updates.get_mut(i) {
        set_update(update, name, n);
    }
}

// ---- sizes and counts

fn set_size(state: &mut State, name: &[u8], v: usize) {
    match name {
        b"cells" => state.cells = u32::try_from(v).unwrap_or(u32::MAX),
        b"memory" => state.memory = u32::try_from(v).unwrap_or(u32::MAX),
        b"bytes" => state.slot_bytes = low16(v),
        b"tables" => state.table_count = low8(v),
        b"queries" => state.query_count = low8(v),
        b"updates" => state.update_count = low8(v),
        _ => {}
    }
}

// ---- slots and cached answers

fn set_slots(slots: &mut SlotList, name: &[u8], n: &[i32]) {
    let i = number(n, 0);
    match name {
        b"slots" => slots.count = low8(i),
        b"held" => slots.held = low8(i),
        b"order" => {
            if let Some(slot) = slots.order.get_mut(i) {
                *slot = low8(number(n, 1));
            }
        }
        _ => {}
    }
}

fn set_key(key: &mut Key, name: &[u8], n: &[i32]) {
    let v = number(n, 1);
    match name {
        b"key" => key.query = low8(v),
        b"keycount" => key.count = low8(v),
        b"keyvalue" => {
            if let (Some(value), Some(z)) = (key.values.get_mut(v), n.get(2)) {
                *value = *z;
            }
        }
        _ => {}
    }
}

// ---- the note

// With `pending` a note is there (1, or any other number but 0) or none (0): one that was not there is of update 0, without values. The other fields are those of a note that is there.
fn set_note(pending: &mut Pending, name: &[u8], n: &[i32]) {
    let i = number(n, 0);
    match (name, pending.there != 0) {
        (b"pending", true) if i == 0 => *pending = Pending::none(),
        (b"pending", _) => pending.there = low8(i.min(255)),
        (b"pendingupdate", true) => pending.note.update = low8(i),
        (b"pendingcount", true) => pending.note.count = low8(i),
        (b"pendingvalue", true) => {
            if let (Some(value), Some(z)) = (pending.note.values.get_mut(i), n.get(1)) {
                *value = *z;
            }
        }
        _ => {}
    }
}

// ---- tables

fn set_byte(name: &mut Name, i: usize, v: usize) {
    if let Some(byte) = name.bytes.get_mut(i) {
        *byte = low8(v);
    }
}

// A table with `start` has its oldest row at another place; with `ring` it is made a ring (1) or none (0).
fn set_table(table: &mut Table, name: &[u8], n: &[i32]) {
    let v = number(n, 1);
    match name {
        b"capacity" => table.capacity = low16(v),
        b"rows" => table.rows = low16(v),
        b"columns" => table.count = low8(v),
        b"namelen" => table.name.len = low8(v),
        b"start" => table.oldest = low16(v),
        b"ring" => table.ring = 0 < v,
        b"name" => set_byte(&mut table.name, v, number(n, 2)),
        b"column" => {
            if let Some(column) = table.columns.get_mut(v) {
                set_byte(column, number(n, 2), number(n, 3));
            }
        }
        _ => {}
    }
}

// ---- conditions

// The operator of comparison i.
fn set_operator(condition: &mut Condition, i: usize, op: u8) {
    if let Some(comparison) = condition.comparisons.get_mut(i) {
        comparison.op = op;
    }
}

// .. a null test: 0 IS NULL, 1 IS NOT NULL.
fn set_null(condition: &mut Condition, n: &[i32]) {
    let op = low8(number(n, 2)).wrapping_add(Comparison::IS_NULL);
    set_operator(condition, number(n, 1), op);
}

fn set_condition(condition: &mut Condition, name: &[u8], n: &[i32]) {
    let i = number(n, 1);
    match name {
        b"qcomparisons" => condition.count = low8(i),
        b"qstep" => {
            if let Some(step) = condition.steps.get_mut(i) {
                *step = low8(number(n, 2));
            }
        }
        b"qop" => set_operator(condition, i, low8(number(n, 2))),
        b"qnull" => set_null(condition, n),
        _ => {}
    }
}

// ---- queries

// The first n bits of a number, the first one as the highest digit; those past the eighth from the end fall off.
fn turned(bits: usize, n: u8) -> u8 {
    let mut rest = bits;
    let mut digits: u8 = 0;
    for _ in 0..n {
        digits = digits.wrapping_mul(2).wrapping_add(low8(rest % 2));
        rest /= 2;
    }
    digits
}

// With `qsecond` the second table is changed, 255 for none, with `qstart` the place of that table's first column. With `qouter` those comparisons are marked as outer whose
// bits are set: bit i is comparison i, in the text's order. In a state the last one's mark is the last digit.
fn set_query(query: &mut Query, name: &[u8], n: &[i32]) {
    let i = number(n, 1);
    match name {
        b"qtable" => query.table = low8(i),
        b"qcount" => query.count = low8(i),
        b"qparameters" => query.parameters = low8(i),
        b"qselected" => {
            if let Some(column) = query.selected.get_mut(i) {
                *column = low8(number(n, 2));
            }
        }
        b"qsecond" => query.second = low8(i).wrapping_add(1),
        b"qstart" => query.start = low8(i),
        b"qouter" => query.outer = turned(i, query.condition.count),
        _ => set_condition(&mut query.condition, name, n),
    }
}

// ---- updates

fn set_update(update: &mut Update, name: &[u8], n: &[i32]) {
    let i = number(n, 1);
    match name {
        b"uform" => update.form = low8(i),
        b"utable" => update.table = low8(i),
        b"ucount" => update.count = low8(i),
        b"uparameters" => update.parameters = low8(i),
        b"ucolumn" => {
            if let Some(setting) = update.settings.get_mut(i) {
                setting.column = low8(number(n, 2));
            }
        }
        b"unull" => set_null(&mut update.condition, n),
        _ => {}
    }
}

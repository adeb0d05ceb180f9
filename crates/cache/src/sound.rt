// The test of a state: each part of it a function, each computed once a call.
ghost use Rattle.std.specs.Prelude.{◌≡◌, not, ◌&&◌, ◌||◌, ◌*◌, ◌≤◌, eqb, leb, ltb, length};
ghost use Rattle.lists.specs.Lists.{all};
ghost use Rattle.meaning.specs.Plain.{opening_refused};
ghost use Rattle.slots.specs.Keys.{slot_key, held_slots};
ghost use Rattle.cache.specs.Sound.{lengths, opening, areas_of, length_at};
ghost use Rattle.cache.specs.SoundTest.{rows_fit, length_fits};
ghost use Rattle.cache.specs.Private.Outcomes.{key_fits, slot_fits};

use super::State;
use slots::{Key, SlotList};
use table::{Query, Table, Update};

// Whether an opening is within the limits, and its slots within the cache memory.
pub fn sizes_fit(cells: usize, memory: usize, slots: usize, bytes: usize) -> bool
    ensures { result ≡ not (opening_refused (opening (lengths cells memory) slots bytes)) }
{
    let within = (cells <= State::CELLS)
        & (memory <= State::MEMORY)
        & (slots <= SlotList::SLOTS)
        & (SlotList::LEAST_BYTES <= bytes)
        & (bytes <= SlotList::MOST_BYTES);
    within && slots * bytes <= memory
}

pub fn counts_fit(tables: u8, queries: u8, updates: u8) -> bool
    ensures { result ≡ (leb tables 8 && (leb queries 16 && leb updates 16)) }
{
    let few = (usize::from(queries) <= Query::QUERIES) & (usize::from(updates) <= Update::UPDATES);
    (usize::from(tables) <= Table::TABLES) & few
}

// The cells of the areas of tables, one behind the other.
pub fn areas(tables: &[Table]) -> usize
    requires { length tables.now ≤ 8 }
    ensures { result ≡ areas_of tables.now }
{
    tables.iter().map(Table::cells).sum()
}

// Whether a table holds no more rows than its ROWS, and the oldest lies where it may: first, or anywhere in a ring that is full.
fn fits(table: &Table) -> bool
    ensures { result ≡ rows_fit table.now }
{
    let full = table.ring & ((table.rows == table.capacity) & (table.oldest < table.capacity));
    table.rows <= table.capacity && (table.oldest == 0 || full)
}

// Whether the rows of each table are such.
pub fn rows_fit(tables: &[Table]) -> bool
    ensures { result ≡ all rows_fit tables.now }
{
    tables.iter().all(fits)
}

// Whether a key has one of these queries, and its number of values.
fn key_fits(queries: &[Query], key: &Key) -> bool
    ensures { result ≡ key_fits queries.now key.now }
{
    queries
        .get(usize::from(key.query))
        .is_some_and(|query| key.count == query.parameters)
}

// Whether a slot has such a key, and a length from 8 to the slot's bytes.
fn slot_fits(state: &State, queries: &[Query], slot: u8) -> bool
    ensures { result ≡ (length_fits (length_at state.now slot) state.now.slot_bytes && key_fits queries.now (slot_key state.now.keys slot)) }
{
    let x = usize::from(slot);
    if SlotList::SLOTS <= x {
        return false;
    }
    let size = state.lengths[x];
    let sized = (SlotList::LEAST_BYTES <= usize::from(size)) & (size <= state.slot_bytes);
    sized && key_fits(queries, &state.keys[x])
}

// Whether each held slot does.
pub fn held_fit(state: &State) -> bool
    requires { state.now.query_count ≤ 16 }
    ensures { result ≡ all (slot_fits state.now) (held_slots state.now.slots) }
{
    let queries = state.used_queries();
    state
        .slots
        .held_slots()
        .iter()
        .all(|x| slot_fits(state, queries, *x))
}

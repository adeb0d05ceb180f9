// Which held slots an update invalidates. Each joint clause of a query and the update is worked out once, and compared with every held key of that query; a query
// that holds no answer, or is of another table, costs nothing. Of the slots matched those are dropped whose answer the update can change (A.7).
ghost use Rattle.std.specs.Prelude.{◌≡◌, ◌≤◌, ◌<◌, true, false, ◌&&◌, eqb, map, length, set, replicate};
ghost use Rattle.lists.specs.Lists.{from};
ghost use Rattle.pattern.specs.Stored.{agrees_stored};
ghost use Rattle.slots.specs.Keys.{values_of, held_slots};
ghost use Rattle.slots.specs.Order.{sound_slots};
ghost use Rattle.cache.specs.Private.Marks.{agrees_at, marked, query_marks, holds_answer, marks_of, reaches_at, reached_at, marks_both};

use super::State;
use pattern::Pattern;
use slots::{Key, SlotList};
use table::{Query, Table, Update};

// Whether a key is of the query and agrees with the pattern.
fn agrees_key(p: &Pattern, q: u8, k: &Key) -> bool
    ensures { result ≡ (eqb k.now.query q && agrees_stored p.now (values_of k.now)) }
{
    k.query == q && p.agrees(k.used())
}

// The slots marked, and whether there is one: where none is, no slot is looked at again. (A flag and an array: an Option of the array would be opened at each mark, and each
// clause would say by cases what is marked.)
#[derive(Clone, Copy)]
struct Marks {
    all: [bool; SlotList::SLOTS],
    some: bool,
    ghost told: { some ≡ false → all ≡ replicate 64 false },
}

impl Marks {
    fn none() -> Marks
        ensures { result.all ≡ replicate 64 false }
    {
        Marks {
            all: [false; SlotList::SLOTS],
            some: false,
        }
    }

    fn mark(&mut self, slot: usize)
        requires { slot < 64 }
        ensures { self.new.all ≡ set self.old.all slot true }
    {
        self.some = true;
        self.all[slot] = true;
    }
}

// The state whose held keys are compared, and an update's values. (Loops take the keys before they begin: read through the struct for each mark, an update that drops none of 64
// kept answers takes 14,045 instructions, and 13,929 so. The length of an array is not known behind a reference in a struct: a ghost field says it.)
#[derive(Clone, Copy)]
struct Matching<'a> {
    state: &'a State,
    values: &'a [i32],
    ghost sound: { sound_slots state.now.slots ≡ true },
    ghost few: { state.now.query_count ≤ 16 },
    ghost all_keys: { length state.now.keys ≡ 64 },
    ghost all_queries: { length state.now.queries ≡ 16 },
}

impl Matching<'_> {
    // Which queries hold an answer.
    fn queries_held(&self) -> [bool; Query::QUERIES]
        ensures { result ≡ map (holds_answer self.now.state.now.keys self.now.state.now.slots) (from 0 16) }
    {
        let keys = &self.state.keys;
        let held = self.state.slots.held_slots();
        let mut found = [false; Query::QUERIES];
        for x in held {
            let q = usize::from(keys[usize::from(*x)].query);
            if q < Query::QUERIES {
                found[q] = true;
            }
        }
        found
    }

    // Marks those of the held slots whose key is of the query and agrees with the pattern.
    fn mark_agreeing(&self, marks: &mut Marks, q: u8, p: &Pattern)
        ensures { marks.new.all ≡ marked (agrees_at self.now.state.now.keys q p.now) (held_slots self.now.state.now.slots) marks.old.all }
    {
        let keys = &self.state.keys;
        let held = self.state.slots.held_slots();
        for x in held {
            let slot = usize::from(*x);
            if agrees_key(p, q, &keys[slot]) {
                marks.mark(slot);
            }
        }
    }

    // Marks the held slots whose key is of the query and is matched by the update: each joint clause, and beside it every held key.
    fn mark_query(&self, marks: &mut Marks, q: u8, query: &Query, update: &Update)
        ensures { marks.new.all ≡ query_marks self.now.state.now.keys self.now.state.now.slots q query.now update.now self.now.values.now marks.old.all }
    {
        // By number: with the list of all patterns (`Patterns::of`) made in memory for each query, an update with 8 kept answers takes 23 % more instructions and copies 67 % more bytes
        // (one with 64 joint clauses takes 22 % fewer).
        for i in 0..pattern::clause_total(query, update) {
            if let Some(p) = pattern::clause_pattern(query, update, i) {
                self.mark_agreeing(marks, q, &p.filled(self.values));
            }
        }
    }

    // Marks, beside those that are marked already, the held slots whose key is matched by the update.
    fn mark_all(&self, marks: &mut Marks, update: &Update)
        ensures { marks.new.all ≡ marks_of self.now.state.now.keys self.now.state.now.slots self.now.state.now.queries self.now.state.now.query_count update.now self.now.values.now marks.old.all }
    {
        let found = self.queries_held();
        let queries = self.state.used_queries();
        for (q, query) in queries.iter().enumerate() {
            let same = pattern::reads(query.table, query.second, update.table);
            if found[q] & same {
                self.mark_query(marks, q as u8, query, update);
            }
        }
    }

    // Whether the update reaches the answer in a slot, in a table of so many columns.
    fn reaches(&self, slot: usize, width: u8, update: &Update) -> bool
        requires { slot < 64 }
        ensures { result ≡ reaches_at self.now.state.now.keys self.now.state.now.queries width self.now.values.now update.now slot }
    {
        let key = &self.state.keys[slot];
        let query = &self.state.queries[usize::from(key.query) % Query::QUERIES];
        pattern::reaches(query, update, width, self.values, key.used())
    }

    // Marks those of the slots matched whose answer the update reaches.
    fn mark_reached(
        &self,
        marks: &mut [bool; SlotList::SLOTS],
        matched: &Marks,
        width: u8,
        update: &Update,
    )
        ensures { marks.new ≡ marked (reached_at self.now.state.now.keys self.now.state.now.queries width self.now.values.now update.now matched.now.all) (held_slots self.now.state.now.slots) marks.old }
    {
        if !matched.some {
            return;
        }
        let held = self.state.slots.held_slots();
        for x in held {
            let slot = usize::from(*x);
            if matched.all[slot] && self.reaches(slot, width, update) {
                marks[slot] = true;
            }
        }
    }
}

// The held slots whose answers an update of the table drops, of which the area starts there: of those that the update matches or, where it pushes a row out of a ring, the
// removal of that row, those that one of the two reaches. Not put into the call: beside its locals the row loops take more
// instructions (an UPDATE of 512 rows by one comparison 26,132 for 25,215, by eight 85,693 for 81,122).
#[inline(never)]
pub fn dropped_by(
    state: &State,
    update: &Update,
    table: &Table,
    start: usize,
    cells: &[i32],
    values: &[i32],
) -> [bool; SlotList::SLOTS]
    requires { (sound_slots state.now.slots ≡ true) × (state.now.query_count ≤ 16) }
    ensures { result ≡ marks_both state.now.keys state.now.slots state.now.queries state.now.query_count update.now table.now start cells.now values.now }
{
    let mut dropped = [false; SlotList::SLOTS];
    if state.slots.held == 0 {
        return dropped;
    }
    let matching = Matching { state, values };
    let mut matched = Marks::none();
    matching.mark_all(&mut matched, update);
    let is_pushing = table.ring & ((update.form == Update::INSERT) & table.is_full());
    if is_pushing {
        let out = table::removal(update.table, *table, start, cells);
        matching.mark_all(&mut matched, &out);
        matching.mark_reached(&mut dropped, &matched, table.count, &out);
    }
    matching.mark_reached(&mut dropped, &matched, table.count, update);
    dropped
}

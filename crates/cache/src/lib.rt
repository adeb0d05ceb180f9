// The store that caches answers: its state by value, and the calls open, add, ask, update, flush, propose, commit and withdraw. The tables' cells and the cache memory are lent at each call.
// Casts: u32 has no `From` to usize, and a number that is cast to a smaller type is proved to fit it.
#![tactic(auto)]

mod matching; // which cached answers an update invalidates
mod sealed; // a state that is known to be sound
mod sound; // the test of a state

ghost use Rattle.std.specs.Prelude.{◌≡◌, ⊤, Ok, Some, None, true, cond, ◌&&◌, ◌+◌, ◌≤◌, ◌<◌, eqb, length, take, set};
ghost use Rattle.meaning.specs.Refusals.{flush_conditions, lowest_of, settled};
ghost use Rattle.statement.specs.Compiled.{compiled};
ghost use Rattle.statement.specs.Refusals.{number_of, number_in};
ghost use Rattle.table.specs.Evaluated.{said};
ghost use Rattle.table.specs.Changed.{cells_after};
ghost use Rattle.slots.specs.Keys.{key_of, find_of};
ghost use Rattle.cache.specs.Sound.{lengths, opening, areas_of, update_at, note_read, note_if, pending_of};
ghost use Rattle.cache.specs.Means.{Typed};
ghost use Rattle.cache.specs.SoundTest.{sound_state, sound_counts, sound_tables, sound_answers, would_refuse, sound_note};
ghost use Rattle.cache.specs.Private.Outcomes.{lent_in, nowhere, no_answer, settled_state, outcome_of, Caches, WorksOut, Room, Keeps, told, has_place, Takes, NotesOr};
ghost use Rattle.cache.specs.Given.{opened_as, added_as, asked_as, updated_as, flushed_as, proposed_as};
ghost use Rattle.cache.specs.Calls.{lengths_lent, unfit};
ghost use Rattle.cache.specs.Demand.{ThirdDemand, Demands};
ghost use Rattle.cache.specs.Gives.{open_of, add_of, ask_of, update_of, flush_of, empty_state, open_gives, added_by, ask_gives, ask_refusal, kept_bytes, ask_new, ask_found, update_gives, update_refusal, update_refused, update_done, note_of, would_do, propose_of, commit_of, withdraw_of};

pub use sealed::{Opened, SealedState};
use slots::{Key, SlotList};
use std::alloc::AllocError;
use table::{Query, Refusal, Selected, Statement, Table, Update};

// The state. Entries past the counts, and of slots that hold nothing, do not matter. (Plain numbers in a form that is public and fixed: callers fill it in, and tests of states name
// its fields. So a count stands beside each array, and keys and lengths are two arrays; a key and a length in one struct are 128 bytes more, by the layout 40 each for 36 and 2.)
#[repr(C)]
#[derive(Drop)]
pub struct State {
    pub tables: [Table; Table::TABLES],
    pub queries: [Query; Query::QUERIES],
    pub updates: [Update; Update::UPDATES],
    // of each slot: the key of its answer, and its record's length
    pub keys: [Key; SlotList::SLOTS],
    pub lengths: [u16; SlotList::SLOTS],
    // the order of use
    pub slots: SlotList,
    pub table_count: u8,
    pub query_count: u8,
    pub update_count: u8,
    // the bytes of a slot, and the opening's lengths
    pub slot_bytes: u16,
    pub cells: u32,
    pub memory: u32,
    // the update that is proposed, if one is
    pub pending: Pending,
}

// A copy of it. (It is not `Copy`: the memories go on with one state alone, so a state that was handed on must not be used again by slip.)
impl Clone for State {
    ghost is_clone = { λ x y. y ≡ x };

    ghost is_infallible = { λ _. ⊤ };

    fn clone(&self) -> Result<Self, AllocError> {
        Ok(State {
            tables: self.tables,
            queries: self.queries,
            updates: self.updates,
            keys: self.keys,
            lengths: self.lengths,
            slots: self.slots,
            table_count: self.table_count,
            query_count: self.query_count,
            update_count: self.update_count,
            slot_bytes: self.slot_bytes,
            cells: self.cells,
            memory: self.memory,
            pending: self.pending,
        })
    }
}

// The update that is proposed: `note` counts where `there` is not 0. (Numbers and no `Option`, as everywhere in a state: an enum can't cross to C.)
#[repr(C)]
#[derive(Clone, Copy)]
pub struct Pending {
    pub there: u8,
    pub note: Note,
}

// An update with values: its number, and its values, of which the first `count` are in use.
#[repr(C)]
#[derive(Clone, Copy)]
pub struct Note {
    pub update: u8,
    pub count: u8,
    pub values: [i32; Key::VALUES],
}

// What a call gives: what it is made for, or why it is not taken; and the state, which a call takes by value and gives back in both cases.
#[derive(Clone, Drop)]
pub struct Outcome<T> {
    pub result: Result<T, Refusal>,
    pub state: State,
}

// What a text was.
#[derive(Clone, Copy, PartialEq, Eq)]
pub enum Kind {
    Table,
    Query,
    Update,
}

// What adding gives: the kind and number of what was added.
#[derive(Clone, Copy)]
pub struct Added {
    pub kind: Kind,
    pub number: u8,
}

// Whether an answer was worked out or cached.
#[derive(Clone, Copy, PartialEq, Eq)]
pub enum Source {
    New,
    Cached,
}

// What a question gives: where its answer is from, the rows scanned, the record's length.
#[derive(Clone, Copy)]
pub struct Answer {
    pub source: Source,
    pub scanned: u32,
    pub size: usize,
}

// What an update gives: the rows inserted, matched or deleted, and how many cached answers it invalidated.
#[derive(Clone, Copy)]
pub struct Changed {
    pub rows: u16,
    pub invalidated: u8,
}

// What a proposal gives: the rows that the update would insert, match or delete.
#[derive(Clone, Copy)]
pub struct Proposed {
    pub rows: u16,
}

// The lengths of the memories that are lent.
#[derive(Clone, Copy)]
struct Lengths {
    cells: usize,
    memory: usize,
}

impl Lengths {
    fn of(cells: &[i32], memory: &[u8]) -> Lengths
        ensures { lent_in result ≡ lengths_lent cells.now memory.now }
    {
        Lengths {
            cells: cells.len(),
            memory: memory.len(),
        }
    }
}

// A record put into a slot: the slot and the record's length.
#[derive(Clone, Copy)]
struct Kept {
    slot: u8,
    size: u16,
}

// What a question leaves: the record put into a slot, if one was, and the order of use.
#[derive(Clone, Copy)]
struct Place {
    kept: Option<Kept>,
    slots: SlotList,
}

// What a question gives, without the state.
#[derive(Clone, Copy)]
struct Reply {
    result: Result<Answer, Refusal>,
    place: Place,
}

// A question that is taken: the state that it asks, its number, its values and their key. (The lengths of arrays are not known behind a reference in a struct. The memory
// is lent to be changed and stands in no struct of shared borrows, so each method asks for its length.)
#[derive(Clone, Copy)]
struct Question<'a> {
    state: &'a State,
    number: usize,
    values: &'a [i32],
    key: &'a Key,
    ghost sound: { sound_state state.now ≡ true },
    ghost there: { number < state.now.query_count },
    ghost keyed: { key.now ≡ key_of number values.now },
    ghost all_tables: { length state.now.tables ≡ 8 },
    ghost all_queries: { length state.now.queries ≡ 16 },
}

// No slot is taken.
fn nowhere(slots: SlotList) -> Place
    ensures { result ≡ nowhere slots }
{
    Place { kept: None, slots }
}

fn not_answered(refusal: Refusal, slots: SlotList) -> Reply
    ensures { told result ≡ no_answer (number_of refusal) slots }
{
    Reply {
        result: Err(refusal),
        place: nowhere(slots),
    }
}

// A record that fits a slot of so many bytes takes the last one, which moves to the front.
fn keep(slots: SlotList, slot_bytes: u16, size: usize, bytes: &[u8], memory: &mut [u8]) -> Place
    requires { (size ≤ length bytes.now) × Room slots slot_bytes (length memory.old) size }
    ensures place { Keeps slots slot_bytes (take size bytes.now) result }
    ensures memory { memory.new ≡ kept_bytes slots slot_bytes (take size bytes.now) memory.old }
{
    let most = usize::from(slot_bytes);
    if most < size {
        return nowhere(slots);
    }
    let Some(taken) = slots.take_last() else {
        return nowhere(slots);
    };
    let at = usize::from(taken.slot) * most;
    memory[at..at + size].copy_from_slice(&bytes[..size]);
    let kept = Kept {
        slot: taken.slot,
        size: size as u16,
    };
    Place {
        kept: Some(kept),
        slots: taken.slots,
    }
}

// Refuses by 11: not as many values as parameters.
fn check_values(parameters: u8, values: usize) -> Result<(), Refusal>
    ensures { number_in result ≡ cond (eqb values parameters) 0 11 }
{
    if values != usize::from(parameters) {
        return Err(Refusal::Values);
    }
    Ok(())
}

// Puts an item behind the first `count` of an array; its place is given. (`lists::put` would test a place that is there.)
fn put_behind<T: Copy, const N: usize>(all: &mut [T; N], count: &mut u8, item: T) -> u8
    requires { (count.old < N) × (N ≤ 255) }
    ensures all { all.new ≡ set all.old count.old item }
    ensures count { count.new ≡ count.old + 1 }
    ensures place { result ≡ count.old }
{
    let place = *count;
    all[usize::from(place)] = item;
    *count = place + 1;
    place
}

impl State {
    // The most cells, and bytes of cache memory.
    pub const CELLS: usize = 32768;

    pub const MEMORY: usize = 262144;

    // What its type says of a state, of which the claims about states speak: the lengths of its arrays, and 32 bits of constants. It does nothing.
    pub fn fits_type(self)
        ensures { Typed self }
    {}

    // ---- what is in use

    fn used_tables(&self) -> &[Table]
        ensures first { result.now ≡ take self.now.table_count self.now.tables }
        ensures size { length self.now.tables ≡ 8 }
    {
        lists::in_use(&self.tables, usize::from(self.table_count))
    }

    fn used_queries(&self) -> &[Query]
        ensures first { result.now ≡ take self.now.query_count self.now.queries }
        ensures size { length self.now.queries ≡ 16 }
    {
        lists::in_use(&self.queries, usize::from(self.query_count))
    }

    fn used_updates(&self) -> &[Update]
        ensures first { result.now ≡ take self.now.update_count self.now.updates }
        ensures size { length self.now.updates ≡ 16 }
    {
        lists::in_use(&self.updates, usize::from(self.update_count))
    }

    // ---- the test of a state

    // Whether the state is sound.
    pub fn is_sound(&self) -> bool
        ensures { result ≡ sound_state self.now }
    {
        let count = usize::from(self.slots.count);
        let bytes = usize::from(self.slot_bytes);
        let sizes = sound::sizes_fit(self.cells as usize, self.memory as usize, count, bytes);
        let counts = sound::counts_fit(self.table_count, self.query_count, self.update_count);
        if !(sizes & counts) {
            return false;
        }
        self.texts_are_sound() && (self.answers_are_sound() && self.note_is_sound())
    }

    // Whether the note, if there is one, names an update that 10 to 12 would not refuse now.
    fn note_is_sound(&self) -> bool
        requires { (sound_counts self.now ≡ true) × (sound_tables self.now ≡ true) }
        ensures { result ≡ sound_note self.now }
    {
        match self.pending.note() {
            None => true,
            Some(note) => self
                .check_number(usize::from(note.update), usize::from(note.count))
                .is_ok(),
        }
    }

    // Whether the tables and statements are sound, where there are not too many of them.
    fn texts_are_sound(&self) -> bool
        requires { sound_counts self.now ≡ true }
        ensures { result ≡ sound_tables self.now }
    {
        let used = self.used_tables();
        let areas = sound::areas(used) <= self.cells as usize;
        let rows = sound::rows_fit(used);
        let named = soundness::tables_are_sound(used);
        let queries = self.used_queries();
        let asked = soundness::queries_are_sound(used, queries);
        let updates = self.used_updates();
        let changing = soundness::updates_are_sound(used, updates);
        areas & (rows & (named & (asked & changing)))
    }

    // Whether the slot list is sound, and the keys and lengths of the held slots.
    fn answers_are_sound(&self) -> bool
        requires { sound_counts self.now ≡ true }
        ensures { result ≡ sound_answers self.now }
    {
        if !self.slots.is_sound() {
            return false;
        }
        let fit = sound::held_fit(self);
        fit && !slots::held_twice(&self.keys, &self.slots)
    }

    // Refuses by 2: a state that is not sound, or lent lengths that are not those of its opening. (Here and below, `sound` says whether the state is sound: a call tests it, and a
    // `Store` knows it.)
    fn check(&self, sound: bool, lent: Lengths) -> Result<(), Refusal>
        requires { sound ≡ sound_state self.now }
        ensures { number_in result ≡ lowest_of (flush_conditions (unfit self.now (lent_in lent))) }
    {
        let same = (lent.cells == self.cells as usize) & (lent.memory == self.memory as usize);
        let fit = sound & same;
        if !fit {
            return Err(Refusal::State);
        }
        Ok(())
    }

    // ---- open

    // A state without tables, statements or cached answers.
    fn empty(cells: u32, memory: u32, slots: u8, slot_bytes: u16) -> State
        ensures { result ≡ empty_state (opening (lengths cells memory) slots slot_bytes) }
    {
        State {
            tables: [Table::default(); Table::TABLES],
            queries: [Query::default(); Query::QUERIES],
            updates: [Update::default(); Update::UPDATES],
            keys: [Key::default(); SlotList::SLOTS],
            lengths: [0u16; SlotList::SLOTS],
            slots: SlotList::open(slots),
            table_count: 0,
            query_count: 0,
            update_count: 0,
            slot_bytes,
            cells,
            memory,
            pending: Pending::none(),
        }
    }

    // Such a state in place of this one, field by field: a state that is built first would lie on the stack beside it.
    fn reset(&mut self, cells: u32, memory: u32, slots: u8, slot_bytes: u16)
        ensures { self.new ≡ empty_state (opening (lengths cells memory) slots slot_bytes) }
    {
        self.tables = [Table::default(); Table::TABLES];
        self.queries = [Query::default(); Query::QUERIES];
        self.updates = [Update::default(); Update::UPDATES];
        self.keys = [Key::default(); SlotList::SLOTS];
        self.lengths = [0u16; SlotList::SLOTS];
        self.slots = SlotList::open(slots);
        self.table_count = 0;
        self.query_count = 0;
        self.update_count = 0;
        self.slot_bytes = slot_bytes;
        self.cells = cells;
        self.memory = memory;
        self.pending = Pending::none();
    }

    // Opens a store on lent memories, and clears them.
    pub fn open(
        cells: &mut [i32],
        memory: &mut [u8],
        slots: usize,
        slot_bytes: usize,
    ) -> Outcome<()>
        ensures opens { open_gives (opened_as result.result result.state) cells.new memory.new ≡ open_of cells.old memory.old slots slot_bytes }
        ensures third_demand { ThirdDemand }
    {
        let mut state = State::empty(0, 0, 0, SlotList::LEAST_BYTES as u16);
        let result = state.open_in(cells, memory, slots, slot_bytes);
        Outcome { result, state }
    }

    // The same, in place: nothing is left of the state that was there.
    pub fn open_in(
        &mut self,
        cells: &mut [i32],
        memory: &mut [u8],
        slots: usize,
        slot_bytes: usize,
    ) -> Result<(), Refusal>
        ensures { open_gives (opened_as result self.new) cells.new memory.new ≡ open_of cells.old memory.old slots slot_bytes }
    {
        let count = cells.len();
        let size = memory.len();
        if !sound::sizes_fit(count, size, slots, slot_bytes) {
            self.reset(0, 0, 0, SlotList::LEAST_BYTES as u16);
            return Err(Refusal::Opening);
        }
        cells.fill(0);
        memory.fill(0);
        self.reset(count as u32, size as u32, slots as u8, slot_bytes as u16);
        Ok(())
    }

    // ---- add

    // Adds the table, query or update that the text says. The memories are lent to be measured.
    pub fn add(mut self, cells: &[i32], memory: &[u8], text: &[u8]) -> Outcome<Added>
        ensures { added_as result.result result.state ≡ add_of self (lengths_lent cells.now memory.now) text.now }
    {
        let result = self.add_in(cells, memory, text);
        Outcome {
            result,
            state: self,
        }
    }

    // The same, in place.
    pub fn add_in(&mut self, cells: &[i32], memory: &[u8], text: &[u8]) -> Result<Added, Refusal>
        ensures { added_as result self.new ≡ add_of self.old (lengths_lent cells.now memory.now) text.now }
    {
        let sound = self.is_sound();
        self.add_text(sound, Lengths::of(cells, memory), text)
    }

    fn add_text(&mut self, sound: bool, lent: Lengths, text: &[u8]) -> Result<Added, Refusal>
        requires { sound ≡ sound_state self.old }
        ensures { added_as result self.new ≡ add_of self.old (lent_in lent) text.now }
    {
        self.check(sound, lent)?;
        let tables = self.used_tables();
        let (queries, updates) = (self.query_count, self.update_count);
        let statement = Statement::compile(text, tables, queries, updates, self.cells)?;
        Ok(self.put(statement))
    }

    // Puts what a text says behind the others of its kind, where there is a place for it; the note goes.
    fn put(&mut self, statement: Statement) -> Added
        requires { has_place (compiled (Ok statement)).kind self.old ≡ true }
        ensures { added_as (Ok result) self.new ≡ added_by self.old (compiled (Ok statement)) }
    {
        self.pending = Pending::none();
        match statement {
            Statement::Table(table) => Added {
                kind: Kind::Table,
                number: put_behind(&mut self.tables, &mut self.table_count, table),
            },
            Statement::Query(query) => Added {
                kind: Kind::Query,
                number: put_behind(&mut self.queries, &mut self.query_count, query),
            },
            Statement::Update(update) => Added {
                kind: Kind::Update,
                number: put_behind(&mut self.updates, &mut self.update_count, update),
            },
        }
    }

    // ---- ask

    // Asks a query with its values: the record stands at the start of `answer`, from the cache or worked out.
    pub fn ask(
        mut self,
        cells: &[i32],
        memory: &mut [u8],
        query: usize,
        values: &[i32],
        answer: &mut [u8],
    ) -> Outcome<Answer>
        ensures { ask_gives (asked_as result.result result.state) memory.new answer.new ≡ ask_of self cells.now memory.old query values.now answer.old }
    {
        let result = self.ask_in(cells, memory, query, values, answer);
        Outcome {
            result,
            state: self,
        }
    }

    // The same, in place.
    pub fn ask_in(
        &mut self,
        cells: &[i32],
        memory: &mut [u8],
        query: usize,
        values: &[i32],
        answer: &mut [u8],
    ) -> Result<Answer, Refusal>
        ensures { ask_gives (asked_as result self.new) memory.new answer.new ≡ ask_of self.old cells.now memory.old query values.now answer.old }
    {
        let sound = self.is_sound();
        self.answer_query(sound, cells, memory, query, values, answer)
    }

    fn answer_query(
        &mut self,
        sound: bool,
        cells: &[i32],
        memory: &mut [u8],
        query: usize,
        values: &[i32],
        answer: &mut [u8],
    ) -> Result<Answer, Refusal>
        requires { sound ≡ sound_state self.old }
        ensures { ask_gives (asked_as result self.new) memory.new answer.new ≡ ask_of self.old cells.now memory.old query values.now answer.old }
    {
        self.check_ask(sound, Lengths::of(cells, memory), query, values.len())?;
        let key = Key::of(query as u8, values);
        let question = Question {
            state: self,
            number: query,
            values,
            key: &key,
        };
        let reply = question.answered(cells, memory, answer);
        self.settle(key, reply.place);
        reply.result
    }

    // Refuses by 2, 10 or 11, the lowest that applies.
    fn check_ask(
        &self,
        sound: bool,
        lent: Lengths,
        query: usize,
        values: usize,
    ) -> Result<(), Refusal>
        requires { sound ≡ sound_state self.now }
        ensures { number_in result ≡ ask_refusal self.now (lent_in lent) query values }
    {
        self.check(sound, lent)?;
        let queries = self.used_queries();
        let q = queries.get(query).ok_or(Refusal::Number)?;
        check_values(q.parameters, values)
    }

    // The order of use is the one after the question, and the key and the length stand in the slot, if there is one.
    fn settle(&mut self, key: Key, place: Place)
        ensures { self.new ≡ settled_state self.old key place }
    {
        self.slots = place.slots;
        if let Some(kept) = place.kept {
            let x = usize::from(kept.slot);
            lists::put(&mut self.keys, x, key);
            lists::put(&mut self.lengths, x, kept.size);
        }
    }

    // ---- update

    // Refuses by 2, 10, 11 or 12, the lowest that applies.
    fn check_update(
        &self,
        sound: bool,
        lent: Lengths,
        update: usize,
        values: usize,
    ) -> Result<(), Refusal>
        requires { sound ≡ sound_state self.now }
        ensures { number_in result ≡ update_refusal self.now (lent_in lent) update values }
    {
        self.check(sound, lent)?;
        self.check_number(update, values)
    }

    // Refuses by 10, 11 or 12, the lowest that applies.
    fn check_number(&self, update: usize, values: usize) -> Result<(), Refusal>
        requires { (sound_counts self.now ≡ true) × (sound_tables self.now ≡ true) }
        ensures { number_in result ≡ would_refuse self.now update values }
    {
        let updates = self.used_updates();
        let u = updates.get(update).ok_or(Refusal::Number)?;
        check_values(u.parameters, values)?;
        let table = &self.tables[usize::from(u.table)];
        let is_full = (u.form == Update::INSERT) & (!table.ring & table.is_full());
        if is_full {
            return Err(Refusal::Full);
        }
        Ok(())
    }

    // Makes the update of this number with its values, and invalidates the cached answers that it matches; the note goes.
    fn make(&mut self, update: usize, cells: &mut [i32], values: &[i32]) -> Changed
        requires { Takes self.old (length cells.old) update }
        ensures { update_gives (updated_as (Ok result) self.new) cells.new ≡ update_done self.old cells.old (update_at self.old update) values.now }
    {
        let u = self.updates[update];
        let i = usize::from(u.table);
        let mut t = self.tables[i];
        let start = sound::areas(&self.tables[..i]);
        let gone = matching::dropped_by(self, &u, &t, start, cells, values);
        let done = table::change(u, t, start, cells, values);
        let slots = self.slots.drop(&gone);
        let invalidated = self.slots.held - slots.held;
        t.rows = done.rows;
        t.oldest = done.oldest;
        self.tables[i] = t;
        self.slots = slots;
        self.pending = Pending::none();
        Changed {
            rows: done.count,
            invalidated,
        }
    }

    // Makes an update with its values, and invalidates the cached answers that it matches. The cache memory is lent to be measured.
    pub fn update(
        mut self,
        cells: &mut [i32],
        memory: &[u8],
        update: usize,
        values: &[i32],
    ) -> Outcome<Changed>
        ensures { update_gives (updated_as result.result result.state) cells.new ≡ update_of self cells.old memory.now update values.now }
    {
        let result = self.update_in(cells, memory, update, values);
        Outcome {
            result,
            state: self,
        }
    }

    // The same, in place.
    pub fn update_in(
        &mut self,
        cells: &mut [i32],
        memory: &[u8],
        update: usize,
        values: &[i32],
    ) -> Result<Changed, Refusal>
        ensures { update_gives (updated_as result self.new) cells.new ≡ update_of self.old cells.old memory.now update values.now }
    {
        let sound = self.is_sound();
        self.make_update(sound, cells, memory, update, values)
    }

    fn make_update(
        &mut self,
        sound: bool,
        cells: &mut [i32],
        memory: &[u8],
        update: usize,
        values: &[i32],
    ) -> Result<Changed, Refusal>
        requires { sound ≡ sound_state self.old }
        ensures { update_gives (updated_as result self.new) cells.new ≡ update_of self.old cells.old memory.now update values.now }
    {
        self.check_update(sound, Lengths::of(cells, memory), update, values.len())?;
        Ok(self.make(update, cells, values))
    }

    // ---- propose, commit, withdraw

    // How many rows the update of this number with its values would insert, match or delete.
    fn count_rows(&self, update: usize, cells: &[i32], values: &[i32]) -> u16
        requires { (sound_state self.now ≡ true) × (update < self.now.update_count) }
        ensures { result ≡ (would_do self.now cells.now update values.now).rows }
    {
        let u = self.updates[update];
        let i = usize::from(u.table);
        let start = sound::areas(&self.tables[..i]);
        table::count_change(u, self.tables[i], start, cells, values)
    }

    // Proposes an update with its values: says how many rows it would insert, match or delete, and notes it. The cache memory is lent to be measured.
    pub fn propose(
        mut self,
        cells: &[i32],
        memory: &[u8],
        update: usize,
        values: &[i32],
    ) -> Outcome<Proposed>
        ensures { proposed_as result.result result.state ≡ propose_of self cells.now memory.now update values.now }
    {
        let result = self.propose_in(cells, memory, update, values);
        Outcome {
            result,
            state: self,
        }
    }

    // The same, in place.
    pub fn propose_in(
        &mut self,
        cells: &[i32],
        memory: &[u8],
        update: usize,
        values: &[i32],
    ) -> Result<Proposed, Refusal>
        ensures { proposed_as result self.new ≡ propose_of self.old cells.now memory.now update values.now }
    {
        let sound = self.is_sound();
        self.note_update(sound, cells, memory, update, values)
    }

    fn note_update(
        &mut self,
        sound: bool,
        cells: &[i32],
        memory: &[u8],
        update: usize,
        values: &[i32],
    ) -> Result<Proposed, Refusal>
        requires { sound ≡ sound_state self.old }
        ensures { proposed_as result self.new ≡ propose_of self.old cells.now memory.now update values.now }
    {
        let taken = self.check_update(sound, Lengths::of(cells, memory), update, values.len());
        match taken {
            Err(refusal) => Err(refusal),
            Ok(()) => {
                let rows = self.count_rows(update, cells, values);
                self.pending = Pending::of(Note::of(update as u8, values));
                Ok(Proposed { rows })
            }
        }
    }

    // The note, refused by 2 or 17.
    fn check_note(&self, sound: bool, lent: Lengths) -> Result<Note, Refusal>
        requires { sound ≡ sound_state self.now }
        ensures { NotesOr self.now (lent_in lent) result }
    {
        self.check(sound, lent)?;
        self.pending.note().ok_or(Refusal::Note)
    }

    // Makes the update that is proposed. The cache memory is lent to be measured.
    pub fn commit(mut self, cells: &mut [i32], memory: &[u8]) -> Outcome<Changed>
        ensures { update_gives (updated_as result.result result.state) cells.new ≡ commit_of self cells.old memory.now }
    {
        let result = self.commit_in(cells, memory);
        Outcome {
            result,
            state: self,
        }
    }

    // The same, in place.
    pub fn commit_in(&mut self, cells: &mut [i32], memory: &[u8]) -> Result<Changed, Refusal>
        ensures { update_gives (updated_as result self.new) cells.new ≡ commit_of self.old cells.old memory.now }
    {
        let sound = self.is_sound();
        self.make_noted(sound, cells, memory)
    }

    fn make_noted(
        &mut self,
        sound: bool,
        cells: &mut [i32],
        memory: &[u8],
    ) -> Result<Changed, Refusal>
        requires { sound ≡ sound_state self.old }
        ensures { update_gives (updated_as result self.new) cells.new ≡ commit_of self.old cells.old memory.now }
    {
        match self.check_note(sound, Lengths::of(cells, memory)) {
            Err(refusal) => Err(refusal),
            Ok(note) => Ok(self.make(usize::from(note.update), cells, note.used())),
        }
    }

    // Takes the note away. The memories are lent to be measured.
    pub fn withdraw(mut self, cells: &[i32], memory: &[u8]) -> Outcome<()>
        ensures { flushed_as result.result result.state ≡ withdraw_of self (lengths_lent cells.now memory.now) }
    {
        let result = self.withdraw_in(cells, memory);
        Outcome {
            result,
            state: self,
        }
    }

    // The same, in place.
    pub fn withdraw_in(&mut self, cells: &[i32], memory: &[u8]) -> Result<(), Refusal>
        ensures { flushed_as result self.new ≡ withdraw_of self.old (lengths_lent cells.now memory.now) }
    {
        let sound = self.is_sound();
        self.take_note(sound, Lengths::of(cells, memory))
    }

    fn take_note(&mut self, sound: bool, lent: Lengths) -> Result<(), Refusal>
        requires { sound ≡ sound_state self.old }
        ensures { flushed_as result self.new ≡ withdraw_of self.old (lent_in lent) }
    {
        let result = self.check_note(sound, lent).map(|_| ());
        if result.is_ok() {
            self.pending = Pending::none();
        }
        result
    }

    // ---- flush

    // Drops every cached answer: all slots are free, in the order that they had. The memories are lent to be measured.
    pub fn flush(mut self, cells: &[i32], memory: &[u8]) -> Outcome<()>
        ensures { flushed_as result.result result.state ≡ flush_of self (lengths_lent cells.now memory.now) }
    {
        let result = self.flush_in(cells, memory);
        Outcome {
            result,
            state: self,
        }
    }

    // The same, in place.
    pub fn flush_in(&mut self, cells: &[i32], memory: &[u8]) -> Result<(), Refusal>
        ensures { flushed_as result self.new ≡ flush_of self.old (lengths_lent cells.now memory.now) }
    {
        let sound = self.is_sound();
        self.clear(sound, Lengths::of(cells, memory))
    }

    fn clear(&mut self, sound: bool, lent: Lengths) -> Result<(), Refusal>
        requires { sound ≡ sound_state self.old }
        ensures { flushed_as result self.new ≡ flush_of self.old (lent_in lent) }
    {
        let result = self.check(sound, lent);
        if result.is_ok() {
            self.slots = self.slots.clear();
            self.pending = Pending::none();
        }
        result
    }
}

impl Pending {
    // No update: all numbers are 0, so that nothing is left of one that was proposed before.
    pub fn none() -> Pending
        ensures { result ≡ pending_of None }
    {
        Pending {
            there: 0,
            note: Note {
                update: 0,
                count: 0,
                values: [0; Key::VALUES],
            },
        }
    }

    // This update.
    pub fn of(note: Note) -> Pending
        ensures { result ≡ pending_of (Some note) }
    {
        Pending { there: 1, note }
    }

    // The update, if there is one.
    pub fn note(&self) -> Option<Note>
        ensures { result ≡ note_if self.now.there self.now.note }
    {
        if self.there == 0 {
            return None;
        }
        Some(self.note)
    }
}

impl Note {
    // The note of an update with its first eight values.
    fn of(update: u8, values: &[i32]) -> Note
        ensures { result ≡ note_of update values.now }
    {
        let key = Key::of(update, values);
        let values = key.values;
        Note {
            update,
            count: key.count,
            values,
        }
    }

    // The values in use.
    fn used(&self) -> &[i32]
        ensures { result.now ≡ (note_read self.now).values }
    {
        lists::in_use(&self.values, usize::from(self.count))
    }
}

impl Question<'_> {
    // Its answer, from the cache or worked out.
    fn answered(&self, cells: &[i32], memory: &mut [u8], answer: &mut [u8]) -> Reply
        requires { length memory.old ≡ self.now.state.now.memory }
        ensures { ask_gives (outcome_of self.now.state.now self.now.key.now (told result)) memory.new answer.new ≡ ask_found (find_of self.now.state.now.keys self.now.state.now.slots self.now.key.now) self.now.state.now cells.now memory.old answer.old self.now.number self.now.values.now }
    {
        match slots::find(&self.state.keys, &self.state.slots, self.key) {
            Some(p) => self.cached(memory, answer, p),
            None => self.worked_out(cells, memory, answer),
        }
    }

    // The answer in the slot at place p of the order, which moves to the front.
    fn cached(&self, memory: &[u8], answer: &mut [u8], p: u8) -> Reply
        requires { (p < self.now.state.now.slots.held) × (length memory.now ≡ self.now.state.now.memory) }
        ensures { Caches self.now.state.now memory.now answer.old p (told result) answer.new }
    {
        let s = self.state;
        let x = usize::from(s.slots.order[usize::from(p)]);
        let size = usize::from(s.lengths[x]);
        if answer.len() < size {
            return not_answered(Refusal::Buffer, s.slots);
        }
        let at = x * usize::from(s.slot_bytes);
        let record = &memory[at..at + size];
        answer[..size].copy_from_slice(record);
        Reply {
            result: Ok(Answer {
                source: Source::Cached,
                scanned: 0,
                size,
            }),
            place: nowhere(s.slots.move_to_front(p)),
        }
    }

    // The answer worked out; its record takes the last slot if it fits one.
    fn worked_out(&self, cells: &[i32], memory: &mut [u8], answer: &mut [u8]) -> Reply
        requires { length memory.old ≡ self.now.state.now.memory }
        ensures { ask_gives (outcome_of self.now.state.now self.now.key.now (told result)) memory.new answer.new ≡ ask_new self.now.state.now cells.now memory.old answer.old self.now.number self.now.values.now }
    {
        let s = self.state;
        match self.put_record(cells, answer) {
            Err(refusal) => not_answered(refusal, s.slots),
            Ok(done) => Reply {
                result: Ok(Answer {
                    source: Source::New,
                    scanned: done.scanned,
                    size: done.size,
                }),
                place: keep(s.slots, s.slot_bytes, done.size, answer, memory),
            },
        }
    }

    // Its record over its table, or over its two.
    fn put_record(&self, cells: &[i32], answer: &mut [u8]) -> Result<Selected, Refusal>
        ensures { WorksOut self.now.state.now cells.now self.now.number self.now.values.now answer.old (said result) answer.new }
    {
        let s = self.state;
        let number = self.number;
        let q = s.queries[number];
        // Casts: with `From` the proof, which then carries an equation for each place, did not close.
        let i = q.table as usize;
        let t = s.tables[i];
        let start = sound::areas(&s.tables[..i]);
        let Some(second) = q.second_table() else {
            return table::select(q, t, start, cells, self.values, answer);
        };
        let j = second as usize;
        let u = s.tables[j];
        let beside = sound::areas(&s.tables[..j]);
        table::select_pair(q, t, start, u, beside, cells, self.values, answer)
    }
}

// All claims of specs/Demand hold. A theorem is proved only where a contract names it: this function is there to name them, and does nothing. (The third demand, which is of an
// opening and the calls after it, stands in the contract of `State::open` as well.)
pub fn claims_hold()
    ensures { Demands }
{}

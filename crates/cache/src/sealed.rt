// A state that is known to be sound, since only calls change it: none of them tests it, and each gives what the call of `State` gives.
ghost use Rattle.std.specs.Prelude.{◌≡◌, true, length};
ghost use Rattle.cache.specs.SoundTest.{sound_state};
ghost use Rattle.cache.specs.Means.{Typed};
ghost use Rattle.cache.specs.Given.{opened_as, added_as, asked_as, updated_as, flushed_as, proposed_as};
ghost use Rattle.cache.specs.Calls.{lengths_lent};
ghost use Rattle.cache.specs.Gives.{open_gives, open_of, add_of, ask_gives, ask_of, update_gives, update_of, flush_of, propose_of, commit_of, withdraw_of};
ghost use Rattle.cache.specs.Sealed.{sealed_if};

use super::{Added, Answer, Changed, Lengths, Proposed, State};
use std::marker::Model;
use table::Refusal;

// In a clause it is its state.
#[derive(Drop)]
pub struct SealedState {
    state: State,
}

impl Model for SealedState {
    ghost use Rattle.cache.specs.declared.State.{State};

    ghost Value = { State };

    ghost use Rattle.cache.specs.Sealed.{Sealed};

    ghost view = { λ s. s.state };

    ghost invariant = { λ s. Sealed s.state };
}

// What an opening gives.
#[derive(Drop)]
pub struct Opened {
    pub result: Result<(), Refusal>,
    pub state: SealedState,
}

impl SealedState {
    // Opens a store on lent memories, and clears them.
    pub fn open(cells: &mut [i32], memory: &mut [u8], slots: usize, slot_bytes: usize) -> Opened
        ensures { open_gives (opened_as result.result result.state) cells.new memory.new ≡ open_of cells.old memory.old slots slot_bytes }
    {
        let opened = State::open(cells, memory, slots, slot_bytes);
        Opened {
            result: opened.result,
            state: SealedState {
                state: opened.state,
            },
        }
    }

    // The same, in place: nothing is left of the store that was there.
    pub fn open_in(
        &mut self,
        cells: &mut [i32],
        memory: &mut [u8],
        slots: usize,
        slot_bytes: usize,
    ) -> Result<(), Refusal>
        ensures { open_gives (opened_as result self.new) cells.new memory.new ≡ open_of cells.old memory.old slots slot_bytes }
    {
        self.state.open_in(cells, memory, slots, slot_bytes)
    }

    // A state, if it is sound.
    pub fn of(state: State) -> Option<SealedState>
        ensures { result ≡ sealed_if (sound_state state) state }
    {
        if !state.is_sound() {
            return None;
        }
        Some(SealedState { state })
    }

    // The state, which is sound, its arrays as long as their types say and its numbers of 32 bits.
    pub fn state(&self) -> &State
        ensures state { result.now ≡ self.now }
        ensures sound { sound_state self.now ≡ true }
        ensures typed { Typed self.now }
    {
        &self.state
    }

    // As `State::ask`.
    pub fn ask(
        &mut self,
        cells: &[i32],
        memory: &mut [u8],
        query: usize,
        values: &[i32],
        answer: &mut [u8],
    ) -> Result<Answer, Refusal>
        ensures { ask_gives (asked_as result self.new) memory.new answer.new ≡ ask_of self.old cells.now memory.old query values.now answer.old }
    {
        self.state
            .answer_query(true, cells, memory, query, values, answer)
    }

    // As `State::update`.
    pub fn update(
        &mut self,
        cells: &mut [i32],
        memory: &[u8],
        update: usize,
        values: &[i32],
    ) -> Result<Changed, Refusal>
        ensures { update_gives (updated_as result self.new) cells.new ≡ update_of self.old cells.old memory.now update values.now }
    {
        self.state.make_update(true, cells, memory, update, values)
    }

    // As `State::add`.
    pub fn add(&mut self, cells: &[i32], memory: &[u8], text: &[u8]) -> Result<Added, Refusal>
        ensures { added_as result self.new ≡ add_of self.old (lengths_lent cells.now memory.now) text.now }
    {
        self.state.add_text(true, Lengths::of(cells, memory), text)
    }

    // As `State::propose`.
    pub fn propose(
        &mut self,
        cells: &[i32],
        memory: &[u8],
        update: usize,
        values: &[i32],
    ) -> Result<Proposed, Refusal>
        ensures { proposed_as result self.new ≡ propose_of self.old cells.now memory.now update values.now }
    {
        self.state.note_update(true, cells, memory, update, values)
    }

    // As `State::commit`.
    pub fn commit(&mut self, cells: &mut [i32], memory: &[u8]) -> Result<Changed, Refusal>
        ensures { update_gives (updated_as result self.new) cells.new ≡ commit_of self.old cells.old memory.now }
    {
        self.state.make_noted(true, cells, memory)
    }

    // As `State::withdraw`.
    pub fn withdraw(&mut self, cells: &[i32], memory: &[u8]) -> Result<(), Refusal>
        ensures { flushed_as result self.new ≡ withdraw_of self.old (lengths_lent cells.now memory.now) }
    {
        self.state.take_note(true, Lengths::of(cells, memory))
    }

    // As `State::flush`.
    pub fn flush(&mut self, cells: &[i32], memory: &[u8]) -> Result<(), Refusal>
        ensures { flushed_as result self.new ≡ flush_of self.old (lengths_lent cells.now memory.now) }
    {
        self.state.clear(true, Lengths::of(cells, memory))
    }
}

// The three ways to call the store: by value, in place, and in place on a state that is known to be sound.
use cache::{Added, Answer, Changed, Outcome, Proposed, SealedState, State};
use slots::SlotList;
use std::alloc::AllocError;
use table::Refusal;

// A state, and the calls on it, made in one of the ways.
pub trait Calls: Drop {
    // Without cells, cache memory or slots.
    fn closed() -> Self;

    // A copy of the state; and back to it.
    fn kept(&self) -> Result<State, AllocError>;

    fn restore(&mut self, state: State);

    fn is_sound(&self) -> bool;

    fn open(&mut self, cells: &mut [i32], memory: &mut [u8], slots: usize) -> Result<(), Refusal>;

    fn add(&mut self, cells: &[i32], memory: &[u8], text: &[u8]) -> Result<Added, Refusal>;

    fn ask(
        &mut self,
        cells: &[i32],
        memory: &mut [u8],
        n: usize,
        values: &[i32],
        answer: &mut [u8],
    ) -> Result<Answer, Refusal>;

    fn update(
        &mut self,
        cells: &mut [i32],
        memory: &[u8],
        n: usize,
        values: &[i32],
    ) -> Result<Changed, Refusal>;

    fn propose(
        &mut self,
        cells: &[i32],
        memory: &[u8],
        n: usize,
        values: &[i32],
    ) -> Result<Proposed, Refusal>;

    fn commit(&mut self, cells: &mut [i32], memory: &[u8]) -> Result<Changed, Refusal>;

    fn withdraw(&mut self, cells: &[i32], memory: &[u8]) -> Result<(), Refusal>;

    fn flush(&mut self, cells: &[i32], memory: &[u8]) -> Result<(), Refusal>;
}

// By value: each call is handed a copy of the state, and what it gives back is put in its place. (To take the state out and put it in again would be one copy more.)
#[derive(Drop)]
pub struct ByValue {
    state: State,
}

impl ByValue {
    fn put<T>(&mut self, outcome: Outcome<T>) -> Result<T, Refusal> {
        self.state = outcome.state;
        outcome.result
    }
}

impl Calls for ByValue {
    fn closed() -> Self {
        let opened = State::open(&mut [], &mut [], 0, SlotList::LEAST_BYTES);
        ByValue {
            state: opened.state,
        }
    }

    fn kept(&self) -> Result<State, AllocError> {
        self.state.clone()
    }

    fn restore(&mut self, state: State) {
        self.state = state;
    }

    fn is_sound(&self) -> bool {
        self.state.is_sound()
    }

    fn open(&mut self, cells: &mut [i32], memory: &mut [u8], slots: usize) -> Result<(), Refusal> {
        self.put(State::open(cells, memory, slots, SlotList::MOST_BYTES))
    }

    fn add(&mut self, cells: &[i32], memory: &[u8], text: &[u8]) -> Result<Added, Refusal> {
        match self.state.clone() {
            Ok(state) => self.put(state.add(cells, memory, text)),
            Err(_) => Err(Refusal::State),
        }
    }

    fn ask(
        &mut self,
        cells: &[i32],
        memory: &mut [u8],
        n: usize,
        values: &[i32],
        answer: &mut [u8],
    ) -> Result<Answer, Refusal> {
        match self.state.clone() {
            Ok(state) => self.put(state.ask(cells, memory, n, values, answer)),
            Err(_) => Err(Refusal::State),
        }
    }

    fn update(
        &mut self,
        cells: &mut [i32],
        memory: &[u8],
        n: usize,
        values: &[i32],
    ) -> Result<Changed, Refusal> {
        match self.state.clone() {
            Ok(state) => self.put(state.update(cells, memory, n, values)),
            Err(_) => Err(Refusal::State),
        }
    }

    fn propose(
        &mut self,
        cells: &[i32],
        memory: &[u8],
        n: usize,
        values: &[i32],
    ) -> Result<Proposed, Refusal> {
        match self.state.clone() {
            Ok(state) => self.put(state.propose(cells, memory, n, values)),
            Err(_) => Err(Refusal::State),
        }
    }

    fn commit(&mut self, cells: &mut [i32], memory: &[u8]) -> Result<Changed, Refusal> {
        match self.state.clone() {
            Ok(state) => self.put(state.commit(cells, memory)),
            Err(_) => Err(Refusal::State),
        }
    }

    fn withdraw(&mut self, cells: &[i32], memory: &[u8]) -> Result<(), Refusal> {
        match self.state.clone() {
            Ok(state) => self.put(state.withdraw(cells, memory)),
            Err(_) => Err(Refusal::State),
        }
    }

    fn flush(&mut self, cells: &[i32], memory: &[u8]) -> Result<(), Refusal> {
        match self.state.clone() {
            Ok(state) => self.put(state.flush(cells, memory)),
            Err(_) => Err(Refusal::State),
        }
    }
}

// In place, each call with the test of the state.
impl Calls for State {
    fn closed() -> Self {
        State::open(&mut [], &mut [], 0, SlotList::LEAST_BYTES).state
    }

    fn kept(&self) -> Result<State, AllocError> {
        self.clone()
    }

    fn restore(&mut self, state: State) {
        *self = state;
    }

    fn is_sound(&self) -> bool {
        State::is_sound(self)
    }

    fn open(&mut self, cells: &mut [i32], memory: &mut [u8], slots: usize) -> Result<(), Refusal> {
        self.open_in(cells, memory, slots, SlotList::MOST_BYTES)
    }

    fn add(&mut self, cells: &[i32], memory: &[u8], text: &[u8]) -> Result<Added, Refusal> {
        self.add_in(cells, memory, text)
    }

    fn ask(
        &mut self,
        cells: &[i32],
        memory: &mut [u8],
        n: usize,
        values: &[i32],
        answer: &mut [u8],
    ) -> Result<Answer, Refusal> {
        self.ask_in(cells, memory, n, values, answer)
    }

    fn update(
        &mut self,
        cells: &mut [i32],
        memory: &[u8],
        n: usize,
        values: &[i32],
    ) -> Result<Changed, Refusal> {
        self.update_in(cells, memory, n, values)
    }

    fn propose(
        &mut self,
        cells: &[i32],
        memory: &[u8],
        n: usize,
        values: &[i32],
    ) -> Result<Proposed, Refusal> {
        self.propose_in(cells, memory, n, values)
    }

    fn commit(&mut self, cells: &mut [i32], memory: &[u8]) -> Result<Changed, Refusal> {
        self.commit_in(cells, memory)
    }

    fn withdraw(&mut self, cells: &[i32], memory: &[u8]) -> Result<(), Refusal> {
        self.withdraw_in(cells, memory)
    }

    fn flush(&mut self, cells: &[i32], memory: &[u8]) -> Result<(), Refusal> {
        self.flush_in(cells, memory)
    }
}

// In place without it.
impl Calls for SealedState {
    fn closed() -> Self {
        SealedState::open(&mut [], &mut [], 0, SlotList::LEAST_BYTES).state
    }

    fn kept(&self) -> Result<State, AllocError> {
        self.state().clone()
    }

    // The state is tested.
    fn restore(&mut self, state: State) {
        if let Some(sealed) = SealedState::of(state) {
            *self = sealed;
        }
    }

    fn is_sound(&self) -> bool {
        self.state().is_sound()
    }

    fn open(&mut self, cells: &mut [i32], memory: &mut [u8], slots: usize) -> Result<(), Refusal> {
        self.open_in(cells, memory, slots, SlotList::MOST_BYTES)
    }

    fn add(&mut self, cells: &[i32], memory: &[u8], text: &[u8]) -> Result<Added, Refusal> {
        SealedState::add(self, cells, memory, text)
    }

    fn ask(
        &mut self,
        cells: &[i32],
        memory: &mut [u8],
        n: usize,
        values: &[i32],
        answer: &mut [u8],
    ) -> Result<Answer, Refusal> {
        SealedState::ask(self, cells, memory, n, values, answer)
    }

    fn update(
        &mut self,
        cells: &mut [i32],
        memory: &[u8],
        n: usize,
        values: &[i32],
    ) -> Result<Changed, Refusal> {
        SealedState::update(self, cells, memory, n, values)
    }

    fn propose(
        &mut self,
        cells: &[i32],
        memory: &[u8],
        n: usize,
        values: &[i32],
    ) -> Result<Proposed, Refusal> {
        SealedState::propose(self, cells, memory, n, values)
    }

    fn commit(&mut self, cells: &mut [i32], memory: &[u8]) -> Result<Changed, Refusal> {
        SealedState::commit(self, cells, memory)
    }

    fn withdraw(&mut self, cells: &[i32], memory: &[u8]) -> Result<(), Refusal> {
        SealedState::withdraw(self, cells, memory)
    }

    fn flush(&mut self, cells: &[i32], memory: &[u8]) -> Result<(), Refusal> {
        SealedState::flush(self, cells, memory)
    }
}

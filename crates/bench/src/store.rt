// The calls of a list, made and counted.
use crate::calls::Calls;
use crate::counters::Counters;
use crate::lines::Call;
use cache::{Changed, State};
use script::TABLE_RECORD;
use std::alloc::{AllocError, Global};
use table::Refusal;

// A store that is called in one way, and what it is lent.
#[derive(Drop)]
pub struct Store<S> {
    pub store: S,
    cells: Vec<i32>,
    memory: Vec<u8>,
    answer: Vec<u8>,
}

impl<S: Calls> Store<S> {
    // A store without cells, cache memory or slots.
    pub fn new(alloc: Global) -> Result<Self, AllocError> {
        Ok(Store {
            store: S::closed(),
            cells: vec![in alloc; 0; State::CELLS]?,
            memory: vec![in alloc; 0; State::MEMORY]?,
            answer: vec![in alloc; 0; TABLE_RECORD]?,
        })
    }

    // So many calls, round the list, each on the state that the last one left.
    pub fn run(&mut self, calls: &[Call], turns: usize, mut counters: Counters) -> Counters {
        for call in calls.iter().cycle().take(turns) {
            self.make(call, &mut counters);
        }
        counters
    }

    // .. each on the state that is there now.
    pub fn keep(&mut self, calls: &[Call], turns: usize) -> Result<Counters, AllocError> {
        let state = self.store.kept()?;
        let mut counters = Counters::default();
        for call in calls.iter().cycle().take(turns) {
            self.store.restore(state.clone()?);
            self.make(call, &mut counters);
        }
        self.store.restore(state);
        Ok(counters)
    }

    // A call.
    fn make(&mut self, call: &Call, counters: &mut Counters) {
        counters.call();
        match call {
            Call::Open(slots) => self.open(*slots, counters),
            Call::Add(text) => self.add(text, counters),
            Call::Ask(n, values) => self.ask(*n, values, counters),
            Call::Update(n, values) => self.update(*n, values, counters),
            Call::Flush => self.flush(counters),
            Call::Propose(n, values) => self.propose(*n, values, counters),
            Call::Commit => self.commit(counters),
            Call::Withdraw => self.withdraw(counters),
            Call::Show(i) => self.show(*i, counters),
            Call::Sound => self.test(counters),
            Call::Nothing => {}
        }
    }

    fn open(&mut self, slots: usize, counters: &mut Counters) {
        let opened = self.store.open(&mut self.cells, &mut self.memory, slots);
        counters.refuse(opened.is_err());
    }

    fn add(&mut self, text: &[u8], counters: &mut Counters) {
        let added = self.store.add(&self.cells, &self.memory, text);
        counters.refuse(added.is_err());
    }

    fn ask(&mut self, n: usize, values: &[i32], counters: &mut Counters) {
        let (memory, answer) = (&mut self.memory, &mut self.answer);
        let asked = self.store.ask(&self.cells, memory, n, values, answer);
        counters.refuse(asked.is_err());
        if let Ok(answer) = asked {
            counters.ask(answer);
            counters.check(self.answer.get(..answer.size).unwrap_or(&[]));
        }
    }

    fn update(&mut self, n: usize, values: &[i32], counters: &mut Counters) {
        let updated = self.store.update(&mut self.cells, &self.memory, n, values);
        count_change(updated, counters);
    }

    fn flush(&mut self, counters: &mut Counters) {
        let flushed = self.store.flush(&self.cells, &self.memory);
        counters.refuse(flushed.is_err());
    }

    fn propose(&mut self, n: usize, values: &[i32], counters: &mut Counters) {
        let proposed = self.store.propose(&self.cells, &self.memory, n, values);
        counters.refuse(proposed.is_err());
        if let Ok(proposed) = proposed {
            counters.propose(proposed);
        }
    }

    fn commit(&mut self, counters: &mut Counters) {
        let committed = self.store.commit(&mut self.cells, &self.memory);
        count_change(committed, counters);
    }

    fn withdraw(&mut self, counters: &mut Counters) {
        let withdrawn = self.store.withdraw(&self.cells, &self.memory);
        counters.refuse(withdrawn.is_err());
    }

    // Row i of the last answer.
    fn show(&self, i: usize, counters: &mut Counters) {
        counters.refuse(table::check_row(&self.answer, i).is_err());
        counters.show(table::row(&self.answer, i).len());
    }

    fn test(&self, counters: &mut Counters) {
        counters.refuse(!self.store.is_sound());
    }
}

// What an update or a commit gives.
fn count_change(changed: Result<Changed, Refusal>, counters: &mut Counters) {
    counters.refuse(changed.is_err());
    if let Ok(changed) = changed {
        counters.update(changed);
    }
}

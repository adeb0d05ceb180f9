// The list of calls.
use crate::lines::Call;
use std::alloc::{AllocError, Global};

// The most calls of a list, and the most values.
const CALLS: usize = 16384;

const VALUES: usize = 65536;

// The calls, and how many values they have taken, those of calls that found no place among them.
#[derive(Drop)]
pub struct List {
    calls: Vec<Call>,
    values: usize,
}

impl List {
    pub fn new(alloc: Global) -> Self {
        List {
            calls: Vec::new(alloc),
            values: 0,
        }
    }

    pub fn calls(&self) -> &[Call] {
        self.calls.as_slice()
    }

    // How many values more it may have.
    pub fn room(&self) -> usize {
        VALUES.saturating_sub(self.values)
    }

    // Adds a call with so many values. Where the list has no place for the call, its values are counted all the same.
    pub fn add(&mut self, call: Call, values: usize) -> Result<(), AllocError> {
        self.values = self.values.saturating_add(values);
        if self.calls.len() < CALLS {
            self.calls.push(call)?;
        }
        Ok(())
    }

    pub fn clear(&mut self) {
        self.calls.clear();
        self.values = 0;
    }
}

// A memory, and how much of it is lent.
use std::alloc::{AllocError, Global};

// The first items of a list are lent, as many as `size` says and there are. A size beside the list: what is not lent keeps its items.
#[derive(Drop)]
pub struct Memory<T> {
    items: Vec<T>,
    size: usize,
}

impl<T: Copy> Memory<T> {
    pub fn new(alloc: Global, item: T, n: usize) -> Result<Self, AllocError> {
        Ok(Memory {
            items: vec![in alloc; item; n]?,
            size: 0,
        })
    }

    pub fn lend(&mut self, n: usize) {
        self.size = n;
    }

    pub fn lent(&self) -> &[T] {
        &self.items[..self.size.min(self.items.len())]
    }

    pub fn lent_mut(&mut self) -> &mut [T] {
        let n = self.size.min(self.items.len());
        &mut self.items[..n]
    }
}

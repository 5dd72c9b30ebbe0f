use std::alloc::{AllocError, Global};

/// Guesses the next index of a sequence: the one that last followed the current index. Providers
/// often list the same facts in the same order, so most guesses are right from the second report on.
#[derive(Drop)]
pub(crate) struct Successors {
    /// For each index, the one that last followed it; 0 if none did.
    after: Vec<usize>,
    last: usize,
}

impl Successors {
    /// Starts a sequence of indices below `count`.
    ///
    /// Errors: out of memory.
    pub(crate) fn new(alloc: Global, count: usize) -> Result<Successors, AllocError> {
        let mut after = Vec::new(alloc);
        after.resize(count, 0)?;
        Ok(Successors { after, last: 0 })
    }

    pub(crate) fn guess(&self) -> usize {
        self.after.get(self.last).copied().unwrap_or_default()
    }

    pub(crate) fn push(&mut self, index: usize) {
        if self.last < self.after.len() {
            self.after[self.last] = index;
        }
        self.last = index;
    }
}

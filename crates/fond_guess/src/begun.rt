//! Searches that ran out of work, and can go on.

use fond_moves::index::copy_words;
use fond_text::fault::NoMemory;
use std::alloc::Global;

/// The state from which a search began that ran out of work, unless something changed since by which it went.
#[derive(Drop)]
pub(crate) struct Begun {
    start: Vec<u64>,
    is_open: bool,
}

impl Begun {
    /// No search, from states of this many words.
    pub(crate) fn new(alloc: Global, width: u32) -> Result<Begun, NoMemory> {
        Ok(Begun {
            start: vec![in alloc; 0; width as usize]?,
            is_open: false,
        })
    }

    /// Whether the search from the state can go on.
    pub(crate) fn is_from(&self, start: &[u64]) -> bool {
        self.is_open && self.start.as_slice() == start
    }

    /// The search from the state can go on.
    pub(crate) fn open(&mut self, start: &[u64]) {
        copy_words(&mut self.start, start);
        self.is_open = true;
    }

    /// No search can go on.
    pub(crate) fn close(&mut self) {
        self.is_open = false;
    }
}

//! A set of states in one vector of words, with a hash table of numbers. A state takes its words and 8 to 16 bytes.

use fond_moves::index::{NONE, fill};
use fond_text::fault::NoMemory;
use std::alloc::Global;

/// The length of the least table.
const LEAST: usize = 256;

/// States of the same width, by numbers in the order in which they were added.
#[derive(Drop)]
pub struct StateSet {
    width: usize,
    words: Vec<u64>,
    table: Vec<u32>,
    count: u32,
}

/// Mixes the bits of a word. It takes two steps: one alone brings the high bits of a word only to the middle.
fn mix(word: u64) -> u64 {
    let product = word.wrapping_mul(0xd6e8_feb8_6659_fd93);
    product ^ (product >> 32)
}

/// A hash of the words.
fn hash_of(words: &[u64]) -> usize {
    let mut hash: u64 = 0x9e37_79b9_7f4a_7c15;
    for word in words {
        hash = mix(hash ^ *word);
    }
    mix(hash) as usize
}

impl StateSet {
    /// The empty set of states of this many words.
    pub fn new(alloc: Global, width: u32) -> Result<StateSet, NoMemory> {
        Ok(StateSet {
            width: width as usize,
            words: Vec::new(alloc),
            table: vec![in alloc; NONE; LEAST]?,
            count: 0,
        })
    }

    /// The number of states.
    pub fn len(&self) -> u32 {
        self.count
    }

    /// Drops all states. Takes time in their number.
    pub fn clear(&mut self) -> Result<(), NoMemory> {
        if self.table.len() / 16 > self.count as usize {
            self.table = vec![in *self.words.allocator(); NONE; LEAST]?;
        } else {
            fill(&mut self.table, NONE);
        }
        self.words.clear();
        self.count = 0;
        Ok(())
    }

    /// Drops all states, and takes those of this many words from now on.
    pub fn reset(&mut self, width: u32) -> Result<(), NoMemory> {
        self.width = width as usize;
        self.clear()
    }

    /// The words of a state.
    pub fn get(&self, number: u32) -> &[u64] {
        let start = (number as usize).saturating_mul(self.width);
        let Some((_, rest)) = self.words.as_slice().split_at_checked(start) else {
            return &[];
        };
        match rest.split_at_checked(self.width) {
            Some((state, _)) => state,
            None => &[],
        }
    }

    /// The slot of a hash in the table, this many slots further.
    fn slot(&self, hash: usize, offset: usize) -> usize {
        hash.wrapping_add(offset) & self.table.len().wrapping_sub(1)
    }

    /// The number at a slot of the table.
    fn number_at(&self, slot: usize) -> u32 {
        if slot < self.table.len() {
            self.table[slot]
        } else {
            NONE
        }
    }

    /// The slot where the state is, or the free one where it belongs.
    fn place(&self, state: &[u64]) -> usize {
        let hash = hash_of(state);
        for offset in 0..self.table.len() {
            let slot = self.slot(hash, offset);
            let number = self.number_at(slot);
            if number == NONE || self.get(number) == state {
                return slot;
            }
        }
        0
    }

    /// The number of a state.
    pub fn find(&self, state: &[u64]) -> Option<u32> {
        let number = self.number_at(self.place(state));
        if number == NONE { None } else { Some(number) }
    }

    /// Enters a state into the table.
    fn enter(&mut self, number: u32) {
        let place = self.place(self.get(number));
        if let Some(slot) = self.table.get_mut(place) {
            *slot = number;
        }
    }

    /// Makes the table twice as long.
    fn grow(&mut self) -> Result<(), NoMemory> {
        let length = self.table.len().saturating_mul(2);
        self.table = vec![in *self.words.allocator(); NONE; length]?;
        for number in 0..self.count {
            self.enter(number);
        }
        Ok(())
    }

    /// Adds a state unless it is there. Returns its number, and whether it is new.
    pub fn add(&mut self, state: &[u64]) -> Result<(u32, bool), NoMemory> {
        if let Some(number) = self.find(state) {
            return Ok((number, false));
        }
        if (self.count as usize).saturating_mul(2) >= self.table.len() {
            self.grow()?;
        }
        let number = self.count;
        if number >= NONE - 1 {
            return Err(NoMemory);
        }
        self.words.extend_from_slice(state)?;
        self.count = number + 1;
        self.enter(number);
        Ok((number, true))
    }
}

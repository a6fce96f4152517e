//! States with a cube around each: a mask of the atoms that are known.

use fond_moves::condition::Mask;
use fond_moves::index::{copy_words, size, word_at};
use fond_moves::part::Part;
use fond_text::fault::NoMemory;
use std::alloc::Global;

/// Nodes, one after the other in two lists of words.
#[derive(Drop)]
pub(crate) struct Nodes {
    width: usize,
    states: Vec<u64>,
    knowns: Vec<u64>,
    count: u32,
}

/// The words of this number, each of which has `width` words.
fn words_of(words: &[u64], width: usize, number: u32) -> &[u64] {
    let start = (number as usize).saturating_mul(width);
    let Some((_, rest)) = words.split_at_checked(start) else {
        return &[];
    };
    match rest.split_at_checked(width) {
        Some((found, _)) => found,
        None => &[],
    }
}

/// Whether the state agrees with another one on the known atoms.
fn agrees(state: &[u64], known: &[u64], other: &[u64]) -> bool {
    for i in 0..state.len().min(known.len()).min(other.len()) {
        if (state[i] ^ other[i]) & known[i] != 0 {
            return false;
        }
    }
    true
}

/// Whether all these atoms are known too.
fn are_known(known: &[u64], care: &[u64]) -> bool {
    for i in 0..known.len().min(care.len()) {
        if known[i] & !care[i] != 0 {
            return false;
        }
    }
    true
}

/// Copies the values of the known atoms of a state. The other atoms become false.
fn copy_known(values: &mut [u64], state: &[u64], known: &[u64]) {
    for i in 0..values.len().min(state.len()).min(known.len()) {
        values[i] = state[i] & known[i];
    }
}

impl Nodes {
    /// No nodes, over states of this many words.
    pub(crate) fn new(alloc: Global, width: u32) -> Nodes {
        Nodes {
            width: width as usize,
            states: Vec::new(alloc),
            knowns: Vec::new(alloc),
            count: 0,
        }
    }

    /// Drops all nodes.
    pub(crate) fn clear(&mut self) {
        self.states.clear();
        self.knowns.clear();
        self.count = 0;
    }

    /// The number of nodes.
    pub(crate) fn len(&self) -> u32 {
        self.count
    }

    /// The state of a node.
    pub(crate) fn state(&self, node: u32) -> &[u64] {
        words_of(&self.states, self.width, node)
    }

    /// The known atoms of a node.
    pub(crate) fn known(&self, node: u32) -> &[u64] {
        words_of(&self.knowns, self.width, node)
    }

    /// Adds a node with these known atoms, and returns its number.
    pub(crate) fn add(&mut self, state: &[u64], known: &[u64]) -> Result<u32, NoMemory> {
        self.states.extend_from_slice(state)?;
        self.knowns.extend_from_slice(known)?;
        let node = self.count;
        self.count = node.saturating_add(1);
        Ok(node)
    }

    /// Makes the partial state the cube of a node.
    pub(crate) fn load(&self, node: u32, part: &mut Part) {
        copy_words(&mut part.care, self.known(node));
        copy_known(&mut part.value, self.state(node), self.known(node));
    }

    /// Makes these the known atoms of a node. Returns whether they were others.
    pub(crate) fn know(&mut self, node: u32, care: &[u64]) -> bool {
        let start = (node as usize).saturating_mul(self.width);
        let mut grew = false;
        for (i, word) in care.iter().enumerate() {
            if let Some(mask) = self.knowns.get_mut(start.saturating_add(i)) {
                grew |= *mask != *word;
                *mask = *word;
            }
        }
        grew
    }

    /// The literals of a node's cube in one word.
    pub(crate) fn mask(&self, node: u32, word: u32) -> Mask {
        let care = word_at(self.known(node), word);
        Mask {
            word,
            care,
            value: word_at(self.state(node), word) & care,
        }
    }

    /// Whether a node's cube holds in the state.
    pub(crate) fn holds(&self, node: u32, state: &[u64]) -> bool {
        agrees(self.state(node), self.known(node), state)
    }

    /// Whether the partial state lies in a node's cube.
    pub(crate) fn covers(&self, node: u32, part: &Part) -> bool {
        are_known(self.known(node), &part.care)
            && agrees(self.state(node), self.known(node), &part.value)
    }

    /// The first node whose cube holds in the state.
    pub(crate) fn first_holding(&self, state: &[u64]) -> Option<u32> {
        for node in 0..self.count {
            if self.holds(node, state) {
                return Some(node);
            }
        }
        None
    }

    /// The first node in whose cube the partial state lies.
    pub(crate) fn first_covering(&self, part: &Part) -> Option<u32> {
        for node in 0..self.count {
            if self.covers(node, part) {
                return Some(node);
            }
        }
        None
    }

    /// Whether the cube of another node has the first one's in it: that one is smaller, or the same and of an earlier node.
    fn is_within(&self, node: u32, other: u32) -> bool {
        if !are_known(self.known(other), self.known(node)) {
            return false;
        }
        if !agrees(self.state(other), self.known(other), self.state(node)) {
            return false;
        }
        other < node || self.known(other) != self.known(node)
    }

    /// Whether some other node makes this one needless.
    pub(crate) fn is_needless(&self, node: u32) -> bool {
        for other in 0..self.count {
            if other != node && self.is_within(node, other) {
                return true;
            }
        }
        false
    }

    /// How many words a state has.
    pub(crate) fn width(&self) -> u32 {
        size(self.width)
    }
}

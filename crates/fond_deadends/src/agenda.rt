//! Which actions are still to be looked at, on the cubes of which nodes.

use fond_moves::index::{put_bit, size};
use fond_text::fault::NoMemory;
use std::alloc::Global;

/// An action on the cube of a node.
#[derive(Clone, Copy, PartialEq, Eq)]
pub(crate) struct Look {
    pub(crate) node: u32,
    pub(crate) act: u32,
}

/// Looks that wait, those of the last node first, and for each node the looks that lean on its cube.
#[derive(Drop)]
pub(crate) struct Agenda {
    /// How many actions there are, and how many words have a bit for each of them.
    acts: u32,
    width: u32,
    /// The waiting actions of each node, as bits.
    waiting: Vec<u64>,
    /// The nodes that may have waiting actions, and for each node whether it is listed.
    nodes: Vec<u32>,
    is_listed: Vec<bool>,
    leaning: Vec<Vec<Look>>,
}

/// The first bit of the words, as a number.
pub(crate) fn first_bit(words: &[u64]) -> Option<u32> {
    for i in 0..words.len() {
        if words[i] != 0 {
            let before = size(i).saturating_mul(64);
            return Some(before.saturating_add(words[i].trailing_zeros()));
        }
    }
    None
}

/// A word with this many of its first bits.
pub(crate) fn low_bits(count: u32) -> u64 {
    if count >= 64 {
        return u64::MAX;
    }
    (1u64 << count).wrapping_sub(1)
}

impl Agenda {
    /// No looks, over this many actions.
    pub(crate) fn new(alloc: Global, acts: u32) -> Agenda {
        Agenda {
            acts,
            width: acts.saturating_add(63) / 64,
            waiting: Vec::new(alloc),
            nodes: Vec::new(alloc),
            is_listed: Vec::new(alloc),
            leaning: Vec::new(alloc),
        }
    }

    /// Drops all looks and nodes.
    pub(crate) fn clear(&mut self) {
        self.waiting.clear();
        self.nodes.clear();
        self.is_listed.clear();
        self.leaning.clear();
    }

    /// Adds the next node, of which all actions wait.
    pub(crate) fn add_node(&mut self) -> Result<(), NoMemory> {
        let node = size(self.is_listed.len());
        for word in 0..self.width {
            let left = self.acts.saturating_sub(word.saturating_mul(64));
            self.waiting.push(low_bits(left))?;
        }
        self.leaning.push(Vec::new(*self.nodes.allocator()))?;
        self.nodes.push(node)?;
        self.is_listed.push(true)?;
        Ok(())
    }

    /// The first bit of a node, among those of all nodes.
    fn place(&self, node: u32) -> usize {
        (node as usize).saturating_mul(self.width as usize)
    }

    /// The waiting actions of a node.
    fn waiting_of(&self, node: u32) -> &[u64] {
        let Some((_, rest)) = self.waiting.as_slice().split_at_checked(self.place(node)) else {
            return &[];
        };
        match rest.split_at_checked(self.width as usize) {
            Some((words, _)) => words,
            None => &[],
        }
    }

    /// Sets whether a look waits.
    fn set(&mut self, look: Look, waits: bool) {
        let start = self.place(look.node);
        if let Some((_, rest)) = self.waiting.as_mut_slice().split_at_mut_checked(start) {
            put_bit(rest, look.act, waits);
        }
    }

    /// A look waits, again or still.
    pub(crate) fn wake(&mut self, look: Look) -> Result<(), NoMemory> {
        self.set(look, true);
        if let Some(is_listed) = self.is_listed.get_mut(look.node as usize) {
            if *is_listed {
                return Ok(());
            }
            *is_listed = true;
            self.nodes.push(look.node)?;
        }
        Ok(())
    }

    /// A look leans on the cube of a node: it waits again once that grows.
    pub(crate) fn lean(&mut self, node: u32, look: Look) -> Result<(), NoMemory> {
        if let Some(looks) = self.leaning.get_mut(node as usize) {
            if looks.last() != Some(&look) {
                looks.push(look)?;
            }
        }
        Ok(())
    }

    /// The looks that lean on the cube of a node, which lean on it no more.
    fn taken(&mut self, node: u32) -> Vec<Look> {
        let mut taken = Vec::new(*self.nodes.allocator());
        if let Some(looks) = self.leaning.get_mut(node as usize) {
            std::mem::swap(&mut taken, looks);
        }
        taken
    }

    /// The cube of a node grew: what leans on it waits again.
    pub(crate) fn wake_leaning(&mut self, node: u32) -> Result<(), NoMemory> {
        let taken = self.taken(node);
        for look in &taken {
            self.wake(*look)?;
        }
        Ok(())
    }

    /// Takes the last node from the list, if none of its actions waits.
    fn unlist(&mut self, node: u32) {
        self.nodes.pop();
        if let Some(is_listed) = self.is_listed.get_mut(node as usize) {
            *is_listed = false;
        }
    }

    /// The next look, which waits no more.
    pub(crate) fn pop(&mut self) -> Option<Look> {
        for _ in 0..u64::MAX {
            let node = *self.nodes.last()?;
            if let Some(act) = first_bit(self.waiting_of(node)) {
                let look = Look { node, act };
                self.set(look, false);
                return Some(look);
            }
            self.unlist(node);
        }
        None
    }
}

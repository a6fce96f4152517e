//! The applicable actions of a state, without a look at all actions: each action is filed under one atom that its
//! precondition needs to be true.

use crate::boxes::boxed;
use crate::condition::{Condition, Mask};
use crate::index::{put_bit, size, word_at};
use crate::lists::empty_lists;
use crate::moves::Moves;
use fond_text::fault::NoMemory;
use std::alloc::Global;

/// The actions by an atom that they need, and those that need none.
#[derive(Drop)]
pub struct ActIndex {
    lists: Vec<Vec<u32>>,
    others: Vec<u32>,
    filed: Vec<u64>,
}

/// The literals that a condition is sure to need.
pub fn sure_masks(condition: &Condition) -> &[Mask] {
    match condition {
        Condition::Literals(masks) => masks.as_slice(),
        Condition::All(parts) => match parts.last() {
            Some(Condition::Literals(masks)) => masks.as_slice(),
            _ => &[],
        },
        Condition::Any(_) => &[],
    }
}

impl ActIndex {
    /// The number of actions that are filed under the atom.
    fn load(&self, atom: u32) -> usize {
        match self.lists.get(atom as usize) {
            Some(list) => list.len(),
            None => usize::MAX,
        }
    }

    /// The better of an atom and those of a mask that are needed to be true: the one with the shortest list.
    fn shortest_of(&self, mask: Mask, best: Option<u32>) -> Option<u32> {
        let mut shortest = best;
        let mut bits = mask.value;
        for _ in 0..64 {
            if bits == 0 {
                return shortest;
            }
            let atom = mask
                .word
                .saturating_mul(64)
                .saturating_add(bits.trailing_zeros());
            bits &= bits.wrapping_sub(1);
            shortest = match shortest {
                Some(other) if self.load(other) <= self.load(atom) => shortest,
                _ => Some(atom),
            };
        }
        shortest
    }

    /// Files an action.
    fn add(&mut self, act: u32, needs: &Condition) -> Result<(), NoMemory> {
        let mut best = None;
        for mask in sure_masks(needs) {
            best = self.shortest_of(*mask, best);
        }
        let Some(atom) = best else {
            self.others.push(act)?;
            return Ok(());
        };
        if let Some(list) = self.lists.get_mut(atom as usize) {
            list.push(act)?;
        }
        put_bit(&mut self.filed, atom, true);
        Ok(())
    }

    /// Files all actions.
    fn add_all(&mut self, moves: &Moves) -> Result<(), NoMemory> {
        for (act, one) in moves.acts.iter().enumerate() {
            self.add(size(act), &one.needs)?;
        }
        Ok(())
    }

    /// An index of all actions.
    pub fn new(alloc: Global, moves: &Moves) -> Result<Box<ActIndex>, NoMemory> {
        let mut index = ActIndex {
            lists: empty_lists(alloc, moves.atoms)?,
            others: Vec::new(alloc),
            filed: vec![in alloc; 0; moves.width as usize]?,
        };
        index.add_all(moves)?;
        boxed(alloc, index)
    }

    /// Adds those of the actions to the list that apply in the state.
    fn select(
        acts: &[u32],
        moves: &Moves,
        state: &[u64],
        out: &mut Vec<u32>,
    ) -> Result<(), NoMemory> {
        for act in acts {
            if moves.applies(*act, state) {
                out.push(*act)?;
            }
        }
        Ok(())
    }

    /// Adds the applicable actions that are filed under true atoms of a word.
    fn collect_word(
        &self,
        moves: &Moves,
        state: &[u64],
        word: u32,
        out: &mut Vec<u32>,
    ) -> Result<(), NoMemory> {
        let mut bits = word_at(state, word) & word_at(&self.filed, word);
        for _ in 0..64 {
            if bits == 0 {
                return Ok(());
            }
            let atom = word
                .saturating_mul(64)
                .saturating_add(bits.trailing_zeros());
            bits &= bits.wrapping_sub(1);
            if let Some(list) = self.lists.get(atom as usize) {
                ActIndex::select(list, moves, state, out)?;
            }
        }
        Ok(())
    }

    /// Makes `out` the list of the actions that apply in the state. Takes time in the width of the state and in the
    /// number of actions that are filed under its true atoms.
    pub fn collect(
        &self,
        moves: &Moves,
        state: &[u64],
        out: &mut Vec<u32>,
    ) -> Result<(), NoMemory> {
        out.clear();
        ActIndex::select(&self.others, moves, state, out)?;
        for word in 0..moves.width {
            self.collect_word(moves, state, word, out)?;
        }
        Ok(())
    }
}

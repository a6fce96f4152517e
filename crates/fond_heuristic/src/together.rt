//! The pairs of atoms that may be true together: those of the initial state, and those that actions lead to from pairs that
//! may be (Haslum and Geffner, *Admissible heuristics for optimal planning*, 2000). The atoms that may be true together
//! with one of them are a row of bits, so an action is followed for all pairs at once. It is followed again only once the row of
//! an atom that it needs has grown.

use fond_moves::applicable::sure_masks;
use fond_moves::boxes::boxed;
use fond_moves::condition::Mask;
use fond_moves::effect::Effect;
use fond_moves::index::{at, clear_words, copy_words, put, put_bit, size, word_at};
use fond_moves::moves::{Move, Moves};
use fond_task::task::Task;
use fond_text::fault::NoMemory;
use std::alloc::Global;

/// The most words of rows that are read. Past it, all atoms count as true together.
const MOST: u64 = 100_000_000;

/// The rows of the atoms.
#[derive(Drop)]
pub struct Together {
    rows: Vec<Vec<u64>>,
    /// The atoms that may be true.
    reached: Vec<u64>,
    /// The atoms that may be true while the precondition of an action holds, and after it.
    before: Vec<u64>,
    after: Vec<u64>,
    adds: Vec<u64>,
    /// The rounds in which the row of each atom last grew, and in which each action was last followed.
    grown: Vec<u32>,
    followed: Vec<u32>,
    now: u32,
    left: u64,
    changed: bool,
}

/// Keeps those bits of the words that the others have too.
fn meet_words(words: &mut [u64], others: &[u64]) {
    for i in 0..words.len().min(others.len()) {
        words[i] &= others[i];
    }
}

/// Rows of words that are 0, this many.
fn empty_rows(alloc: Global, count: u32, width: usize) -> Result<Vec<Vec<u64>>, NoMemory> {
    let mut rows = Vec::new(alloc);
    for _ in 0..count {
        rows.push(vec![in alloc; 0; width]?)?;
    }
    Ok(rows)
}

impl Together {
    /// Nothing is true yet.
    fn empty(alloc: Global, moves: &Moves) -> Result<Together, NoMemory> {
        let width = moves.width as usize;
        let each = (moves.acts.len() as u64).saturating_mul(width as u64);
        let left = if each > MOST / 8 { 0 } else { MOST };
        let rows = if left > 0 { moves.atoms } else { 0 };
        Ok(Together {
            rows: empty_rows(alloc, rows, width)?,
            reached: vec![in alloc; 0; width]?,
            before: vec![in alloc; 0; width]?,
            after: vec![in alloc; 0; width]?,
            adds: vec![in alloc; 0; width]?,
            grown: vec![in alloc; 0; moves.atoms as usize]?,
            followed: vec![in alloc; 0; moves.acts.len()]?,
            now: 1,
            left,
            changed: false,
        })
    }

    /// The word of an atom's row.
    fn word(&self, atom: u32, word: u32) -> u64 {
        match self.rows.get(atom as usize) {
            Some(row) => word_at(row, word),
            None => 0,
        }
    }

    /// Reads a row, or notices that too many were read.
    fn tick(&mut self) {
        self.left = self.left.saturating_sub(self.before.len() as u64);
    }

    /// Keeps those of the atoms before that may be true together with an atom.
    fn keep_with(&mut self, atom: u32) {
        self.tick();
        if let Some(row) = self.rows.get(atom as usize) {
            meet_words(&mut self.before, row);
        }
    }

    /// Keeps those of the atoms before that may be true where the literals of a mask hold.
    fn keep_mask(&mut self, mask: Mask) {
        let mut bits = mask.value;
        for _ in 0..64 {
            if bits == 0 {
                break;
            }
            let bit = bits.trailing_zeros();
            bits &= bits.wrapping_sub(1);
            self.keep_with(mask.word.saturating_mul(64).saturating_add(bit));
        }
        if let Some(word) = self.before.get_mut(mask.word as usize) {
            *word &= !(mask.care & !mask.value);
        }
    }

    /// Makes `before` the atoms that may be true where the precondition holds. Returns whether it may hold.
    fn meet(&mut self, one: &Move) -> bool {
        self.tick();
        copy_words(&mut self.before, &self.reached);
        for mask in sure_masks(&one.needs) {
            self.keep_mask(*mask);
        }
        for mask in sure_masks(&one.needs) {
            if word_at(&self.before, mask.word) & mask.value != mask.value {
                return false;
            }
        }
        true
    }

    /// The two atoms may be true together.
    fn join(&mut self, one: u32, other: u32) {
        if let Some(row) = self.rows.get_mut(one as usize) {
            put_bit(row, other, true);
        }
        if let Some(row) = self.rows.get_mut(other as usize) {
            put_bit(row, one, true);
        }
        put_bit(&mut self.reached, one, true);
        put(&mut self.grown, one, self.now);
        put(&mut self.grown, other, self.now);
        self.changed = true;
    }

    /// An atom may be true together with those after in a word.
    fn join_word(&mut self, atom: u32, word: u32) {
        let mut bits = word_at(&self.after, word) & !self.word(atom, word);
        for _ in 0..64 {
            if bits == 0 {
                return;
            }
            let bit = bits.trailing_zeros();
            bits &= bits.wrapping_sub(1);
            self.join(atom, word.saturating_mul(64).saturating_add(bit));
        }
    }

    /// An atom may be true together with all those after.
    fn join_all(&mut self, atom: u32) {
        self.tick();
        for word in 0..size(self.after.len()) {
            self.join_word(atom, word);
        }
    }

    /// The atoms that are added in a word may be true together with all those after.
    fn join_added(&mut self, word: u32) {
        let mut bits = word_at(&self.adds, word);
        for _ in 0..64 {
            if bits == 0 {
                return;
            }
            let bit = bits.trailing_zeros();
            bits &= bits.wrapping_sub(1);
            self.join_all(word.saturating_mul(64).saturating_add(bit));
        }
    }

    /// Follows an outcome of an action whose precondition may hold.
    fn follow(&mut self, effect: &Effect) {
        clear_words(&mut self.adds);
        copy_words(&mut self.after, &self.before);
        effect.relax(&mut self.adds, &mut self.after);
        for word in 0..size(self.adds.len()) {
            self.join_added(word);
        }
    }

    /// The last round in which the row of an atom grew that the mask needs to be true.
    fn grown_under(&self, mask: Mask) -> u32 {
        let mut last = 0;
        let mut bits = mask.value;
        for _ in 0..64 {
            if bits == 0 {
                return last;
            }
            let bit = bits.trailing_zeros();
            bits &= bits.wrapping_sub(1);
            last = last.max(at(
                &self.grown,
                mask.word.saturating_mul(64).saturating_add(bit),
            ));
        }
        last
    }

    /// Whether more may be true where the action's precondition holds than when it was last followed.
    fn is_due(&self, act: u32, one: &Move) -> bool {
        let mut last = 0;
        let mut positive = 0;
        for mask in sure_masks(&one.needs) {
            last = last.max(self.grown_under(*mask));
            positive |= mask.value;
        }
        positive == 0 || last >= at(&self.followed, act)
    }

    /// Follows all outcomes of an action, if more may be true before it than when it was last followed.
    fn take(&mut self, act: u32, one: &Move) {
        if self.left == 0 || !self.is_due(act, one) {
            return;
        }
        put(&mut self.followed, act, self.now);
        if !self.meet(one) {
            return;
        }
        for effect in one.effects.iter() {
            self.follow(effect);
        }
    }

    /// Follows all actions once. Returns whether more pairs may be true together than before.
    fn round(&mut self, moves: &Moves) -> bool {
        self.changed = false;
        self.now = self.now.saturating_add(1);
        for (act, one) in moves.acts.iter().enumerate() {
            self.take(size(act), one);
        }
        self.changed
    }

    /// The pairs of a task that may be true together.
    pub fn new(alloc: Global, task: &Task, moves: &Moves) -> Result<Box<Together>, NoMemory> {
        let mut together = Together::empty(alloc, moves)?;
        for atom in 0..task.init.len() as u32 {
            let value = task.init.get(atom);
            put_bit(&mut together.after, atom, value);
            put_bit(&mut together.adds, atom, value);
        }
        for word in 0..moves.width {
            together.join_added(word);
        }
        for _ in 0..moves.atoms.saturating_mul(moves.atoms) {
            if together.left == 0 || !together.round(moves) {
                break;
            }
        }
        boxed(alloc, together)
    }

    /// The atoms of a word that are false in each state in which this one is true.
    pub fn excluded(&self, atom: u32, word: u32) -> u64 {
        if self.left == 0 {
            return 0;
        }
        !self.word(atom, word)
    }
}

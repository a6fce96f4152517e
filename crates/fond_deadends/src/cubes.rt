//! Sets of cubes: each is filed under an atom that is true in it, if few others are, or else by its negative literals, so that little is
//! looked at to tell whether one holds in a state.

use crate::negatives::{Negatives, View};
use fond_moves::boxes::boxed;
use fond_moves::condition::{Mask, copy_mentioned};
use fond_moves::index::{NONE, clear_words, link_at, put_bit, size, word_at};
use fond_moves::part::Part;
use fond_text::fault::NoMemory;
use std::alloc::Global;

/// The most cubes with negative literals under one atom: more of them take longer one by one than 64 at once.
const FEW: usize = 8;

/// The literals of a cube.
pub type Masks = Vec<Mask>;

/// Cubes in the order in which they were added.
#[derive(Drop)]
pub struct CubeSet {
    cubes: Vec<Masks>,
    /// By atom: the cubes that are filed under the literal that it is true.
    lists: Vec<Vec<u32>>,
    /// The atoms under which cubes are filed.
    filed: Vec<u64>,
    /// The other cubes.
    others: Negatives,
    /// The cube without literals, if it is there.
    whole: Option<u32>,
}

/// Whether one of the literals is negative.
fn has_negatives(masks: &[Mask]) -> bool {
    for mask in masks {
        if mask.care != mask.value {
            return true;
        }
    }
    false
}

/// The masks of a partial state.
pub fn masks_of(alloc: Global, part: &Part) -> Result<Masks, NoMemory> {
    let mut masks = Vec::new(alloc);
    for word in 0..size(part.care.len()) {
        let mask = Mask {
            word,
            care: word_at(&part.care, word),
            value: word_at(&part.value, word),
        };
        if mask.care != 0 {
            masks.push(mask)?;
        }
    }
    Ok(masks)
}

impl CubeSet {
    /// No cubes, over this many atoms.
    pub fn new(alloc: Global, atoms: u32, width: u32) -> Result<Box<CubeSet>, NoMemory> {
        let mut lists = Vec::new(alloc);
        for _ in 0..atoms {
            lists.push(Vec::new(alloc))?;
        }
        let cubes = CubeSet {
            cubes: Vec::new(alloc),
            lists,
            filed: vec![in alloc; 0; width as usize]?,
            others: Negatives::new(alloc, atoms, width)?,
            whole: None,
        };
        boxed(alloc, cubes)
    }

    /// Drops all cubes.
    pub fn clear(&mut self) {
        self.cubes.clear();
        for list in self.lists.iter_mut() {
            list.clear();
        }
        clear_words(&mut self.filed);
        self.others.clear();
        self.whole = None;
    }

    /// Whether there are no cubes.
    pub fn is_empty(&self) -> bool {
        self.cubes.is_empty()
    }

    /// The cubes that are filed under an atom.
    fn list(&self, atom: u32) -> &[u32] {
        match self.lists.get(atom as usize) {
            Some(list) => list.as_slice(),
            None => &[],
        }
    }

    /// The atom to file a cube under: of this one and those that are true in a mask, the one with the fewest cubes.
    fn best_of(&self, mask: &Mask, best: u32) -> u32 {
        let mut chosen = best;
        let mut bits = mask.value;
        for _ in 0..64 {
            if bits == 0 {
                return chosen;
            }
            let atom = mask
                .word
                .saturating_mul(64)
                .saturating_add(bits.trailing_zeros());
            bits &= bits.wrapping_sub(1);
            if chosen == NONE || self.list(atom).len() < self.list(chosen).len() {
                chosen = atom;
            }
        }
        chosen
    }

    /// Files a cube with these literals, which is to be under the atom: by its negative literals, if it has any and the atom has many
    /// cubes.
    fn file(&mut self, atom: u32, number: u32, masks: &[Mask]) -> Result<(), NoMemory> {
        if let Some(list) = self.lists.get_mut(atom as usize) {
            if list.len() < FEW || !has_negatives(masks) {
                list.push(number)?;
                put_bit(&mut self.filed, atom, true);
                return Ok(());
            }
        }
        self.others.add(number, masks)
    }

    /// Adds a cube.
    pub fn add(&mut self, masks: Masks) -> Result<(), NoMemory> {
        let mut best = NONE;
        for mask in &masks {
            best = self.best_of(mask, best);
        }
        let number = size(self.cubes.len());
        if masks.is_empty() {
            self.whole = Some(number);
        } else {
            self.file(best, number, &masks)?;
        }
        self.cubes.push(masks)?;
        Ok(())
    }

    /// The literals of a cube.
    pub fn masks(&self, cube: u32) -> &[Mask] {
        match self.cubes.get(cube as usize) {
            Some(masks) => masks.as_slice(),
            None => &[],
        }
    }

    /// The first of the cubes of these numbers in which the view lies, if it comes before another one.
    fn first_among(&self, numbers: &[u32], view: View<'_>, before: u32) -> u32 {
        for number in numbers {
            if *number >= before {
                return before;
            }
            if view.lies_in(self.masks(*number)) {
                return *number;
            }
        }
        before
    }

    /// The first of the cubes under true atoms of a word in which the view lies, if it comes before another one.
    fn first_under(&self, view: View<'_>, word: u32, before: u32) -> u32 {
        let mut first = before;
        let mut bits = view.truths(word) & word_at(&self.filed, word);
        for _ in 0..64 {
            if bits == 0 {
                return first;
            }
            let atom = word
                .saturating_mul(64)
                .saturating_add(bits.trailing_zeros());
            bits &= bits.wrapping_sub(1);
            first = self.first_among(self.list(atom), view, first);
        }
        first
    }

    /// The first of the other cubes of a word, of these, in which the view lies, or `NONE`.
    fn first_left(&self, word: u32, cubes: u64, view: View<'_>) -> u32 {
        let mut bits = cubes;
        for _ in 0..64 {
            if bits == 0 {
                return NONE;
            }
            let place = word
                .saturating_mul(64)
                .saturating_add(bits.trailing_zeros());
            bits &= bits.wrapping_sub(1);
            let number = link_at(self.others.cubes(), place);
            if view.lies_in(self.masks(number)) {
                return number;
            }
        }
        NONE
    }

    /// The first of the other cubes in which the view lies, if it comes before another one.
    fn first_of_others(&self, view: View<'_>, before: u32) -> u32 {
        for word in 0..size(self.others.cubes().len().div_ceil(64)) {
            let left = self.others.left(word, view);
            let number = self.first_left(word, left, view);
            if number != NONE {
                return number.min(before);
            }
        }
        before
    }

    /// One of the cubes in which the view lies, or `NONE`. Takes time in the width of the view, in the number of cubes under its true
    /// atoms, and for each 64 of the others, in the number of its atoms that may be true.
    fn some(&self, view: View<'_>) -> u32 {
        if self.is_empty() {
            return NONE;
        }
        if let Some(cube) = self.whole {
            return cube;
        }
        for word in 0..view.width() {
            let cube = self.first_under(view, word, NONE);
            if cube != NONE {
                return cube;
            }
        }
        self.first_of_others(view, NONE)
    }

    /// The number of the first of the cubes in which the view lies, or `NONE`. Takes time as `some` does if there is none.
    fn first_with(&self, view: View<'_>) -> u32 {
        let mut first = self.whole.unwrap_or(NONE);
        for word in 0..view.width() {
            first = self.first_under(view, word, first);
        }
        self.first_of_others(view, first)
    }

    /// The number of the first cube that holds in the state, or `NONE`. Takes time as `holds` does.
    pub fn first(&self, state: &[u64]) -> u32 {
        self.first_with(View::of_state(state))
    }

    /// The number of the first cube in which the partial state lies, or `NONE`. Takes time as `cover` does.
    pub fn first_cover(&self, part: &Part) -> u32 {
        self.first_with(View::of_part(part))
    }

    /// Whether one of the cubes holds in the state. Takes time in the width of the state, in the number of cubes under its true atoms,
    /// and for each 64 of the others, in the number of its true atoms.
    pub fn holds(&self, state: &[u64]) -> bool {
        self.some(View::of_state(state)) != NONE
    }

    /// A cube in which the partial state lies. Takes time as `holds` does, with the atoms that may be true.
    pub fn cover(&self, part: &Part) -> Option<u32> {
        match self.some(View::of_part(part)) {
            NONE => None,
            cube => Some(cube),
        }
    }

    /// Adds the literals of a partial state over the atoms of a cube to `into`.
    pub fn mention(&self, cube: u32, from: &Part, into: &mut Part) {
        if let Some(masks) = self.cubes.get(cube as usize) {
            copy_mentioned(masks, from, into);
        }
    }
}

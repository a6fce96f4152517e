//! Cubes by their negative literals, with a bit for each cube: few atoms are true in most states, and each of these rules out 64 cubes
//! at once.

use fond_moves::condition::Mask;
use fond_moves::index::{at, bit_of, put_bit, raise_bits, size, word_at};
use fond_moves::part::Part;
use fond_text::fault::NoMemory;
use std::alloc::Global;

/// A state, or a partial state: the atoms that are known, or none if all are, the atoms that are true, and the most atoms that are known
/// to be false.
#[derive(Clone, Copy)]
pub(crate) struct View<'a> {
    care: Option<&'a [u64]>,
    value: &'a [u64],
    falses: u32,
}

/// Cubes in the order in which they were added.
#[derive(Drop)]
pub(crate) struct Negatives {
    /// The numbers of the cubes, and the fewest negative literals of one of each 64.
    cubes: Vec<u32>,
    fewest: Vec<u32>,
    /// By atom: the cubes with the literal that it is false, up to the last word that is not 0.
    rows: Vec<Vec<u64>>,
    /// The atoms whose rows are not empty.
    filed: Vec<u64>,
}

/// How many atoms are known to be false.
fn count_false(part: &Part) -> u32 {
    let mut count: u32 = 0;
    for word in 0..size(part.care.len()) {
        let falses = word_at(&part.care, word) & !word_at(&part.value, word);
        count = count.saturating_add(falses.count_ones());
    }
    count
}

/// How many literals are negative.
fn count_negative(masks: &[Mask]) -> u32 {
    let mut count: u32 = 0;
    for mask in masks {
        count = count.saturating_add((mask.care & !mask.value).count_ones());
    }
    count
}

impl<'a> View<'a> {
    /// A state.
    pub(crate) fn of_state(state: &'a [u64]) -> View<'a> {
        View {
            care: None,
            value: state,
            falses: u32::MAX,
        }
    }

    /// A partial state.
    pub(crate) fn of_part(part: &'a Part) -> View<'a> {
        View {
            care: Some(part.care.as_slice()),
            value: part.value.as_slice(),
            falses: count_false(part),
        }
    }

    /// The atoms of a word that are known.
    fn known(&self, word: u32) -> u64 {
        match self.care {
            Some(care) => word_at(care, word),
            None => u64::MAX,
        }
    }

    /// How many words the atoms take.
    pub(crate) fn width(&self) -> u32 {
        size(self.value.len())
    }

    /// The atoms of a word that are true.
    pub(crate) fn truths(&self, word: u32) -> u64 {
        word_at(self.value, word)
    }

    /// Whether the view lies in the cube with these literals.
    pub(crate) fn lies_in(&self, masks: &[Mask]) -> bool {
        for mask in masks {
            if self.known(mask.word) & mask.care != mask.care
                || self.truths(mask.word) & mask.care != mask.value
            {
                return false;
            }
        }
        true
    }
}

impl Negatives {
    /// No cubes, over this many atoms and words of them.
    pub(crate) fn new(alloc: Global, atoms: u32, width: u32) -> Result<Negatives, NoMemory> {
        let mut rows = Vec::new(alloc);
        for _ in 0..atoms {
            rows.push(Vec::new(alloc))?;
        }
        Ok(Negatives {
            cubes: Vec::new(alloc),
            fewest: Vec::new(alloc),
            rows,
            filed: vec![in alloc; 0; width as usize]?,
        })
    }

    /// Drops all cubes.
    pub(crate) fn clear(&mut self) {
        self.cubes.clear();
        self.fewest.clear();
        for row in self.rows.iter_mut() {
            row.clear();
        }
        for word in self.filed.iter_mut() {
            *word = 0;
        }
    }

    /// The cube at a place has the literal that the atom is false.
    fn note(&mut self, atom: u32, place: u32) -> Result<(), NoMemory> {
        let word = place >> 6;
        if let Some(row) = self.rows.get_mut(atom as usize) {
            for _ in size(row.len())..word.saturating_add(1) {
                row.push(0)?;
            }
            raise_bits(row, word, bit_of(place));
            put_bit(&mut self.filed, atom, true);
        }
        Ok(())
    }

    /// The cube at a place has the negative literals of a mask.
    fn note_mask(&mut self, mask: &Mask, place: u32) -> Result<(), NoMemory> {
        let mut bits = mask.care & !mask.value;
        for _ in 0..64 {
            if bits == 0 {
                return Ok(());
            }
            let bit = bits.trailing_zeros();
            bits &= bits.wrapping_sub(1);
            self.note(mask.word.saturating_mul(64).saturating_add(bit), place)?;
        }
        Ok(())
    }

    /// Adds a cube of this number with these literals.
    pub(crate) fn add(&mut self, number: u32, masks: &[Mask]) -> Result<(), NoMemory> {
        let place = size(self.cubes.len());
        self.cubes.push(number)?;
        if place % 64 == 0 {
            self.fewest.push(u32::MAX)?;
        }
        if let Some(fewest) = self.fewest.last_mut() {
            *fewest = (*fewest).min(count_negative(masks));
        }
        for mask in masks {
            self.note_mask(mask, place)?;
        }
        Ok(())
    }

    /// The cubes of a word that some of these atoms of another word rule out.
    fn ruled_out(&self, word: u32, first_atom: u32, atoms: u64) -> u64 {
        let mut out = 0;
        let mut bits = atoms;
        for _ in 0..64 {
            if bits == 0 {
                return out;
            }
            let atom = first_atom.saturating_add(bits.trailing_zeros());
            bits &= bits.wrapping_sub(1);
            if let Some(row) = self.rows.get(atom as usize) {
                out |= word_at(row, word);
            }
        }
        out
    }

    /// The cubes of a word whose negative literals all hold in the view. Takes time in the width of the view and in the number of its
    /// atoms that may be true.
    pub(crate) fn left(&self, word: u32, view: View<'_>) -> u64 {
        if at(&self.fewest, word) > view.falses {
            return 0;
        }
        let before = word.saturating_mul(64);
        let count = size(self.cubes.len()).saturating_sub(before);
        let mut left = if count < 64 {
            bit_of(count).wrapping_sub(1)
        } else {
            u64::MAX
        };
        for i in 0..self.filed.len() {
            let number = size(i);
            let atoms = self.filed[i] & (view.truths(number) | !view.known(number));
            if atoms != 0 {
                left &= !self.ruled_out(word, number.saturating_mul(64), atoms);
            }
            if left == 0 {
                return 0;
            }
        }
        left
    }

    /// The numbers of the cubes.
    pub(crate) fn cubes(&self) -> &[u32] {
        self.cubes.as_slice()
    }
}

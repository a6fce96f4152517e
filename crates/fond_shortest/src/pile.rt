//! Cubes of one far list.

use fond_deadends::cubes::{CubeSet, Masks};
use fond_moves::condition::{Mask, all_hold};
use fond_moves::index::{NONE, size, word_at};
use fond_moves::part::Part;
use fond_text::fault::NoMemory;
use std::alloc::Global;

/// So many cubes are looked at one by one. More are filed by their literals.
const FEW: usize = 16;

/// Cubes in the order in which they were added. The set, if there is one, has copies of them all.
#[derive(Drop)]
pub(crate) struct Pile {
    cubes: Vec<Masks>,
    set: Option<Box<CubeSet>>,
}

/// A copy of a cube.
fn copy_of(alloc: Global, masks: &[Mask]) -> Result<Masks, NoMemory> {
    let mut copy = Vec::new(alloc);
    copy.extend_from_slice(masks)?;
    Ok(copy)
}

/// The number of literals.
fn count_literals(masks: &[Mask]) -> u32 {
    let mut count: u32 = 0;
    for mask in masks {
        count = count.saturating_add(mask.care.count_ones());
    }
    count
}

/// Whether a partial state has all the literals.
fn are_known(masks: &[Mask], part: &Part) -> bool {
    for mask in masks {
        let care = word_at(&part.care, mask.word) & mask.care;
        let value = word_at(&part.value, mask.word) & mask.care;
        if care != mask.care || value != mask.value {
            return false;
        }
    }
    true
}

impl Pile {
    /// No cubes.
    pub(crate) fn new(alloc: Global) -> Pile {
        Pile {
            cubes: Vec::new(alloc),
            set: None,
        }
    }

    /// The number of cubes.
    pub(crate) fn len(&self) -> u32 {
        size(self.cubes.len())
    }

    /// The literals of a cube.
    pub(crate) fn masks(&self, number: u32) -> &[Mask] {
        match self.cubes.get(number as usize) {
            Some(masks) => masks.as_slice(),
            None => &[],
        }
    }

    /// The number of the first cube in which a state lies, or `NONE`.
    pub(crate) fn find(&self, state: &[u64]) -> u32 {
        if let Some(set) = &self.set {
            return set.first(state);
        }
        for (number, masks) in self.cubes.iter().enumerate() {
            if all_hold(masks, state) {
                return size(number);
            }
        }
        NONE
    }

    /// The number of the first cube in which a partial state lies, or `NONE`.
    pub(crate) fn first_cover(&self, part: &Part) -> u32 {
        if let Some(set) = &self.set {
            return set.first_cover(part);
        }
        for (number, masks) in self.cubes.iter().enumerate() {
            if are_known(masks, part) {
                return size(number);
            }
        }
        NONE
    }

    /// Whether a partial state lies in one of the cubes.
    pub(crate) fn covers(&self, part: &Part) -> bool {
        match &self.set {
            Some(set) => set.cover(part).is_some(),
            None => self.first_cover(part) != NONE,
        }
    }

    /// Files all cubes.
    fn file_all(&mut self, alloc: Global, atoms: u32, width: u32) -> Result<(), NoMemory> {
        let mut set = CubeSet::new(alloc, atoms, width)?;
        for masks in &self.cubes {
            set.add(copy_of(alloc, masks)?)?;
        }
        self.set = Some(set);
        Ok(())
    }

    /// Adds a cube over this many atoms and words.
    pub(crate) fn add(
        &mut self,
        alloc: Global,
        atoms: u32,
        width: u32,
        masks: Masks,
    ) -> Result<(), NoMemory> {
        if let Some(set) = &mut self.set {
            set.add(copy_of(alloc, &masks)?)?;
        }
        self.cubes.push(masks)?;
        if self.set.is_none() && self.cubes.len() > FEW {
            self.file_all(alloc, atoms, width)?;
        }
        Ok(())
    }

    /// Adds a copy of the cube of this number, over this many atoms and words, to other cubes.
    pub(crate) fn add_copy(
        &self,
        alloc: Global,
        atoms: u32,
        width: u32,
        number: u32,
        into: &mut Pile,
    ) -> Result<(), NoMemory> {
        into.add(alloc, atoms, width, copy_of(alloc, self.masks(number))?)
    }

    /// Copies of the cubes, over this many atoms and words, by rising numbers of literals.
    pub(crate) fn widest_first(
        &self,
        alloc: Global,
        atoms: u32,
        width: u32,
    ) -> Result<Pile, NoMemory> {
        let mut order = Vec::new(alloc);
        for number in 0..self.len() {
            order.push(number)?;
        }
        order.sort_by_key(|number| count_literals(self.masks(*number)))?;
        let mut sorted = Pile::new(alloc);
        for number in &order {
            self.add_copy(alloc, atoms, width, *number, &mut sorted)?;
        }
        Ok(sorted)
    }
}

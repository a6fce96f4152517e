//! Lists in which the first match counts.

ghost use Rattle.fond_match.specs.Besides.{is_beside};
ghost use Rattle.fond_state.specs.Cubes.{lies_in};
ghost use Rattle.std.specs.Prelude.{◌≡◌, ◌<◌, ◌-◌, ◌^◌, [], ◌∷◌, ◌++◌, length, position, slice_get, Some, true, All, OnOk, OnErr};

use fond_match::index::Index;
use fond_match::query::Beside;
use fond_state::cube::Cube;
use fond_state::has_cube::HasCube;
use fond_state::state::State;
use fond_text::fault::NoMemory;
use std::alloc::Global;
use std::marker::Model;

/// Fewer than 2^32 items, in order, each with a cube. For a state, only the first item whose cube contains it counts. The cubes of
/// all but a few of the items are indexed.
#[derive(Drop)]
pub struct Ordered<T: HasCube + Drop> {
    pub(crate) items: Vec<T>,
    index: Index,
}

impl<T: HasCube + Drop> Model for Ordered<T> {
    ghost use Rattle.std.specs.Prelude.{List, ◌<◌, ◌^◌, length, map};
    ghost use Rattle.fond_match.specs.Blocks.{IsIndexOf};

    ghost Value = { List T };

    ghost view = { λ l. l.items.items };

    ghost invariant = { λ l. (length l.items.items < 2 ^ 32) × IsIndexOf (map T.cube l.items.items) l.index };
}

impl<T: HasCube + Drop> Ordered<T> {
    /// A list of no items. It takes no memory until an item is added.
    pub fn new(alloc: Global) -> Ordered<T>
        ensures { result ≡ [] }
    {
        Ordered {
            items: Vec::new(alloc),
            index: Index::new(alloc),
        }
    }

    /// Adds an item at the end, which is not indexed yet.
    fn append(&mut self, item: T) -> Result<(), NoMemory>
        requires { length self.old < 2 ^ 32 - 1 }
        ensures ok { OnOk result (self.new ≡ self.old ++ item ∷ []) }
        ensures err { OnErr result (self.new ≡ self.old) }
    {
        self.items.push(item)?;
        Ok(())
    }

    /// Adds an item at the end, once the items before it are indexed but for a few. On average over many items, takes time in
    /// the number of atoms times the logarithm of that of the items.
    pub fn push(&mut self, item: T) -> Result<(), NoMemory>
        requires { length self.old < 2 ^ 32 - 1 }
        ensures ok { OnOk result (self.new ≡ self.old ++ item ∷ []) }
        ensures err { OnErr result (self.new ≡ self.old) }
    {
        self.index.grow(self.items.as_slice())?;
        self.append(item)
    }

    /// The number of items.
    pub fn len(&self) -> u32
        ensures { result ≡ length self.now }
    {
        self.items.len() as u32
    }

    /// The item at this index.
    pub fn get(&self, i: u32) -> &T
        requires { i < length self.now }
        ensures { slice_get self.now i ≡ Some result.now }
    {
        &self.items[i as usize]
    }

    /// Whether the cubes of all items are over this many atoms. Takes time in the number of items.
    pub fn are_over(&self, atoms: usize) -> bool
        ensures yes { result ≡ true → All (λ item. length (T.cube item) ≡ atoms) self.now }
        ensures no { All (λ item. length (T.cube item) ≡ atoms) self.now → result ≡ true }
    {
        for item in self.items.as_slice() {
            if item.cube().len() != atoms {
                return false;
            }
        }
        true
    }

    /// The index of the first item whose cube contains the state, if there is one. Takes time in the number of
    /// cubes that share their first literals with the state, times that of the atoms.
    pub fn select(&self, s: &State) -> Option<u32>
        requires { All (λ item. length (T.cube item) ≡ length s.now) self.now }
        ensures { result ≡ position (λ item. lies_in s.now (T.cube item)) self.now }
    {
        self.index.first(self.items.as_slice(), s)
    }

    /// The index of the first item whose cube the given one does not contradict, if there is one. Takes time in the number of
    /// branches of the index whose literals the cube does not oppose, and in that of the atoms for each cube there.
    pub fn first_beside(&self, c: &Cube) -> Option<u32>
        requires { All (λ item. length (T.cube item) ≡ length c.now) self.now }
        ensures { result ≡ position (λ item. is_beside c.now (T.cube item)) self.now }
    {
        self.index.first(self.items.as_slice(), &Beside::new(c))
    }

    /// How much a search for the state may look at in the index.
    pub(crate) fn looks(&self, s: &State) -> usize {
        self.index.looks(s)
    }
}

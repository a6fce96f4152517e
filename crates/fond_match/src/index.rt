//! Indexes of cubes that grow. Such an index is a list of blocks: indexes of consecutive items, each of more items than all
//! blocks after it have together. So there are few blocks, and an item is indexed about as many times as the logarithm of the
//! number of items (Bentley and Saxe, Decomposable searching problems I, 1980).

ghost use Rattle.fond_match.specs.Blocks.{AreBlocksOf, AreHeavy, HasFewBlocks, IsIndexOf, LeavesFew, covered};
ghost use Rattle.std.specs.Prelude.{◌≡◌, ◌<◌, ◌≤◌, ◌+◌, ◌^◌, List, Bool, Option, All, length, map, position, take, OnOk};

use crate::matcher::{Matcher, first_of};
use crate::query::Query;
use fond_state::has_cube::HasCube;
use fond_text::fault::NoMemory;
use std::alloc::Global;

/// A new block is built once this many items are in no block. Fewer are searched one by one.
const FEW: usize = 32;

/// An index of the cubes of some items, or of the first of them, that grows with the items. It copies no cube.
#[derive(Drop)]
pub struct Index {
    blocks: Vec<Matcher>,
    count: u32,
}

/// How many of the first blocks have more items than there are after them, and how many items those blocks have.
fn heavy(blocks: &[Matcher], items: usize) -> (usize, usize)
    requires { covered blocks.now ≤ items }
    ensures few { result.0 ≤ length blocks.now }
    ensures heavy { AreHeavy items (take result.0 blocks.now) }
    ensures count { result.1 ≡ covered (take result.0 blocks.now) }
    ensures within { result.1 ≤ covered blocks.now }
{
    let Some((block, lighter)) = blocks.split_first() else {
        return (0, 0);
    };
    let own = block.count as usize;
    let others = items - own;
    if own <= others {
        return (0, 0);
    }
    let (more, count) = heavy(lighter, others);
    (1 + more, own + count)
}

/// The number of the first item in whose cube the query lies, if there is one. The blocks are of the first items, and the
/// others are gone through one by one.
fn first_in<T: HasCube, Q: Query>(blocks: &[Matcher], items: &[T], query: &Q) -> Option<u32>
    requires few { length items.now < 2 ^ 32 }
    requires of { AreBlocksOf (map T.cube items.now) blocks.now }
    requires over { All (λ item. length (T.cube item) ≡ Q.atoms query.now) items.now }
    ensures { result ≡ position (λ item. Q.lies query.now (T.cube item)) items.now }
{
    let Some((block, others)) = blocks.split_first() else {
        return Some(first_of(items, query)? as u32);
    };
    let (own, rest) = items.split_at(block.count as usize);
    if let Some(number) = block.first_indexed(own, query) {
        return Some(number);
    }
    let number = first_in(others, rest, query)?;
    Some(own.len() as u32 + number)
}

impl Index {
    /// An index of none of some cubes, whatever they are. It takes no memory.
    pub fn new(alloc: Global) -> Index
        ensures { (cubes : List (List (Option Bool))) → IsIndexOf cubes result }
    {
        Index {
            blocks: Vec::new(alloc),
            count: 0,
        }
    }

    /// Keeps the first of the blocks, which have this many items, and builds one block over all other items in place of
    /// the others.
    fn rebuild<T: HasCube>(&mut self, items: &[T], keep: usize, from: usize) -> Result<(), NoMemory>
        requires few { length items.now < 2 ^ 32 }
        requires of { IsIndexOf (map T.cube items.now) self.old }
        requires heavy { AreHeavy (length items.now) (take keep self.old.blocks.items) }
        requires from { from ≡ covered (take keep self.old.blocks.items) }
        requires some { from < length items.now }
        ensures of { IsIndexOf (map T.cube items.now) self.new }
        ensures all { OnOk result (covered self.new.blocks.items ≡ length items.now) }
        ensures cut { OnOk result (length self.new.blocks.items ≤ keep + 1) }
    {
        let alloc = *self.blocks.allocator();
        let block = Matcher::build(alloc, &items[from..])?;
        self.blocks.truncate(keep);
        self.count = from as u32;
        self.blocks.push(block)?;
        self.count = items.len() as u32;
        Ok(())
    }

    /// Indexes the items that are in no block yet, unless they are few. If memory runs out, fewer items may be indexed than
    /// before. A caller that adds items one by one and calls this after each of them has each item indexed about as many times
    /// as the logarithm of the number of items, which takes time in the number of atoms each time.
    pub fn grow<T: HasCube>(&mut self, items: &[T]) -> Result<(), NoMemory>
        requires few { length items.now < 2 ^ 32 }
        requires of { IsIndexOf (map T.cube items.now) self.old }
        ensures of { IsIndexOf (map T.cube items.now) self.new }
        ensures near { OnOk result (LeavesFew (length items.now) self.new) }
        ensures few { HasFewBlocks (length items.now) self.new }
    {
        if items.len().saturating_sub(self.count as usize) < FEW {
            return Ok(());
        }
        let (keep, from) = heavy(self.blocks.as_slice(), items.len());
        self.rebuild(items, keep, from)
    }

    /// The number of the first item in whose cube the query lies, if there is one. The items are those of which the
    /// cubes were indexed, and any more after them. Takes time in the number of branches whose literals the query has,
    /// and in that of the atoms for each of their numbers that is below the best one so far of its block and for each
    /// item that is in no block.
    pub fn first<T: HasCube, Q: Query>(&self, items: &[T], query: &Q) -> Option<u32>
        requires few { length items.now < 2 ^ 32 }
        requires of { IsIndexOf (map T.cube items.now) self.now }
        requires over { All (λ item. length (T.cube item) ≡ Q.atoms query.now) items.now }
        ensures { result ≡ position (λ item. Q.lies query.now (T.cube item)) items.now }
    {
        first_in(self.blocks.as_slice(), items, query)
    }

    /// How much a search for the query may look at in the blocks: branches, and the numbers at those whose literals the query
    /// has. Takes time in this.
    pub fn looks<Q: Query>(&self, query: &Q) -> usize {
        let mut looks: usize = 0;
        for block in &self.blocks {
            looks = looks.saturating_add(block.looks(query));
        }
        looks
    }
}

//! Indexes of cubes.

ghost use Rattle.fond_match.specs.Matchers.{HasAll, Indexes, IsMatcherOf};
ghost use Rattle.std.specs.Prelude.{◌≡◌, ◌<◌, ◌^◌, List, Bool, Option, All, map, length, position, IfOk};
ghost use Rattle.std.specs.List.{range_with_len};

use crate::grow::grow;
use crate::node::Node;
use crate::query::Query;
use fond_state::has_cube::HasCube;
use fond_state::state::State;
use fond_text::fault::NoMemory;
use std::alloc::Global;

/// The greatest number of branches on a path of an index, which bounds the recursion over its nodes.
const DEPTH: u32 = 100;

/// An index of the cubes of some items, or of the first of them. It copies no cube.
#[derive(Drop)]
pub struct Matcher {
    root: Node,
    pub(crate) count: u32,
}

/// The numbers below this one.
fn numbers_below(alloc: Global, count: u32) -> Result<Vec<u32>, NoMemory>
    ensures { IfOk result (λ numbers. numbers.items ≡ range_with_len 0 count) }
{
    let mut numbers = Vec::new(alloc);
    for number in 0..count {
        numbers.push(number)?;
    }
    Ok(numbers)
}

/// The index of the first item in whose cube the query lies. Takes time in their number times that of the atoms.
pub(crate) fn first_of<T: HasCube, Q: Query>(items: &[T], query: &Q) -> Option<usize>
    requires { All (λ item. length (T.cube item) ≡ Q.atoms query.now) items.now }
    ensures { result ≡ position (λ item. Q.lies query.now (T.cube item)) items.now }
{
    for (at, item) in items.iter().enumerate() {
        if query.lies_in(item.cube()) {
            return Some(at);
        }
    }
    None
}

impl Matcher {
    /// An index of none of some cubes, whatever they are. It takes no memory.
    pub fn new(alloc: Global) -> Matcher
        ensures { (cubes : List (List (Option Bool))) → IsMatcherOf cubes result }
    {
        Matcher {
            root: Node {
                literal: None,
                least: 0,
                numbers: Vec::new(alloc),
                branches: Vec::new(alloc),
            },
            count: 0,
        }
    }

    /// An index of the cubes of all these items, to be asked about any states and cubes. Costs what `build_near` does.
    pub fn build<T: HasCube>(alloc: Global, items: &[T]) -> Result<Matcher, NoMemory>
        requires { length items.now < 2 ^ 32 }
        ensures of { IfOk result (IsMatcherOf (map T.cube items.now)) }
        ensures all { IfOk result (HasAll (length items.now)) }
    {
        Matcher::build_near(alloc, items, None)
    }

    /// An index of the cubes of all these items, which answers the soonest about states that differ from the given one in
    /// few atoms. Takes time in the number of items times that of the atoms, and the former once more for each branch on which
    /// they stay together; memory in their number. The tree is built by recursion, at most `DEPTH` branches deep: a node at
    /// that depth keeps its numbers in a list, and a search goes through them one by one.
    pub fn build_near<T: HasCube>(
        alloc: Global,
        items: &[T],
        near: Option<&State>,
    ) -> Result<Matcher, NoMemory>
        requires { length items.now < 2 ^ 32 }
        ensures of { IfOk result (IsMatcherOf (map T.cube items.now)) }
        ensures all { IfOk result (HasAll (length items.now)) }
    {
        let count = items.len() as u32;
        let numbers = numbers_below(alloc, count)?;
        let root = grow(alloc, items, None, numbers, near, 0, 0, DEPTH)?;
        Ok(Matcher { root, count })
    }

    /// The number of the first item in whose cube the query lies, if all items are indexed.
    pub(crate) fn first_indexed<T: HasCube, Q: Query>(&self, items: &[T], query: &Q) -> Option<u32>
        requires all { length items.now ≡ self.now.count }
        requires of { Indexes (map T.cube items.now) self.now }
        requires over { All (λ item. length (T.cube item) ≡ Q.atoms query.now) items.now }
        ensures { result ≡ position (λ item. Q.lies query.now (T.cube item)) items.now }
    {
        let found = self.root.search(items, query, self.count);
        if found < self.count {
            Some(found)
        } else {
            None
        }
    }

    /// The number of the first item in whose cube the query lies, if there is one. The items are those of which the
    /// cubes were indexed, and any more after them. Takes time in the number of branches whose literals the query has,
    /// and in that of the atoms for each of their numbers that is below the best one so far and for each item that is
    /// not indexed.
    pub fn first<T: HasCube, Q: Query>(&self, items: &[T], query: &Q) -> Option<u32>
        requires few { length items.now < 2 ^ 32 }
        requires of { IsMatcherOf (map T.cube items.now) self.now }
        requires over { All (λ item. length (T.cube item) ≡ Q.atoms query.now) items.now }
        ensures { result ≡ position (λ item. Q.lies query.now (T.cube item)) items.now }
    {
        let (indexed, rest) = items.split_at(self.count as usize);
        if let Some(number) = self.first_indexed(indexed, query) {
            return Some(number);
        }
        let number = first_of(rest, query)?;
        Some((indexed.len() + number) as u32)
    }

    /// How much a search for the query may look at: branches, and the numbers at those whose literals the query has. Takes
    /// time in this.
    pub fn looks<Q: Query>(&self, query: &Q) -> usize {
        self.root.looks(query)
    }
}

//! The tree of an index, and its search.

ghost use Rattle.std.specs.Prelude.{◌≡◌, ◌≤◌, All, fold, length, map};
ghost use Rattle.fond_match.specs.Visits.{IsLeast, enters, visits, better};

use crate::query::Query;
use fond_state::has_cube::HasCube;

/// How many numbers a node keeps without sorting them. Few, since a branch costs a search one look at a literal, and a
/// number up to one for each atom.
pub(crate) const FEW: usize = 2;

/// A literal of an atom.
#[derive(Clone, Copy, PartialEq, Eq, PartialOrd, Ord)]
pub(crate) struct Literal {
    pub(crate) atom: u32,
    pub(crate) sign: bool,
}

/// The numbers of some cubes that have a literal, and a branch for each further literal by which others of them are
/// sorted. None of the numbers is below `least`. The root is for all cubes, and has no literal.
#[derive(Drop)]
pub(crate) struct Node {
    pub(crate) literal: Option<Literal>,
    pub(crate) least: u32,
    pub(crate) numbers: Vec<u32>,
    pub(crate) branches: Vec<Node>,
}

/// Whether the query has the literal, if there is one.
fn enters<Q: Query>(query: &Q, literal: Option<Literal>) -> bool
    ensures { result ≡ enters (Q.has query.now) literal }
{
    match literal {
        Some(literal) => query.has(literal.atom, literal.sign),
        None => true,
    }
}

/// The least of the numbers whose item's cube the query lies in, if it is below `best`, else `best`.
fn least<T: HasCube, Q: Query>(numbers: &[u32], items: &[T], query: &Q, best: u32) -> u32
    requires few { best ≤ length items.now }
    requires over { All (λ item. length (T.cube item) ≡ Q.atoms query.now) items.now }
    ensures below { result ≤ best }
    ensures least { result ≡ fold (better (Q.lies query.now) (map T.cube items.now)) best numbers.now }
{
    let mut found = best;
    for number in numbers {
        if *number < found && query.lies_in(items[*number as usize].cube()) {
            found = *number;
        }
    }
    found
}

impl Node {
    /// The least number that the query visits and in whose item's cube it lies, if it is below `best`, else `best`.
    pub(crate) fn search<T: HasCube, Q: Query>(&self, items: &[T], query: &Q, best: u32) -> u32
        requires few { best ≤ length items.now }
        requires over { All (λ item. length (T.cube item) ≡ Q.atoms query.now) items.now }
        ensures below { result ≤ best }
        ensures least { IsLeast (Q.lies query.now) (map T.cube items.now) best (visits (Q.has query.now) self.now) result }
    {
        if self.least >= best {
            return best;
        }
        if !enters(query, self.literal) {
            return best;
        }
        // more numbers are mostly of equal cubes, of which only the least number counts
        if self.numbers.len() > FEW && query.lies_in(items[self.least as usize].cube()) {
            return self.least;
        }
        let mut found = least(&self.numbers, items, query, best);
        for branch in &self.branches {
            found = branch.search(items, query, found);
        }
        found
    }

    /// How many branches and numbers a search for the query looks at, if it passes over none for its numbers.
    pub(crate) fn looks<Q: Query>(&self, query: &Q) -> usize {
        if !enters(query, self.literal) {
            return 1;
        }
        let mut looks = self.numbers.len();
        for branch in &self.branches {
            looks = looks.saturating_add(branch.looks(query));
        }
        looks.saturating_add(1)
    }
}

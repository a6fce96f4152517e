//! What is above a number among numbers with parents, which may form cycles.

ghost use Rattle.fond_kinds.specs.Forests.{IsWhole};
ghost use Rattle.fond_kinds.specs.Parents.{IsBelow, are_within, parent_of};
ghost use Rattle.std.specs.Bool.{Decides};
ghost use Rattle.std.specs.Prelude.{◌≡◌, ◌<◌, ◌^◌, true, length, IfOk, IfSome};

use crate::grower::grown;
use crate::links::{Links, parent_at};
use crate::order::places_of;
use fond_text::fault::NoMemory;
use std::alloc::Global;
use std::marker::Model;

/// Numbers with at most one parent each, with a forest among them. Contracts see the parents.
#[derive(Drop)]
pub(crate) struct Ancestry {
    parents: Vec<Option<u32>>,
    links: Links,
    places: Vec<u32>,
}

impl Model for Ancestry {
    ghost use Rattle.fond_kinds.specs.Forests.{IsWhole};
    ghost use Rattle.std.specs.Prelude.{List, Option, ℕ};

    ghost Value = { List (Option ℕ) };

    ghost view = { λ a. a.parents.items };

    ghost invariant = { λ a. IsWhole a.parents.items a.links };
}

impl Ancestry {
    /// The ancestry of these parents. Takes time and memory in their number.
    pub(crate) fn of(alloc: Global, parents: Vec<Option<u32>>) -> Result<Ancestry, NoMemory>
        requires within { are_within parents.items ≡ true }
        requires few { length parents.items < 2 ^ 32 }
        ensures { IfOk result (λ ancestry. ancestry ≡ parents.items) }
    {
        let links = grown(alloc, &parents)?;
        let places = places_of(alloc, &links, parents.len())?;
        Ok(Ancestry {
            parents,
            links,
            places,
        })
    }

    /// The place of a number in an order in which the numbers below one take consecutive places, from its own on. It is at
    /// least 1, and 0 for no number.
    fn place(&self, number: u32) -> u32 {
        match self.places.get(number as usize) {
            Some(place) => *place,
            None => 0,
        }
    }

    /// The place of a number, and that of the parent that the root of its tree has lost, if it has lost one. What is above the
    /// number is above one of the two in its tree.
    pub(crate) fn places(&self, number: u32) -> (u32, u32)
        requires { number < length self.now }
    {
        match parent_at(&self.parents, self.links.root(number)) {
            Some(lost) => (self.place(number), self.place(lost)),
            None => (self.place(number), 0),
        }
    }

    /// Whether the first number is below the second: it is the second, or its parent is below the second. A cycle is a tree
    /// whose root has lost its parent, so what is above a number is above it in its tree, or above that parent.
    pub(crate) fn is_below(&self, number: u32, above: u32) -> bool
        requires number { number < length self.now }
        requires above { above < length self.now }
        ensures { Decides result (IsBelow self.now number above) }
    {
        if self.links.is_under(number, above) {
            return true;
        }
        match parent_at(&self.parents, self.links.root(number)) {
            None => false,
            Some(lost) => self.links.is_under(lost, above),
        }
    }

    /// The parent of a number, if it has one.
    pub(crate) fn parent(&self, number: u32) -> Option<u32>
        ensures parent { result ≡ parent_of self.now number }
        ensures within { IfSome result (λ parent. parent < length self.now) }
    {
        parent_at(&self.parents, number)
    }
}

//! The open lists of a search, which take turns (Röger and Helmert, *The more, the merrier: combining heuristic estimators for
//! satisficing planning*, 2010). The list that was taken from least often is next; when the search comes nearer to the goal than
//! before, those of preferred steps are next for a while.

use crate::queue::{Agenda, Open};
use fond_text::fault::NoMemory;
use std::alloc::Global;

/// The lists: all steps, and preferred ones, by the estimate of their state; and all steps, and those that help, by what is left.
pub(crate) const ALL: usize = 0;

pub(crate) const PREFERRED: usize = 1;

pub(crate) const LEFT: usize = 2;

pub(crate) const HELPFUL: usize = 3;

/// How many more preferred entries are taken when the search comes nearer to the goal than before.
const BOOST: i64 = 1_000;

/// A list, and how often it was taken from, less its boosts.
#[derive(Drop)]
struct OpenList {
    agenda: Agenda,
    taken: i64,
}

/// The lists, by their numbers.
#[derive(Drop)]
pub(crate) struct OpenLists {
    lists: Vec<OpenList>,
}

impl OpenLists {
    /// Empty lists.
    pub(crate) fn new(alloc: Global) -> Result<OpenLists, NoMemory> {
        let mut lists = Vec::new(alloc);
        for _ in ALL..HELPFUL + 1 {
            lists.push(OpenList {
                agenda: Agenda::new(alloc),
                taken: 0,
            })?;
        }
        Ok(OpenLists { lists })
    }

    /// Drops the entries of the lists from this one on, and forgets how often each list was taken from.
    pub(crate) fn clear(&mut self, from: usize) {
        for number in 0..self.lists.len() {
            if let Some(list) = self.lists.get_mut(number) {
                list.taken = 0;
                if number >= from {
                    list.agenda.clear();
                }
            }
        }
    }

    /// Adds an entry to a list.
    pub(crate) fn push(&mut self, number: usize, level: u32, open: Open) -> Result<(), NoMemory> {
        match self.lists.get_mut(number) {
            Some(list) => list.agenda.push(level, open),
            None => Ok(()),
        }
    }

    /// The lists of preferred steps are next for a while.
    pub(crate) fn boost(&mut self) {
        for number in [PREFERRED, HELPFUL] {
            if let Some(list) = self.lists.get_mut(number) {
                list.taken = list.taken.saturating_sub(BOOST);
            }
        }
    }

    /// The list whose turn it is, among those that have entries.
    fn turn(&self) -> Option<usize> {
        let mut next = None;
        let mut least = i64::MAX;
        for (number, list) in self.lists.iter().enumerate() {
            if !list.agenda.is_empty() && list.taken <= least {
                next = Some(number);
                least = list.taken;
            }
        }
        next
    }

    /// Takes the first entry of the list whose turn it is.
    pub(crate) fn pop(&mut self) -> Option<Open> {
        let number = self.turn()?;
        let list = self.lists.get_mut(number)?;
        list.taken = list.taken.saturating_add(1);
        list.agenda.pop()
    }
}

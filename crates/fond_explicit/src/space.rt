//! The states that were found, and the moves among them.

ghost use Rattle.std.specs.Prelude.{◌≡◌, length, IfOk};

use crate::recent::Recent;
use fond_fixpoint::moves::Moves;
use fond_state::state::State;
use fond_store::store::Store;
use fond_text::fault::NoMemory;
use std::alloc::Global;

/// States by their numbers, the moves between them, and how many states are opened: for each action that is applicable in one
/// of the first so many, there is a move to its next states, which equal actions share.
#[derive(Drop)]
pub(crate) struct Space {
    pub(crate) states: Store,
    pub(crate) moves: Moves,
    pub(crate) opened: u32,
}

/// A state and a list of numbers that opening overwrites, so that it takes no memory for them each time, and the moves that
/// were kept recently.
#[derive(Drop)]
pub(crate) struct Scratch {
    pub(crate) next: State,
    pub(crate) targets: Vec<u32>,
    pub(crate) recent: Recent,
}

impl Scratch {
    /// A state of as many atoms as this one, no numbers and no moves.
    pub(crate) fn new(alloc: Global, state: &State) -> Result<Scratch, NoMemory>
        ensures { IfOk result (λ scratch. length scratch.next ≡ length state.now) }
    {
        Ok(Scratch {
            next: state.copy(alloc)?,
            targets: Vec::new(alloc),
            recent: Recent::new(alloc)?,
        })
    }
}

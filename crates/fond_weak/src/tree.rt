//! The states that a search has found, and how.

ghost use Rattle.fond_state.specs.Cubes.{full_cube};
ghost use Rattle.std.specs.Prelude.{◌≡◌};

use fond_state::cube::Cube;
use fond_state::state::State;
use fond_store::store::Store;
use fond_task::plan_step::PlanStep;

/// How a state was found: by a step from the state of this number.
#[derive(Clone, Copy)]
pub(crate) struct Link {
    pub(crate) from: u32,
    pub(crate) step: PlanStep,
}

/// States, numbered in the order in which they were found, and for each how it was; the first has no link.
#[derive(Drop)]
pub(crate) struct Tree {
    pub(crate) states: Store,
    pub(crate) links: Vec<Option<Link>>,
}

/// A state that is to be opened, with its number and its full cube.
#[derive(Drop)]
pub(crate) struct Node {
    pub(crate) number: u32,
    pub(crate) state: State,
    pub(crate) full: Cube,
    ghost whole: { full ≡ full_cube state },
}

/// A state and a list of actions that opening overwrites, so that it takes no memory for them each time.
#[derive(Drop)]
pub(crate) struct Scratch {
    pub(crate) next: State,
    pub(crate) acts: Vec<u32>,
}

//! Hints.

use crate::plan_step::PlanSteps;
use fond_state::cube::Cube;
use fond_text::list::List;

/// What a search for a plan came to.
#[derive(Drop)]
pub enum Hint {
    /// Steps from the state to a goal, or to a state in which a rule holds.
    Steps(PlanSteps),
    /// Nothing is left to search.
    DeadEnd,
    /// The search reached its limit.
    Spent,
}

/// What a search for layers came to.
#[derive(Drop)]
pub enum LayerHint {
    /// A layer that may be sure above the layers so far.
    Layer(List<Cube>),
    /// The state lies in a layer.
    Found,
    /// There is none, or it takes too long.
    Nothing,
}

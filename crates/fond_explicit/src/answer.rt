//! What is found out about a task.

use fond_layers::layers::Layers;
use fond_state::state::State;
use fond_text::list::List;

/// A choice of an action in a state, with a rank: goals and states of smaller ranks are nearer to the goal.
#[derive(Drop)]
pub struct Pick {
    pub state: State,
    pub act: u32,
    pub rank: u64,
}

/// Choices, at most one in each state.
pub type Choices = List<Pick>;

/// What is found out about a task from a state on: choices that win and layers that do not, or layers that have the state,
/// or that more states are reachable than were to be opened.
#[derive(Drop)]
pub enum Solved {
    Won(Choices, Layers),
    Lost(Layers),
    Spent,
}

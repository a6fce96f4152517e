//! The nodes of a graph of states.

use fond_text::list::List;

/// The numbers of states, one for each outcome of an action.
pub type Nexts = List<u32>;

/// What there is at a state of the graph.
#[derive(Drop)]
pub enum Node {
    /// The state is a goal.
    Goal,
    /// The state is no goal, and no action is chosen in it, or one that is not applicable.
    Stuck,
    /// The state is no goal, the action of this number is chosen in it and applicable, and its outcomes lead to these states.
    Acts { act: u32, nexts: Nexts },
}

//! What a policy reaches in a ground task, as a graph: the reached states with numbers, and for each of them the chosen action
//! and the state to which each of its outcomes leads. Whoever can say what is chosen in a state is a policy here (`Chooser`). What
//! follows from the graph is left to the crates above.
#![tactic(auto)]

pub mod chooser;
pub mod node;
pub mod reached;
mod successors;

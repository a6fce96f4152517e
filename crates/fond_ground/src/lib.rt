//! From a task to its ground task: fluent atoms, kept actions with their outcomes, the initial state and the goal. A task
//! that is too large is refused. That both are the same game is left to the crate above.
#![tactic(auto)]

mod acts;
mod atoms;
mod effects;
mod forms;
pub mod ground;
mod junction;
mod limits;
mod parameters;
mod patterns;
mod table;
mod tuples;

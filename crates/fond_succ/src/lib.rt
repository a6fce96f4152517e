//! The laws between a task and its ground task: both play the same game, have the same solutions, and write the same texts
//! and traces. fond_ast says what a task means, and fond_ground which ground task it has.
//!
//! The crate also has the job of `succ`: which ground action a word names, and the states to which it may lead from the
//! initial state. The answers speak of the task; the states are found in its ground task.
#![tactic(auto)]

pub mod action;
pub mod laws;
pub mod successors;

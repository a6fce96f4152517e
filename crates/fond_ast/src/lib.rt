//! The types of a task between reading and grounding: declarations as they are read, and tasks over numbers; and what tasks
//! mean, over finite sets of ground atoms: which conditions hold in a state, what effects give, which states may come next,
//! and what policies, traps and solutions are.
#![tactic(auto)]

pub mod files;
pub mod form;
pub mod laws;
pub mod names;
pub mod syntax;
pub mod task;

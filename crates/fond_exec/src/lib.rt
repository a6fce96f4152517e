//! Runs a rule list on a task, over recorded outcomes or over outcomes that a chooser picks: reads the script, takes the
//! steps, writes the trace. Each step is the one that the rules and the task determine. Also picks outcomes as an opponent
//! does who looks one step ahead. Who else picks them, and whether the rules are a solution, is left to others.
#![tactic(auto)]

pub mod choice;
pub mod duel;
pub mod executor;
pub mod laws;
mod lines;
pub mod pick;
pub mod script;
pub mod simulator;
pub mod step;
pub mod trace;

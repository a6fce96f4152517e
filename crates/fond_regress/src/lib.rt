//! Short conditions for rules and pairs that hold in a given state. A condition that is found by regression through the
//! outcomes, or the full cube of the state where that is not enough, loses each literal that it does not need, so the
//! rule or pair is lean. Which rules and pairs are tried, and for which states, is left to the crates above.
//!
//! The crate also has the relaxed estimate: whether a state is hopeless, since it lies in a cube that no action leaves and on
//! which the goal is No. Each outcome counts as an action of its own, and a literal that held once stays possible, so the
//! estimate takes no search. A state that is not hopeless may still have no solution.
#![tactic(auto)]

pub mod barred;
pub mod condition;
pub mod estimate;
mod explain;
pub mod laws;
pub mod pair;
mod regress;
mod settle;
mod start;
mod weaken;

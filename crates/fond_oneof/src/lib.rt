//! The outcomes of ground effects. An effect built of literals, conjunctions, choices and conditions has a list of
//! outcomes, each a list of entries; this crate counts and lists them. How effects come from tasks is left to the crates
//! above.
#![tactic(auto)]

mod count;
pub mod effect;
mod form;
mod list;
pub mod outcome;

//! Which ground actions of a schema are kept: those whose precondition is not surely false while the fluent atoms are
//! unknown. They are found by a search that puts in one object after the other, and that tries only the objects that match
//! the static atoms of the precondition.
#![tactic(auto)]

mod barren;
mod candidates;
pub mod facts;
pub mod fixed;
pub mod matching;
mod rows;
mod search;
mod value;
pub mod variables;

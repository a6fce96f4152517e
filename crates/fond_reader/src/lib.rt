//! From trees to declarations: the domain or the problem that a tree without a fault of form is read as, or the side
//! list that a forest is. A tree is first checked against the grammar, and then read by functions that rely on that. The
//! crates above learn what was read, or the first fault. What names mean is left to them.
#![tactic(auto)]

mod action;
mod atom;
mod condition;
pub mod domain;
mod effect;
mod initial;
pub mod laws;
mod node;
pub mod problem;
mod section;
pub mod side;
mod typed;

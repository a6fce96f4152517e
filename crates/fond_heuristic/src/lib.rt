//! The heuristic of the search: the costs of a task's relaxation. The crate promises nothing but to end without a fault: what
//! it computes are hints, and whoever takes one tests it before it is used.
//!
//! `net` is the relaxation of the actions, over `dnf`: each outcome by itself, and no literal is ever lost. `cost` and
//! `relaxed` estimate states by it. `bar` makes the relaxation avoid dead cubes, by the pairs of atoms that are never true
//! together (`together`).
#![tactic(auto)]

pub mod bar;
pub mod cost;
pub mod dnf;
pub mod net;
pub mod relaxed;
pub mod together;

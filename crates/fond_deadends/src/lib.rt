//! Dead ends: partial states from which an opponent, or the lack of a way, keeps the goal out of reach. The crate promises nothing
//! but to end without a fault: what it finds are hints, and whoever takes one tests it before it is used.
//!
//! `dead` finds single cubes that no action leaves, and `layers` and `project` find cubes that no action leaves together:
//! `layers` over atoms of each cube's own, `project` over the same few atoms. `cubes` tells which of many cubes holds in a state,
//! `states` keeps states with numbers, and `facts` is what searches go by.
#![tactic(auto)]

mod agenda;
pub mod cubes;
pub mod dead;
pub mod facts;
mod groups;
pub mod layers;
mod negatives;
mod nodes;
pub mod project;
mod space;
pub mod states;

//! A task as plain vectors: its actions, conditions and effects in words of 64 atoms. The crate promises nothing but to end
//! without a fault: what is computed with it are hints, and whoever takes one tests it before it is used.
//!
//! `index` reads and writes vectors without a proof about indices, `boxes` puts values into boxes, and `lists` makes empty lists.
//! `part` is a partial state, `condition` and `effect` are compared with states and partial states a word at a time, and `moves` has
//! the actions of a task. `applicable` finds those of a state, and `weight` says which literals are good reasons why actions do not
//! apply.
#![tactic(auto)]

pub mod applicable;
pub mod boxes;
pub mod condition;
pub mod effect;
pub mod index;
pub mod lists;
pub mod moves;
pub mod part;
pub mod weight;

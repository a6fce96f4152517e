//! Games of one player against chance and an opponent: what walks, lassos and rankings tell of a policy, as laws over games of any
//! states and actions; and flat games, whose nodes are numbers: their levels, and tours of their edges.
#![tactic(auto)]

mod certified;
pub mod graph;
pub mod hops;
pub mod kept;
pub mod kind;
pub mod laws;
pub mod levels;
mod preds;
mod proposal;
pub mod tour;

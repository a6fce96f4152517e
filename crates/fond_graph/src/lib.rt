//! The graph of the states that rules reach, as one JSON text: a node for each state with its true atoms and its rule, and an edge for
//! each outcome. How it is drawn is left to others.
#![tactic(auto)]

pub mod drawn;
mod edges;
pub mod graph;
mod items;
mod nodes;
mod strings;

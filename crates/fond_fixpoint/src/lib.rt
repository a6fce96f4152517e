//! A nested fixpoint over a graph of nodes and moves, some of which an opponent resolves: which nodes are won, and in which
//! round the others are lost. `settle` returns the fate of each node, proved right over all moves (specs/Fates.antt). It
//! knows no task: the nodes are numbers, and what a node and a move stand for is left to the crates above.
//!
//! The fixpoint is that of Cimatti, Pistore, Roveri and Traverso, Weak, strong, and strong cyclic planning via symbolic model
//! checking, 2003, with moves whose outcome an opponent picks beside fair ones (Geffner and Geffner, Compact policies for
//! fully observable non-deterministic planning as SAT, 2018). Counters guide each search, and what they find is tested, so
//! the proofs rest on the tests alone.
#![tactic(auto)]

mod cascade;
mod earn;
pub mod fate;
pub mod moves;
pub mod preds;
mod rank;
pub mod settle;

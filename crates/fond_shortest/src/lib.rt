//! Finding policies of least rank. All reachable states are opened; then a certificate is proposed, without a promise, and is taken only
//! if the checker of such certificates accepts it. What is promised of an answer is in specs/Bests.antt.
//!
//! `board` has the states from which a policy wins, with their least ranks. `far` makes far lists, a `pile` of cubes each, of which
//! `needed` keeps what a proof needs; `making` makes rules in the order of these ranks, and `ranks` ranks the items that cover what the
//! rules reach. `propose` puts these together, `test` tests them, and `best` is what others call.
#![tactic(auto)]

pub mod answer;
pub mod best;
mod board;
mod far;
mod making;
mod needed;
mod pad;
mod pile;
mod propose;
mod ranks;
mod test;

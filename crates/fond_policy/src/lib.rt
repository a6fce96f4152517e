//! Certificates as values: what a correct and a lean one is, and the walk through the states that a policy reaches. The walk counts
//! these states, and finds one without a rule if there is one; the checker and the planner stand on it.
//!
//! Items are partial states with the way to go on from them. They are tested for being sure and lean, and sure items are widened
//! until they are lean. If the initial state lies in one of some sure items, each state that the rules reach lies in one, so these
//! states need not be visited: the rules of a correct policy with a cover are a solution.
//!
//! Finding items, the text of certificates and the verdicts on them are left to the crates above.
#![tactic(auto)]

mod altered;
pub mod best;
pub mod cert;
pub mod conditions;
pub mod firsts;
pub mod item;
pub mod items;
pub mod laws;
pub mod lean;
pub mod pad;
pub mod sure;
pub mod walk;
pub mod widen;

//! Policies in the making: a draft has layers, rules and pairs, and each rule that is added to it is lean and sure. A state gets its
//! rules from choices that win from it (`make`, in the order of their ranks) or from the steps of a plan, which are replayed (`replay`,
//! `turn`). Only what a draft has is promised; which states get rules, and from where, is left to the crate above. What proposes
//! plans and layers for a draft is a source (`source`).
#![tactic(auto)]

mod append;
mod below;
pub mod draft;
mod learn;
pub mod make;
pub mod order;
pub mod plan;
pub mod replay;
pub mod source;
mod target;
pub mod turn;

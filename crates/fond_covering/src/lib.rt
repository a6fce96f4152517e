//! Covers for policies: items whose cubes have each state that the rules reach, with the way to go on from them. A proposal is
//! made without a visit to each of these states, and is tested before it is taken; if it fails, each reached state has an item
//! of its own. In both cases the items are then widened until they are lean. What is promised of a cover does not rest on how
//! it was proposed.
//!
//! `cover` is what others call. `certify` tests a proposal, and `full` makes the items of all reached states. `propose` makes
//! proposals by a `sketch` of `nodes` and `edges`, over rules in words (`choices`), by reasons (`reason`, `regress`). Nothing is
//! claimed of these.
#![tactic(auto)]

mod certify;
mod choices;
pub mod cover;
pub mod covering;
mod edges;
mod full;
mod nodes;
mod opposed;
mod propose;
pub mod reason;
pub mod regress;
pub mod sketch;

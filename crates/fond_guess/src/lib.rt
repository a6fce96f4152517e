//! A search for plans and for dead ends. The crate promises nothing but to end without a fault: what it finds are hints,
//! and whoever takes one tests it before it is used.
//!
//! `engine` is the whole of what others call; `guide` makes it a source of hints for a planner. `search` takes states from
//! `lists`, each of which is a `queue` by estimates, or by what `goals` counts, `landmarks` among that. `relaxed_way` has the
//! relaxed plan for one of these. `aim` has what a search aims at before the goal. `known` has what outlasts a search.
#![tactic(auto)]

mod aim;
mod begun;
pub mod engine;
mod goals;
pub mod guide;
mod known;
mod landmarks;
mod lists;
mod queue;
mod relaxed_way;
mod search;

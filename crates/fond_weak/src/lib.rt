//! Weak plans: steps from a state to a goal, each of which counts on one outcome of its action; or a layer which shows that no
//! policy wins from the state. `weak_plan` first asks the engine of fond_guess, which promises nothing, and tests the steps that
//! it hints at. If they are no plan, it opens states breadth first: a goal that is found ends the search with a plan, and
//! states that are closed without a goal are a layer. Making rules of a plan is left to the crates above.
#![tactic(auto)]

mod breadth;
mod grow;
mod hint;
mod opening;
mod plan;
mod setting;
mod tree;
pub mod weak;

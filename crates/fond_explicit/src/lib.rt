//! Deciding a ground task from a state on by its states one by one, with a bound on their number. `solve` returns choices
//! that win, with the layers that were found on the way; or layers from which no solution escapes, one of which has the
//! state; or that more states are reachable than the bound. Each answer is proved right by the definitions of the game
//! (specs/Answers.antt). Turning choices into rules and layers into small ones is left to the crates above.
//!
//! States are the nodes of a graph and applicable actions its moves, equal ones kept once; the nested fixpoint of
//! fond_fixpoint finds which nodes are won and in which rounds the others are lost.
#![tactic(auto)]

pub mod act_index;
pub mod answer;
mod choose;
mod decide;
pub mod filing;
mod opening;
mod recent;
pub mod solve;
mod space;
mod strata;
pub mod whole;

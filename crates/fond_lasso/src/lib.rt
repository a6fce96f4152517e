//! A policy judged: whether it is a solution, and why. A solution is shown by the least ranking of the states that it reaches, any
//! other policy by a run on which it gets stuck, or by a lasso in which chance and the opponent can hold it for ever. Whoever can say
//! what is chosen in a state is a policy here (`Chooser` of fond_reach). What is found is printed by the crates above.
#![tactic(auto)]

pub mod explain;
pub mod finding;
mod flat;
mod judge;
pub mod order;
mod stem;
pub mod tell;

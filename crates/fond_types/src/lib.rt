//! From names to numbers: the task that the declarations of a domain, a problem and a side list stand for, or the first
//! fault of their names, which the crate fond_names finds. What the task means is left to the crates above.
#![tactic(auto)]

mod conditions;
mod context;
mod declare;
mod effects;
mod initial;
mod kept;
mod mentioned;
mod numbered_atom;
mod numbered_predicates;
mod numbers;
mod parts;
mod patterns;
mod ranges;
pub mod resolve;
mod schemas;
mod table;
mod task;
mod terms;

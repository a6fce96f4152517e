//! The types that a domain declares: which type is a subtype of which, and the first fault of their declarations. Types
//! have parents, which form cycles in a domain that is refused. What else is declared is left to the crate above.
#![tactic(auto)]

mod ancestry;
pub mod fault;
mod grower;
mod links;
mod order;
pub mod table;

//! The first fault of the names in the declarations of a domain, a problem and a side list, and lookups of a name's
//! first declaration. The crate above numbers declarations without such a fault. What a domain and a problem mean is
//! left to the crates above it.
#![tactic(auto)]

mod atoms;
pub mod files;
pub mod first_fault;
pub mod index;
mod leaves;
pub mod lookup;
mod patterns;
pub mod predicates;
mod redeclared;
mod repeated;
pub mod scope;
mod sites;
pub mod types;
mod unknown;
pub mod variable;

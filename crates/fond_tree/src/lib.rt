//! From text to trees, and the form of trees. The crates above learn that a text was read as its one tree, or its one forest,
//! or which one fault it has instead; and of a tree, its first fault of form as a domain or a problem, or that it has none. The
//! grammar is two tables: what is expected of a node and of a leaf, by the role of its position, and which roles the members
//! of a node have. Reading a tree without a fault is left to the crates above.
#![tactic(auto)]

mod expected;
pub mod fault;
pub mod laws;
pub mod leaves;
pub mod read;
mod repeats;
pub mod role;
pub mod scan;
pub mod tree;
mod walk;

//! An index of cubes: a tree over their literals, asked for the first of many cubes in which a state or a cube lies
//! (Savnik, Index data structure for fast subset and superset queries, 2013). An index is of a fixed number of cubes, or grows
//! with them. What the cubes belong to is left to the crates above.
#![tactic(auto)]

mod grow;
pub mod index;
pub mod matcher;
mod node;
mod part;
pub mod query;

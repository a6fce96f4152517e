//! A matrix of bits over a growing list of cubes: for each literal the cubes that have it. It tells which of the first cubes a cube
//! contradicts, and which of these by one literal alone, 64 cubes at a time. What the cubes belong to is left to the crates above.
#![tactic(auto)]

mod fill;
pub mod matrix;
mod rivals;
mod row;
mod rows;
mod search;
mod words;

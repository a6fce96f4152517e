//! Distinct states, texts and lists of numbers, each with a number, found by a hash. The crates above learn whether a state
//! was kept before, and its number, and which number belongs to a text or a list, or that it is not there. A lookup takes
//! time in the number of atoms of the state, or in the length of the text or list, however many are kept; this relies on
//! hashing and is not proved.
#![tactic(auto)]

pub mod index;
pub mod store;

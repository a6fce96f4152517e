//! The types that all crates share: names, words, places, numbers, lists, texts that are written part by part, and faults with
//! their order. A `Name` is a lowered leaf by its type, a `Word` the bytes of a command line as given, and a `Place` a line and
//! a column. Reading a text is left to the crates above.
#![tactic(auto)]

pub mod atom;
pub mod bytes;
pub mod code;
pub mod fault;
pub mod first;
pub mod list;
pub mod name;
pub mod number;
pub mod out;
pub mod place;
pub mod text;
pub mod word;

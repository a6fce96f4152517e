//! The task that the program shows itself on: a walk from one end of a row of places to the other, past lamps that may be
//! switched at any time. Its size is a number, and where an opponent has a hand in the walk is drawn from it.
//!
//! Drawn words are the numbers below 2^32 that a seeded generator gives, one after the other. The same seed gives the same
//! words on every machine. The generator is the member of the PCG family with 64 bits of state and words of 32 bits, XSH RR
//! (O'Neill, *PCG: a family of simple fast space-efficient statistically good algorithms for random number generation*, 2014);
//! how good its words are is not claimed.
#![tactic(auto)]

pub mod demo;
mod problem;
pub mod show;
pub mod words;

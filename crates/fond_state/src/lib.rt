//! States and cubes of a ground task, by the numbers of its atoms. Contracts see a state as the list of its truth
//! values, and a cube as the list of the literals that it has or lacks, atom by atom. Both are kept in words of 64 bits. What
//! the atoms mean is left to the crates above.
//!
//! The crate also defines games of one player against chance and an opponent, over any states and any actions: policies and
//! what they reach, traps and solutions (specs/Games.antt); and traces of whatever is stepped (specs/Traces.antt). A solution
//! is a strong cyclic one where actions are fair (Cimatti, Pistore, Roveri and Traverso 2003) and a strong one where an
//! opponent picks the outcome; both kinds together are those of Geffner and Geffner 2018. The game of a ground task is a use
//! of them (fond_task), and so are the traces of rule lists (fond_exec, fond_succ).
#![tactic(auto)]

pub mod cube;
pub mod has_cube;
mod mask;
pub mod state;
mod word;

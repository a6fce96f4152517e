//! The boundary of the program: a shelf supplies files, and a sink takes output, from a text as a whole or in pieces through a
//! pen. Callers learn what a shelf or a sink can tell, and whether a fault occurred. Which bytes a real file holds is left to the
//! host.
#![tactic(auto)]

mod counter;
pub mod host_shelf;
pub mod host_sink;
pub mod lists;
pub mod memory_shelf;
pub mod memory_sink;
pub mod pen;
pub mod send;
pub mod shelf;
pub mod sink;
pub mod writer;

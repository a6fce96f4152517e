//! The tool as one call: from the words of a command line, through the files that they name, to the text that is written
//! and the status. `run_tool` promises that the text and the status are those of the reply to the words; what the
//! replies mean is left to the layers below.
#![tactic(auto)]

mod best;
mod demo;
mod jobs;
mod plan;
pub mod tool;

//! The words of a command line, the files that they name, and the answers: what the tool needs beside planning, with the
//! commands that do not plan. Each command is a function from the texts of its files to an answer or a rejection.
#![tactic(auto)]

pub mod answer;
mod body;
mod certified;
pub mod check;
pub mod duel;
pub mod explain;
pub mod fetch;
pub mod graph;
pub mod migrate;
pub mod rate;
pub mod rejection;
pub mod run;
pub mod simulate;
pub mod status;
pub mod succ;
pub mod task_files;
mod traced;
pub mod words;

//! Runs the worked examples of the whole tool, and prints how many there are and which are answered otherwise. The words are the
//! names of files under data/ in TOML. A file has topics, and a topic has rows; data/README.md lists what they say.
#![tactic(auto)]

mod cuts;
mod demos;
mod error;
mod question;
mod row;
mod rows;

use crate::error::RowError;
use crate::rows::Rows;
use fond_laws::policies::policies_are_characterized;
use fond_laws::replies::{
    correct_are_accepted, correct_policies_never_stick, demos_are_accepted, duels_reach_goals,
    hopeless_tasks_are_refused, migrated_are_accepted, planned_are_accepted, shortest_are_rated,
    small_tasks_are_decided, solutions_never_stick,
};
use std::{env, fs};
use toml::Table;

/// Calls each law of the tool's replies, and that of policies.
fn call_laws() {
    correct_are_accepted();
    planned_are_accepted();
    shortest_are_rated();
    small_tasks_are_decided();
    hopeless_tasks_are_refused();
    migrated_are_accepted();
    solutions_never_stick();
    correct_policies_never_stick();
    demos_are_accepted();
    duels_reach_goals();
    policies_are_characterized();
}

/// The table that a file holds.
fn table_in(rt: &HostRuntime, name: &str) -> Result<Table, RowError> {
    let text = fs::read_to_string(rt, name)?;
    Ok(toml::table_from_str(rt.alloc(), text.as_str())?)
}

/// Runs the rows of the files that the command line names.
fn run_files(rt: &HostRuntime, tasks: &Table) -> Result<(), RowError> {
    for name in env::args(rt)?.skip(1) {
        let table = table_in(rt, name.as_str())?;
        let rows = Rows {
            file: name.as_str(),
            tasks,
        };
        rows.run(rt, rt.alloc(), &table)?;
    }
    Ok(())
}

fn main(rt: HostRuntime) -> Result<(), RowError> {
    call_laws();
    let tasks = table_in(&rt, "tasks.toml")?;
    run_files(&rt, &tasks)?;
    cuts::run(&rt, rt.alloc(), &tasks)?;
    demos::run(&rt, rt.alloc())
}

//! What is found out about a policy, as text. The states of a run are numbered anew, in the order of their first use. The time is that of
//! the search and of the text, which is held in memory.

ghost use Rattle.fond_games.specs.Told.{numbers_line};
ghost use Rattle.fond_lasso.specs.Listing.{IsFound, IsLassoText, IsStuckText, level_text, levels_text, numbered_text};
ghost use Rattle.fond_lasso.specs.Explained.{IsFinding};
ghost use Rattle.fond_lasso.specs.Told.{IsTold};
ghost use Rattle.fond_task.specs.Policies.{Policy};
ghost use Rattle.fond_text.specs.Text.{Adds};
ghost use Rattle.std.specs.List.{flat_map};
ghost use Rattle.std.specs.Prelude.{◌≡◌, ◌<◌, ◌^◌, ◌++◌, ℕ, All, codes, length, IfOk};

use crate::explain::explain;
use crate::finding::Finding;
use crate::order::{Renamed, rename};
use fond_reach::chooser::Chooser;
use fond_state::state::State;
use fond_store::store::Store;
use fond_task::task::Task;
use fond_task::text::put_state;
use fond_text::fault::NoMemory;
use fond_text::text::Text;
use std::alloc::Global;

/// What is told about a policy.
#[derive(Drop)]
pub enum Told {
    /// It is a solution: each reached state that is no goal, with its rank.
    Solution(Vec<u8>),
    /// It is none: a run on which it gets stuck, or a lasso.
    NoSolution(Vec<u8>),
    /// It reaches more states than the limit.
    Spent,
}

/// Adds the line of a word and numbers, each after a space.
fn put_numbers(word: &[u8], numbers: &[u32], text: &mut Text)
    ensures { Adds text.old text.new (numbers_line word.now numbers.now) }
{
    text.add(word);
    for number in numbers {
        text.add(b" ");
        text.add_number(*number as u64);
    }
    text.add(b"\n");
}

/// Adds a state with the rank that its level tells. A goal is left out.
fn put_rank(t: &Task, state: &State, level: u32, text: &mut Text)
    ensures { Adds text.old text.new (level_text t.now state.now level) }
{
    if level <= 1 {
        return;
    }
    text.add(b"rank ");
    text.add_number((level - 1) as u64);
    text.add(b"\n");
    put_state(t, state, text);
}

/// Adds the states with the ranks that their levels tell.
fn put_ranks(t: &Task, states: &Store, levels: &[u32], text: &mut Text)
    requires { length levels.now ≡ length states.now }
    ensures { Adds text.old text.new (levels_text t.now states.now levels.now) }
{
    for i in 0..states.len() {
        put_rank(t, states.get(i), levels[i as usize], text);
    }
}

/// The text of a solution.
fn solution_text(
    alloc: Global,
    t: &Task,
    states: &Store,
    levels: &[u32],
) -> Result<Vec<u8>, NoMemory>
    requires { length levels.now ≡ length states.now }
    ensures { IfOk result (λ text. text.items ≡ codes "solution\n" ++ levels_text t.now states.now levels.now) }
{
    let mut text = Text::new(alloc);
    text.add(b"solution\n");
    put_ranks(t, states, levels, &mut text);
    text.finish()
}

/// Adds the states of these numbers, in order.
fn put_listed(t: &Task, states: &Store, numbers: &[u32], text: &mut Text)
    requires { All (λ number. number < length states.now) numbers.now }
    ensures { Adds text.old text.new (flat_map (numbered_text t.now states.now) numbers.now) }
{
    for number in numbers {
        put_state(t, states.get(*number), text);
    }
}

/// Adds what begins the text of a run: a line, its states, and its stem.
fn put_run(t: &Task, states: &Store, head: &[u8], run: &Renamed, text: &mut Text)
    requires { All (λ number. number < length states.now) run.now.used.items }
    ensures { Adds text.old text.new (head.now ++ flat_map (numbered_text t.now states.now) run.now.used.items ++ numbers_line (codes "stem") run.now.stem.items) }
{
    text.add(head);
    put_listed(t, states, &run.used, text);
    put_numbers(b"stem", &run.stem, text);
}

/// The text of a run on which a policy gets stuck.
fn stuck_text(alloc: Global, t: &Task, states: &Store, stem: &[u32]) -> Result<Vec<u8>, NoMemory>
    requires few { length states.now < 2 ^ 31 }
    requires within { All (λ number. number < length states.now) stem.now }
    ensures { IfOk result (λ text. IsStuckText t.now states.now stem.now text.items) }
{
    let run = rename(alloc, states.len() as usize, stem, &[])?;
    let mut text = Text::new(alloc);
    put_run(t, states, b"stuck\n", &run, &mut text);
    text.finish()
}

/// The text of a lasso.
fn lasso_text(
    alloc: Global,
    t: &Task,
    states: &Store,
    stem: &[u32],
    cycle: &[u32],
) -> Result<Vec<u8>, NoMemory>
    requires few { length states.now < 2 ^ 31 }
    requires within { All (λ number. number < length states.now) stem.now }
    requires cycle_within { All (λ number. number < length states.now) cycle.now }
    ensures { IfOk result (λ text. IsLassoText t.now states.now stem.now cycle.now text.items) }
{
    let run = rename(alloc, states.len() as usize, stem, cycle)?;
    let mut text = Text::new(alloc);
    put_run(t, states, b"lasso\n", &run, &mut text);
    put_numbers(b"cycle", &run.cycle, &mut text);
    text.finish()
}

/// What is told of a finding.
fn told_of(alloc: Global, t: &Task, finding: &Finding) -> Result<Told, NoMemory>
    requires { IsFound t.now finding.now }
    ensures { (policy : Policy) (limit : ℕ) → IsFinding t.now policy limit finding.now → IfOk result (IsTold t.now policy limit) }
{
    match finding {
        Finding::Ranked { states, levels } => {
            let text = solution_text(alloc, t, states, levels)?;
            Ok(Told::Solution(text))
        }
        Finding::Stuck { states, stem } => {
            let text = stuck_text(alloc, t, states, stem)?;
            Ok(Told::NoSolution(text))
        }
        Finding::Lasso {
            states,
            stem,
            cycle,
        } => {
            let text = lasso_text(alloc, t, states, stem, cycle)?;
            Ok(Told::NoSolution(text))
        }
        Finding::Spent => Ok(Told::Spent),
    }
}

/// What is told about the choices, unless these reach more states than the limit.
pub fn tell<C: Chooser>(alloc: Global, t: &Task, chooser: &C, limit: u32) -> Result<Told, NoMemory>
    requires small { limit < 2 ^ 31 }
    requires task { C.task chooser.now ≡ t.now }
    ensures { IfOk result (IsTold t.now (C.policy chooser.now) limit) }
{
    let finding = explain(alloc, t, chooser, limit)?;
    told_of(alloc, t, &finding)
}

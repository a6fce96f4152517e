//! Deciding each reachable state of a task.
//!
//! The fixpoint ranks nodes in the order of a breadth-first search backwards from the goals: a fair move counts once its first target
//! is ranked, an unfair one once its last is, and a move that may lead to a lost node never. So the choice of a state is by a move of
//! least rank. No contract says so, since what is made of the choices is tested.

ghost use Rattle.fond_explicit.specs.Filings.{IsIndexOf};
ghost use Rattle.fond_explicit.specs.Openings.{IsSpaceFrom};
ghost use Rattle.fond_explicit.specs.Runs.{IsRun};
ghost use Rattle.fond_explicit.specs.Wholes.{IsWhole};
ghost use Rattle.fond_explicit.specs.Answers.{IsPast};
ghost use Rattle.fond_text.specs.Lists.{AreDistinct};
ghost use Rattle.std.specs.Prelude.{◌≡◌, ◌<◌, ◌≤◌, ◌-◌, ◌^◌, ℕ, List, Bool, true, false, length, IfOk};

use crate::act_index::ActIndex;
use crate::answer::Choices;
use crate::choose::choose;
use crate::decide::run;
use crate::filing::index_of;
use crate::opening::open_batch;
use crate::solve::begin;
use crate::space::{Scratch, Space};
use crate::strata::strata;
use fond_fixpoint::fate::Fate;
use fond_fixpoint::preds::Preds;
use fond_layers::layers::Layers;
use fond_task::task::Task;
use fond_text::fault::NoMemory;
use std::alloc::Global;

/// What is found out about a task: choices in the states from which a policy wins, and layers of the others; or that more states are
/// reachable than were to be opened.
#[derive(Drop)]
pub enum Whole {
    Split(Choices, Layers),
    Spent,
}

/// Opens all states, unless there is no room for them. Whether there is.
fn open_every(
    alloc: Global,
    t: &Task,
    index: &ActIndex,
    space: &mut Space,
    budget: u32,
    scratch: &mut Scratch,
) -> Result<bool, NoMemory>
    requires few { length space.old.states ≤ budget }
    requires small { budget < 2 ^ 32 - 1 }
    requires index { IsIndexOf t.now index.now }
    requires next_long { length scratch.old.next ≡ length t.now.atoms }
    requires space { (from : List Bool) × IsSpaceFrom t.now from space.old }
    ensures few { IfOk result (λ _. length space.new.states ≤ budget) }
    ensures keeps { IfOk result (λ _. (from : List Bool) → IsSpaceFrom t.now from space.old → IsSpaceFrom t.now from space.new) }
    ensures whole { IfOk result (λ room. room ≡ true → length space.new.states ≤ space.new.opened) }
    ensures past { IfOk result (λ room. room ≡ false → (from : List Bool) → IsSpaceFrom t.now from space.old → IsPast t.now from budget) }
{
    let mut acts = Vec::new(alloc);
    'batches: loop {
        let has_room = open_batch(alloc, t, index, space, budget, scratch, &mut acts)?;
        if !has_room {
            return Ok(false);
        }
        if space.opened >= space.states.len() {
            return Ok(true);
        }
    }
}

/// The choices and the layers of a run.
fn split(alloc: Global, t: &Task, space: &Space, fates: &[Fate]) -> Result<Whole, NoMemory>
    requires few { length space.now.states < 2 ^ 32 - 1 }
    requires distinct { AreDistinct space.now.states }
    requires space { IsSpaceFrom t.now t.now.init space.now }
    requires all { length space.now.states ≤ space.now.opened }
    requires run { IsRun t.now space.now true fates.now }
    ensures { IfOk result (λ whole. (budget : ℕ) → IsWhole t.now budget whole) }
{
    let choices = choose(alloc, &space.states, &space.moves, fates)?;
    let layers = strata(alloc, &space.states, fates)?;
    Ok(Whole::Split(choices, layers))
}

/// The choices and the layers of the states, which are all opened.
fn split_opened(alloc: Global, t: &Task, space: &Space) -> Result<Whole, NoMemory>
    requires few { length space.now.states < 2 ^ 32 - 1 }
    requires space { IsSpaceFrom t.now t.now.init space.now }
    requires all { length space.now.states ≤ space.now.opened }
    ensures { IfOk result (λ whole. (budget : ℕ) → IsWhole t.now budget whole) }
{
    let preds = Preds::of(alloc, space.states.len() as usize, &space.moves)?;
    let fates = run(alloc, t, space, &preds, true)?;
    split(alloc, t, space, &fates)
}

/// Decides each reachable state of a task, or finds that more than `budget` states are reachable. Takes the time of opening them, and
/// that of one run of the fixpoint; at most `budget` states are kept.
pub fn solve_all(alloc: Global, t: &Task, budget: u32) -> Result<Whole, NoMemory>
    requires { budget ≤ 1000000 }
    ensures { IfOk result (IsWhole t.now budget) }
{
    if budget == 0 {
        return Ok(Whole::Spent);
    }
    let index = index_of(alloc, t)?;
    let mut scratch = Scratch::new(alloc, &t.init)?;
    let mut space = begin(alloc, t, &t.init)?;
    if !open_every(alloc, t, &index, &mut space, budget, &mut scratch)? {
        return Ok(Whole::Spent);
    }
    split_opened(alloc, t, &space)
}

//! Deciding a task by the states that are opened so far.
//!
//! The nested fixpoint runs with the states that are not opened as won, and if the first state is not lost then, with them
//! as lost. What falls in the first run is lost whatever they are, and what has a rank in the second is won.

ghost use Rattle.fond_explicit.specs.Answers.{IsRight};
ghost use Rattle.fond_fixpoint.specs.Fates.{fate_of, is_kept};
ghost use Rattle.fond_explicit.specs.Openings.{IsSpaceFrom};
ghost use Rattle.fond_explicit.specs.Runs.{IsRun};
ghost use Rattle.fond_explicit.specs.Spaces.{AreGoals};
ghost use Rattle.fond_task.specs.Truth.{is_true};
ghost use Rattle.fond_text.specs.Lists.{AreDistinct};
ghost use Rattle.std.specs.Prelude.{◌≡◌, ◌&&◌, ◌||◌, nat_le, Some, slice_get, ◌<◌, ◌-◌, ◌^◌, ℕ, List, Bool, true, false, length, IfOk, MatchOption};

use crate::answer::Solved;
use crate::choose::choose;
use crate::space::Space;
use crate::strata::strata;
use fond_fixpoint::fate::{Fate, fate_of, is_kept};
use fond_fixpoint::preds::Preds;
use fond_fixpoint::settle::settle;
use fond_task::task::Task;
use fond_task::truth::is_goal;
use fond_text::fault::NoMemory;
use std::alloc::Global;

/// Whether the state of a node is a goal, or counts as one since it is not opened, if such states are to.
fn is_won(t: &Task, space: &Space, node: u32, hopeful: bool) -> bool
    requires there { node < length space.now.states }
    requires space { (from : List Bool) × IsSpaceFrom t.now from space.now }
    ensures { (state : List Bool) → slice_get space.now.states node ≡ Some state → result ≡ (is_true state t.now.goal || (hopeful && nat_le space.now.opened node)) }
{
    is_goal(t, space.states.get(node)) || (hopeful && space.opened <= node)
}

/// For each state whether it is a goal, or counts as one since it is not opened, if these are to. Takes time in the number
/// of states times the size of the goal.
fn goals(alloc: Global, t: &Task, space: &Space, hopeful: bool) -> Result<Vec<bool>, NoMemory>
    requires { (from : List Bool) × IsSpaceFrom t.now from space.now }
    ensures whole { IfOk result (λ goals. length goals.items ≡ length space.now.states) }
    ensures goals { IfOk result (λ goals. AreGoals t.now space.now.states space.now.opened hopeful goals.items) }
{
    let mut goals = Vec::new(alloc);
    for node in 0..space.states.len() {
        goals.push(is_won(t, space, node, hopeful))?;
    }
    Ok(goals)
}

/// The fates of the states, if those that are not opened are won or if they are lost.
pub(crate) fn run(
    alloc: Global,
    t: &Task,
    space: &Space,
    preds: &Preds,
    hopeful: bool,
) -> Result<Vec<Fate>, NoMemory>
    requires few { length space.now.states < 2 ^ 32 - 1 }
    requires space { (from : List Bool) × IsSpaceFrom t.now from space.now }
    ensures { IfOk result (λ fates. IsRun t.now space.now hopeful fates.items) }
{
    let goals = goals(alloc, t, space, hopeful)?;
    let fates = settle(alloc, &goals, &space.moves, preds)?;
    Ok(fates)
}

/// The layers of the states that fell in a run.
fn lost(alloc: Global, t: &Task, space: &Space, hopeful: &[Fate]) -> Result<Solved, NoMemory>
    requires few { length space.now.states < 2 ^ 32 - 1 }
    requires distinct { AreDistinct space.now.states }
    requires run { IsRun t.now space.now true hopeful.now }
    requires start { is_kept (fate_of hopeful.now 0) ≡ false }
    ensures { IfOk result (λ solved. (from : List Bool) (budget : ℕ) → IsSpaceFrom t.now from space.now → IsRight t.now from budget solved) }
{
    let layers = strata(alloc, &space.states, hopeful)?;
    Ok(Solved::Lost(layers))
}

/// The choices of one run, and the layers of another.
fn won(
    alloc: Global,
    t: &Task,
    space: &Space,
    sound: &[Fate],
    hopeful: &[Fate],
) -> Result<Solved, NoMemory>
    requires few { length space.now.states < 2 ^ 32 - 1 }
    requires distinct { AreDistinct space.now.states }
    requires run { IsRun t.now space.now true hopeful.now }
    requires sound_run { IsRun t.now space.now false sound.now }
    requires start { is_kept (fate_of sound.now 0) ≡ true }
    ensures { IfOk result (λ solved. (from : List Bool) (budget : ℕ) → IsSpaceFrom t.now from space.now → IsRight t.now from budget solved) }
{
    let choices = choose(alloc, &space.states, &space.moves, sound)?;
    let layers = strata(alloc, &space.states, hopeful)?;
    Ok(Solved::Won(choices, layers))
}

/// What the opened states tell about the first one, by the fates of the run with those that are not opened as won.
fn decide_by(
    alloc: Global,
    t: &Task,
    space: &Space,
    preds: &Preds,
    hopeful: &[Fate],
) -> Result<Option<Solved>, NoMemory>
    requires few { length space.now.states < 2 ^ 32 - 1 }
    requires space { (from : List Bool) × IsSpaceFrom t.now from space.now }
    requires run { IsRun t.now space.now true hopeful.now }
    ensures { IfOk result (λ found. MatchOption found (space.now.opened < length space.now.states)
        (λ solved. (from : List Bool) (budget : ℕ) → IsSpaceFrom t.now from space.now → IsRight t.now from budget solved)) }
{
    let nodes = space.states.len();
    if !is_kept(fate_of(hopeful, 0)) {
        return Ok(Some(lost(alloc, t, space, hopeful)?));
    }
    if space.opened >= nodes {
        return Ok(Some(won(alloc, t, space, hopeful, hopeful)?));
    }
    let sound = run(alloc, t, space, preds, false)?;
    if !is_kept(fate_of(&sound, 0)) {
        return Ok(None);
    }
    Ok(Some(won(alloc, t, space, &sound, hopeful)?))
}

/// What the opened states tell about the first one, if they decide it. If all states are opened, they do. Takes the time of
/// two runs of the fixpoint.
pub(crate) fn decide(alloc: Global, t: &Task, space: &Space) -> Result<Option<Solved>, NoMemory>
    requires few { length space.now.states < 2 ^ 32 - 1 }
    requires space { (from : List Bool) × IsSpaceFrom t.now from space.now }
    ensures { IfOk result (λ found. MatchOption found (space.now.opened < length space.now.states)
        (λ solved. (from : List Bool) (budget : ℕ) → IsSpaceFrom t.now from space.now → IsRight t.now from budget solved)) }
{
    let preds = Preds::of(alloc, space.states.len() as usize, &space.moves)?;
    let hopeful = run(alloc, t, space, &preds, true)?;
    decide_by(alloc, t, space, &preds, &hopeful)
}

//! The states on the way of a plan.

ghost use Rattle.fond_draft.specs.Turns.{AreTurns, LeadsFrom};
ghost use Rattle.fond_explicit.specs.Answers.{IsReachable};
ghost use Rattle.std.specs.Prelude.{◌≡◌, List, Bool, length, Decides, IfOk, OnOk};

use fond_explicit::answer::{Choices, Pick};
use fond_state::state::State;
use fond_task::plan_step::{PlanStep, PlanSteps};
use fond_task::step::apply_into;
use fond_task::task::Task;
use fond_task::truth::{applicable, is_goal};
use fond_text::fault::NoMemory;
use std::alloc::Global;

/// Whether the step leads on from the state.
fn leads_on(t: &Task, state: &State, step: PlanStep) -> bool
    requires { length state.now ≡ length t.now.atoms }
    ensures { Decides result (LeadsFrom t.now state.now step) }
{
    if step.act as usize >= t.acts.len() {
        return false;
    }
    if step.outcome as usize >= t.acts.get(step.act as usize).outcomes.len() {
        return false;
    }
    if is_goal(t, state) {
        return false;
    }
    applicable(t, state, step.act)
}

/// Takes the steps from a state on, as far as they lead on. `state` becomes the last state, and `next` is overwritten.
fn replay_on(
    alloc: Global,
    t: &Task,
    steps: &PlanSteps,
    state: &mut State,
    next: &mut State,
    turns: &mut Choices,
) -> Result<(), NoMemory>
    requires reachable { IsReachable t.now t.now.init state.old }
    requires next_long { length next.old ≡ length t.now.atoms }
    requires turns { AreTurns t.now turns.old }
    ensures { OnOk result (AreTurns t.now turns.new) }
{
    for step in steps {
        if !leads_on(t, state, *step) {
            return Ok(());
        }
        turns.push(Pick {
            state: state.copy(alloc)?,
            act: step.act,
            rank: 0,
        })?;
        apply_into(t, state, step.act, step.outcome, next);
        state.copy_from(next);
    }
    Ok(())
}

/// The states through which the steps lead from a reachable state, each with the action that is taken there, as far as the steps
/// lead on. All ranks are 0.
pub fn replay(alloc: Global, t: &Task, from: &State, steps: &PlanSteps) -> Result<Choices, NoMemory>
    requires { IsReachable t.now t.now.init from.now }
    ensures { IfOk result (AreTurns t.now) }
{
    let mut state = from.copy(alloc)?;
    let mut next = from.copy(alloc)?;
    let mut turns = Choices::new(alloc);
    replay_on(alloc, t, steps, &mut state, &mut next, &mut turns)?;
    Ok(turns)
}

//! Tests of steps that are hinted at.

ghost use Rattle.fond_task.specs.declared.task.Act.{Act};
ghost use Rattle.fond_weak.specs.Settings.{IsPlanIn};
ghost use Rattle.fond_weak.specs.Weak.{IsWeakPlan, MayTake};
ghost use Rattle.std.specs.Prelude.{◌≡◌, ◌<◌, true, length, slice_get, Some, IfOk};

use crate::setting::Setting;
use fond_state::cube::Cube;
use fond_state::state::State;
use fond_task::plan_step::PlanStep;
use fond_task::step::apply_into;
use fond_task::task::Task;
use fond_task::truth::{applicable, is_goal};
use fond_text::fault::NoMemory;
use std::alloc::Global;

/// Whether the task has the action of the step, and the action its outcome.
fn is_there(t: &Task, step: PlanStep) -> bool
    ensures act { result ≡ true → step.act < length t.now.acts }
    ensures outcome { result ≡ true → (a : Act) → slice_get t.now.acts step.act ≡ Some a → step.outcome < length a.outcomes }
{
    if step.act as usize >= t.acts.len() {
        return false;
    }
    (step.outcome as usize) < t.acts.get(step.act as usize).outcomes.len()
}

/// Whether the step may be taken in the state. If it may, `next` is the state after it. Takes time in the number of atoms, in
/// that of the pairs of the action times the atoms, and in the size of the action.
fn take(
    alloc: Global,
    setting: &Setting,
    state: &State,
    step: PlanStep,
    next: &mut State,
) -> Result<bool, NoMemory>
    requires long { length state.now ≡ length setting.now.task.now.atoms }
    requires next_long { length next.old ≡ length setting.now.task.now.atoms }
    ensures next_long { length next.new ≡ length next.old }
    ensures taken { IfOk result (λ may. may ≡ true → MayTake setting.now.task.now setting.now.pairs.now state.now step next.new) }
{
    if !is_there(setting.task, step) {
        return Ok(false);
    }
    if !applicable(setting.task, state, step.act) {
        return Ok(false);
    }
    let full = Cube::full(alloc, state)?;
    if setting.is_barred(step.act, &full) {
        return Ok(false);
    }
    apply_into(setting.task, state, step.act, step.outcome, next);
    Ok(true)
}

/// Whether the steps may be taken one after the other from the state on, and end at a goal. `state` and `next` are overwritten.
fn ends_at_goal(
    alloc: Global,
    setting: &Setting,
    steps: &[PlanStep],
    state: &mut State,
    next: &mut State,
) -> Result<bool, NoMemory>
    requires long { length state.old ≡ length setting.now.task.now.atoms }
    requires next_long { length next.old ≡ length setting.now.task.now.atoms }
    ensures { IfOk result (λ may. may ≡ true → IsWeakPlan setting.now.task.now setting.now.pairs.now state.old steps.now) }
{
    for step in steps {
        if !take(alloc, setting, state, *step, next)? {
            return Ok(false);
        }
        state.copy_from(next);
    }
    Ok(is_goal(setting.task, state))
}

/// Whether the steps are a weak plan. Takes, for each of them, time in the number of atoms, in that of the pairs of its action
/// times the atoms, and in the size of the action.
pub(crate) fn is_plan(
    alloc: Global,
    setting: &Setting,
    steps: &[PlanStep],
) -> Result<bool, NoMemory>
    ensures { IfOk result (λ may. may ≡ true → IsPlanIn setting.now steps.now) }
{
    let mut state = setting.from.copy(alloc)?;
    let mut next = setting.from.copy(alloc)?;
    ends_at_goal(alloc, setting, steps, &mut state, &mut next)
}

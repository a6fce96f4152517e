//! The states of a plan below one of them: those to which its choices lead, as far as ranks fall and no rule holds.

ghost use Rattle.fond_policy.specs.Walks.{Grows};
ghost use Rattle.fond_draft.specs.Plans.{AreBelow, IsPlan, IsProvided};
ghost use Rattle.fond_explicit.specs.Answers.{ChoiceView};
ghost use Rattle.fond_task.specs.Policies.{IsNext};
ghost use Rattle.fond_rules.specs.Select.{AreOver};
ghost use Rattle.std.specs.Prelude.{◌≡◌, ◌<◌, List, Bool, length, slice_get, Some, Contains, IfOk, OnOk};

use crate::plan::Plan;
use fond_policy::walk::one_state;
use fond_rules::rules::Rules;
use fond_state::state::State;
use fond_store::store::Store;
use fond_task::step::apply_into;
use fond_task::task::Task;
use fond_task::truth::is_goal;
use fond_text::fault::NoMemory;
use std::alloc::Global;

/// Adds the state to the states, unless it is one of them, or a goal, or a rule holds in it, or it has no choice of a rank
/// below this one. Reports `NoMemory` past 2^32 - 2 states.
fn add_lower(
    alloc: Global,
    t: &Task,
    rules: &Rules,
    plan: &Plan,
    rank: u64,
    state: &State,
    states: &mut Store,
) -> Result<(), NoMemory>
    requires plan { IsPlan t.now plan.now }
    requires over { AreOver (length t.now.atoms) rules.now }
    requires long { length state.now ≡ length t.now.atoms }
    ensures grows { OnOk result (Grows (Contains plan.now.states) states.old states.new) }
    ensures provided { OnOk result (IsProvided t.now rules.now plan.now.choices states.new rank state.now) }
{
    let Some(number) = plan.states.find(state) else {
        return Ok(());
    };
    if plan.choices.get(number as usize).rank >= rank {
        return Ok(());
    }
    if is_goal(t, state) {
        return Ok(());
    }
    if rules.select(state).is_some() {
        return Ok(());
    }
    if states.len() >= u32::MAX - 1 {
        return Err(NoMemory);
    }
    states.add(state.copy(alloc)?)?;
    Ok(())
}

/// Adds the states to which the choice of this number leads, as `add_lower` does. `next` is overwritten.
fn add_nexts(
    alloc: Global,
    t: &Task,
    rules: &Rules,
    plan: &Plan,
    number: usize,
    next: &mut State,
    states: &mut Store,
) -> Result<(), NoMemory>
    requires plan { IsPlan t.now plan.now }
    requires over { AreOver (length t.now.atoms) rules.now }
    requires there { number < length plan.now.choices }
    requires next_long { length next.old ≡ length t.now.atoms }
    ensures same_length { length next.new ≡ length next.old }
    ensures grows { OnOk result (Grows (Contains plan.now.states) states.old states.new) }
    ensures all { OnOk result ((choice : ChoiceView) (after : List Bool) → slice_get plan.now.choices number ≡ Some choice → IsNext t.now choice.state choice.act after → IsProvided t.now rules.now plan.now.choices states.new choice.rank after) }
{
    let pick = plan.choices.get(number);
    for outcome in 0..t.acts.get(pick.act as usize).outcomes.len() {
        apply_into(t, &pick.state, pick.act, outcome as u32, next);
        add_lower(alloc, t, rules, plan, pick.rank, next, states)?;
    }
    Ok(())
}

/// Adds the states of a plan below the states, which are some of it.
fn add_below(
    alloc: Global,
    t: &Task,
    rules: &Rules,
    plan: &Plan,
    states: &mut Store,
) -> Result<(), NoMemory>
    requires plan { IsPlan t.now plan.now }
    requires over { AreOver (length t.now.atoms) rules.now }
    requires each { (state : List Bool) → Contains states.old state → Contains plan.now.states state }
    ensures below { OnOk result (AreBelow t.now rules.now plan.now states.new) }
    ensures kept { OnOk result ((state : List Bool) → Contains states.old state → Contains states.new state) }
{
    let mut next = t.init.copy(alloc)?;
    let mut at = 0;
    while at < states.len() {
        let Some(listed) = plan.states.find(states.get(at)) else {
            unreachable!()
        };
        let listed = listed as usize;
        add_nexts(alloc, t, rules, plan, listed, &mut next, states)?;
        at += 1;
    }
    Ok(())
}

/// The states of a plan below that of the choice of this number, and this one.
pub fn below(
    alloc: Global,
    t: &Task,
    rules: &Rules,
    plan: &Plan,
    number: usize,
) -> Result<Store, NoMemory>
    requires plan { IsPlan t.now plan.now }
    requires over { AreOver (length t.now.atoms) rules.now }
    requires there { number < length plan.now.choices }
    ensures below { IfOk result (AreBelow t.now rules.now plan.now) }
    ensures has { IfOk result (λ states. (choice : ChoiceView) → slice_get plan.now.choices number ≡ Some choice → Contains states choice.state) }
{
    let mut states = one_state(alloc, &plan.choices.get(number).state)?;
    add_below(alloc, t, rules, plan, &mut states)?;
    Ok(states)
}

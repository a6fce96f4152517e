//! Opening states: the moves out of a state, and the states to which they lead.

ghost use Rattle.fond_explicit.specs.Answers.{IsPast};
ghost use Rattle.fond_explicit.specs.Filings.{IsIndexOf, AreCandidates};
ghost use Rattle.fond_explicit.specs.Openings.{IsSpaceFrom, IsReached, IsGrown, IsFull, IsOpening};
ghost use Rattle.fond_explicit.specs.Spaces.{AreNexts, HasMove};
ghost use Rattle.fond_task.specs.Policies.{IsGoal};
ghost use Rattle.fond_task.specs.Truth.{is_true};
ghost use Rattle.fond_task.specs.declared.task.Act.{Act};
ghost use Rattle.std.specs.Prelude.{◌≡◌, ◌⊎◌, ◌<◌, ◌≤◌, ◌+◌, ◌-◌, ◌^◌, ℕ, List, Bool, true, false, Some, length, slice_get, IfOk, MatchBool};

use crate::act_index::ActIndex;
use crate::filing::candidates;
use crate::space::{Scratch, Space};
use fond_state::state::State;
use fond_store::store::Store;
use fond_task::step::apply_into;
use fond_task::task::Task;
use fond_task::truth::{applicable, is_goal};
use fond_text::fault::NoMemory;
use std::alloc::Global;

/// The number of a state, which is added if it is new and fewer than `budget` states are kept; none if it is new and there
/// is no room. Takes time in the number of atoms.
fn reach(
    alloc: Global,
    states: &mut Store,
    next: &State,
    budget: u32,
) -> Result<Option<u32>, NoMemory>
    requires few { length states.old ≤ budget }
    requires small { budget < 2 ^ 32 - 1 }
    ensures reached { IfOk result (IsReached budget states.old next.now states.new) }
    ensures few { IfOk result (λ _. length states.new ≤ budget) }
{
    if let Some(number) = states.find(next) {
        return Ok(Some(number));
    }
    if states.len() >= budget {
        return Ok(None);
    }
    let number = states.add(next.copy(alloc)?)?;
    Ok(Some(number))
}

/// Puts the numbers of the states to which the outcomes of an action lead into the targets of `scratch`. Whether there is
/// room for all of them.
fn reach_all(
    alloc: Global,
    t: &Task,
    states: &mut Store,
    state: &State,
    act: u32,
    budget: u32,
    scratch: &mut Scratch,
) -> Result<bool, NoMemory>
    requires few { length states.old ≤ budget }
    requires small { budget < 2 ^ 32 - 1 }
    requires long { length state.now ≡ length t.now.atoms }
    requires next_long { length scratch.old.next ≡ length t.now.atoms }
    requires there { act < length t.now.acts }
    requires applicable { (a : Act) → slice_get t.now.acts act ≡ Some a → is_true state.now a.pre ≡ true }
    ensures next_long { length scratch.new.next ≡ length t.now.atoms }
    ensures few { IfOk result (λ _. length states.new ≤ budget) }
    ensures grown { IfOk result (λ _. IsGrown t.now state.now states.old states.new) }
    ensures room { IfOk result (λ room. MatchBool room ((a : Act) → slice_get t.now.acts act ≡ Some a → AreNexts states.new state.now scratch.new.targets.items a.outcomes) (IsFull t.now state.now budget states.new)) }
{
    scratch.targets.clear();
    for outcome in 0..t.acts.get(act as usize).outcomes.len() {
        apply_into(t, state, act, outcome as u32, &mut scratch.next);
        match reach(alloc, states, &scratch.next, budget)? {
            Some(node) => scratch.targets.push(node)?,
            None => return Ok(false),
        }
    }
    Ok(true)
}

/// Adds the move of an action, if it is applicable in the state to be opened, unless an equal move was kept recently. Whether
/// there is room for the states to which it leads.
fn open_act(
    alloc: Global,
    t: &Task,
    space: &mut Space,
    state: &State,
    act: u32,
    budget: u32,
    scratch: &mut Scratch,
) -> Result<bool, NoMemory>
    requires few { length space.old.states ≤ budget }
    requires small { budget < 2 ^ 32 - 1 }
    requires long { length state.now ≡ length t.now.atoms }
    requires next_long { length scratch.old.next ≡ length t.now.atoms }
    requires there { act < length t.now.acts }
    requires here { slice_get space.old.states space.old.opened ≡ Some state.now }
    requires no_goal { ¬ IsGoal t.now state.now }
    ensures next_long { length scratch.new.next ≡ length t.now.atoms }
    ensures few { IfOk result (λ _. length space.new.states ≤ budget) }
    ensures opening { IfOk result (λ _. IsOpening t.now state.now space.old space.new) }
    ensures room { IfOk result (λ room. MatchBool room ((a : Act) → slice_get t.now.acts act ≡ Some a → is_true state.now a.pre ≡ true → HasMove space.new.states space.new.moves space.old.opened state.now a) (IsFull t.now state.now budget space.new.states)) }
{
    if !applicable(t, state, act) {
        return Ok(true);
    }
    if !reach_all(alloc, t, &mut space.states, state, act, budget, scratch)? {
        return Ok(false);
    }
    let unfair = t.acts.get(act as usize).unfair;
    scratch.recent.keep(
        &mut space.moves,
        space.opened,
        act,
        unfair,
        scratch.targets.as_slice(),
    )?;
    Ok(true)
}

/// Adds the moves of the candidates that are applicable in the state to be opened, equal ones once. Whether there is room for
/// the states to which they lead.
fn open_acts(
    alloc: Global,
    t: &Task,
    acts: &[u32],
    space: &mut Space,
    state: &State,
    budget: u32,
    scratch: &mut Scratch,
) -> Result<bool, NoMemory>
    requires few { length space.old.states ≤ budget }
    requires small { budget < 2 ^ 32 - 1 }
    requires long { length state.now ≡ length t.now.atoms }
    requires next_long { length scratch.old.next ≡ length t.now.atoms }
    requires here { slice_get space.old.states space.old.opened ≡ Some state.now }
    requires no_goal { ¬ IsGoal t.now state.now }
    requires candidates { AreCandidates t.now state.now acts.now }
    ensures next_long { length scratch.new.next ≡ length t.now.atoms }
    ensures few { IfOk result (λ _. length space.new.states ≤ budget) }
    ensures opening { IfOk result (λ _. IsOpening t.now state.now space.old space.new) }
    ensures room { IfOk result (λ room. MatchBool room ((number : ℕ) (a : Act) → slice_get t.now.acts number ≡ Some a → is_true state.now a.pre ≡ true → HasMove space.new.states space.new.moves space.old.opened state.now a) (IsFull t.now state.now budget space.new.states)) }
{
    for act in acts {
        if !open_act(alloc, t, space, state, *act, budget, scratch)? {
            return Ok(false);
        }
    }
    Ok(true)
}

/// Opens the next state: afterwards the moves of all actions that are applicable in it are there, equal ones once, unless
/// there is no room for the states to which they lead. Whether there is room. Takes time in the number of atoms and, for each
/// candidate, in the size of its precondition and, if it is applicable, in the number of atoms times that of the outcomes.
fn open_next(
    alloc: Global,
    t: &Task,
    index: &ActIndex,
    space: &mut Space,
    budget: u32,
    scratch: &mut Scratch,
    acts: &mut Vec<u32>,
) -> Result<bool, NoMemory>
    requires few { length space.old.states ≤ budget }
    requires small { budget < 2 ^ 32 - 1 }
    requires index { IsIndexOf t.now index.now }
    requires next_long { length scratch.old.next ≡ length t.now.atoms }
    requires left { space.old.opened < length space.old.states }
    requires space { (from : List Bool) × IsSpaceFrom t.now from space.old }
    ensures next_long { length scratch.new.next ≡ length t.now.atoms }
    ensures few { IfOk result (λ _. length space.new.states ≤ budget) }
    ensures keeps { IfOk result (λ _. (from : List Bool) → IsSpaceFrom t.now from space.old → IsSpaceFrom t.now from space.new) }
    ensures opened { IfOk result (λ room. room ≡ true → space.new.opened ≡ space.old.opened + 1) }
    ensures past { IfOk result (λ room. room ≡ false → (from : List Bool) → IsSpaceFrom t.now from space.old → IsPast t.now from budget) }
{
    let state = space.states.get(space.opened).copy(alloc)?;
    if is_goal(t, &state) {
        space.opened += 1;
        return Ok(true);
    }
    candidates(index, t, &state, acts)?;
    if !open_acts(alloc, t, acts.as_slice(), space, &state, budget, scratch)? {
        return Ok(false);
    }
    space.opened += 1;
    Ok(true)
}

/// Opens at most as many states as are opened already, and at least one if one is left. Whether there is room for the states
/// to which their moves lead.
pub(crate) fn open_batch(
    alloc: Global,
    t: &Task,
    index: &ActIndex,
    space: &mut Space,
    budget: u32,
    scratch: &mut Scratch,
    acts: &mut Vec<u32>,
) -> Result<bool, NoMemory>
    requires few { length space.old.states ≤ budget }
    requires small { budget < 2 ^ 32 - 1 }
    requires index { IsIndexOf t.now index.now }
    requires next_long { length scratch.old.next ≡ length t.now.atoms }
    requires space { (from : List Bool) × IsSpaceFrom t.now from space.old }
    ensures next_long { length scratch.new.next ≡ length t.now.atoms }
    ensures few { IfOk result (λ _. length space.new.states ≤ budget) }
    ensures keeps { IfOk result (λ _. (from : List Bool) → IsSpaceFrom t.now from space.old → IsSpaceFrom t.now from space.new) }
    ensures more { IfOk result (λ room. room ≡ true → (space.old.opened < space.new.opened) ⊎ (length space.new.states ≤ space.new.opened)) }
    ensures past { IfOk result (λ room. room ≡ false → (from : List Bool) → IsSpaceFrom t.now from space.old → IsPast t.now from budget) }
{
    for _ in 0..space.opened.max(1) {
        if space.opened >= space.states.len() {
            return Ok(true);
        }
        if !open_next(alloc, t, index, space, budget, scratch, acts)? {
            return Ok(false);
        }
    }
    Ok(true)
}

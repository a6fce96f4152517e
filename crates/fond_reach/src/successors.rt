//! The states to which an action leads, with their numbers.

ghost use Rattle.fond_games.specs.Renaming.{FirstUsed};
ghost use Rattle.fond_policy.specs.Walks.{Grows};
ghost use Rattle.fond_reach.specs.Graphs.{IsNode, LeadsEach, numbers_after};
ghost use Rattle.fond_store.specs.Stores.{Adds};
ghost use Rattle.fond_task.specs.Policies.{IsGoal, IsNext};
ghost use Rattle.fond_task.specs.Truth.{is_true};
ghost use Rattle.fond_task.specs.declared.task.Act.{Act};
ghost use Rattle.std.specs.Prelude.{◌≡◌, ◌<◌, ℕ, true, length, slice_get, Some, IfOk, OnOk};

use crate::chooser::Chooser;
use crate::node::{Nexts, Node};
use fond_state::state::State;
use fond_store::store::Store;
use fond_task::step::apply_into;
use fond_task::task::Task;
use fond_task::truth::{applicable, is_goal};
use fond_text::fault::NoMemory;
use std::alloc::Global;

/// The number of the state, which is added if it is not there. Reports that memory ran out after 2^32 - 1 states.
fn number_of(alloc: Global, state: &State, states: &mut Store) -> Result<u32, NoMemory>
    ensures { IfOk result (λ n. Adds states.old state.now n states.new) }
{
    if let Some(number) = states.find(state) {
        return Ok(number);
    }
    if states.len() == u32::MAX {
        return Err(NoMemory);
    }
    states.add(state.copy(alloc)?)
}

/// The numbers of the states to which the outcomes of the action lead, with these states added. `next` is overwritten.
fn nexts_of(
    alloc: Global,
    t: &Task,
    act: u32,
    state: &State,
    next: &mut State,
    states: &mut Store,
) -> Result<Nexts, NoMemory>
    requires there { act < length t.now.acts }
    requires long { length state.now ≡ length t.now.atoms }
    requires next_long { length next.old ≡ length t.now.atoms }
    requires applicable { (a : Act) → slice_get t.now.acts act ≡ Some a → is_true state.now a.pre ≡ true }
    ensures same_length { length next.new ≡ length next.old }
    ensures grows { OnOk result (Grows (IsNext t.now state.now act) states.old states.new) }
    ensures leads { IfOk result (LeadsEach t.now states.new state.now act) }
    ensures ordered { IfOk result (λ nexts. FirstUsed (length states.old) nexts (length states.new)) }
{
    let mut nexts = Nexts::new(alloc);
    for outcome in 0..t.acts.get(act as usize).outcomes.len() {
        apply_into(t, state, act, outcome as u32, next);
        nexts.push(number_of(alloc, next, states)?)?;
    }
    Ok(nexts)
}

/// The node of a state, with the states to which the choice leads added. `next` is overwritten.
pub(crate) fn node_of<C: Chooser>(
    alloc: Global,
    t: &Task,
    chooser: &C,
    state: &State,
    next: &mut State,
    states: &mut Store,
) -> Result<Node, NoMemory>
    requires task { C.task chooser.now ≡ t.now }
    requires long { length state.now ≡ length t.now.atoms }
    requires next_long { length next.old ≡ length t.now.atoms }
    ensures same_length { length next.new ≡ length next.old }
    ensures grows { OnOk result (Grows (λ after. (¬ IsGoal t.now state.now) × ((act : ℕ) × (C.policy chooser.now state.now ≡ Some act) × IsNext t.now state.now act after)) states.old states.new) }
    ensures node { IfOk result (IsNode t.now (C.policy chooser.now) states.new state.now) }
    ensures ordered { IfOk result (λ node. FirstUsed (length states.old) (numbers_after node) (length states.new)) }
{
    if is_goal(t, state) {
        return Ok(Node::Goal);
    }
    let Some(act) = chooser.choose(state) else {
        return Ok(Node::Stuck);
    };
    if !applicable(t, state, act) {
        return Ok(Node::Stuck);
    }
    let nexts = nexts_of(alloc, t, act, state, next, states)?;
    Ok(Node::Acts { act, nexts })
}

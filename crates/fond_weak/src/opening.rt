//! Opening states: trying each action that is applicable in them.

ghost use Rattle.fond_explicit.specs.Filings.{IsIndexOf, AreCandidates};
ghost use Rattle.fond_task.specs.Policies.{IsGoal};
ghost use Rattle.fond_task.specs.Truth.{is_true};
ghost use Rattle.fond_task.specs.declared.task.Act.{Act};
ghost use Rattle.fond_weak.specs.Settings.{AreTriedIn, IsOpenedIn, IsTreeIn};
ghost use Rattle.fond_weak.specs.Trees.{IsMore, IsTried, MayLose};
ghost use Rattle.std.specs.Prelude.{◌≡◌, ◌<◌, List, Bool, true, length, slice_get, Some, OnOk};

use crate::grow::{add_nexts, node_of};
use crate::setting::Setting;
use crate::tree::{Node, Scratch, Tree};
use fond_explicit::act_index::ActIndex;
use fond_explicit::filing::candidates;
use fond_state::state::State;
use fond_task::step::apply_into;
use fond_task::truth::applicable;
use fond_text::fault::NoMemory;
use std::alloc::Global;

/// Whether some outcome of the action leads from the state into a layer. `next` is overwritten. Takes, if there are layers, for
/// each outcome time in the number of atoms and in its size, and that of `Layers::dead`.
fn may_lose(setting: &Setting, state: &State, act: u32, next: &mut State) -> bool
    requires long { length state.now ≡ length setting.now.task.now.atoms }
    requires there { act < length setting.now.task.now.acts }
    requires applicable { (a : Act) → slice_get setting.now.task.now.acts act ≡ Some a → is_true state.now a.pre ≡ true }
    requires next_long { length next.old ≡ length setting.now.task.now.atoms }
    ensures next_long { length next.new ≡ length next.old }
    ensures loses { result ≡ true → (a : Act) → slice_get setting.now.task.now.acts act ≡ Some a → MayLose setting.now.layers.now state.now a }
{
    if setting.layers.len() == 0 {
        return false;
    }
    for outcome in 0..setting.task.acts.get(act as usize).outcomes.len() {
        apply_into(setting.task, state, act, outcome as u32, next);
        if setting.layers.dead(next).is_some() {
            return true;
        }
    }
    false
}

/// Tries an action in the state of a node, if it is applicable there: adds the states to which it leads, unless a pair bars it or
/// it may lead into a layer. `next` is overwritten.
fn try_act(
    alloc: Global,
    setting: &Setting,
    tree: &mut Tree,
    node: &Node,
    act: u32,
    next: &mut State,
) -> Result<(), NoMemory>
    requires tree { IsTreeIn setting.now tree.old }
    requires here { slice_get tree.old.states node.now.number ≡ Some node.now.state }
    requires open_ { ¬ IsGoal setting.now.task.now node.now.state }
    requires there { act < length setting.now.task.now.acts }
    requires next_long { length next.old ≡ length setting.now.task.now.atoms }
    ensures next_long { length next.new ≡ length next.old }
    ensures tree { OnOk result (IsTreeIn setting.now tree.new) }
    ensures more { OnOk result (IsMore tree.old.states tree.new.states) }
    ensures tried { OnOk result ((a : Act) → slice_get setting.now.task.now.acts act ≡ Some a → is_true node.now.state a.pre ≡ true →
        IsTried setting.now.layers.now setting.now.pairs.now tree.new.states node.now.state act a) }
{
    if !applicable(setting.task, &node.state, act) {
        return Ok(());
    }
    if setting.is_barred(act, &node.full) {
        return Ok(());
    }
    if may_lose(setting, &node.state, act, next) {
        return Ok(());
    }
    add_nexts(alloc, setting, tree, node, act, next)
}

/// Tries the candidates in the state of a node. `next` is overwritten.
fn try_acts(
    alloc: Global,
    setting: &Setting,
    tree: &mut Tree,
    node: &Node,
    acts: &[u32],
    next: &mut State,
) -> Result<(), NoMemory>
    requires tree { IsTreeIn setting.now tree.old }
    requires here { slice_get tree.old.states node.now.number ≡ Some node.now.state }
    requires open_ { ¬ IsGoal setting.now.task.now node.now.state }
    requires candidates { AreCandidates setting.now.task.now node.now.state acts.now }
    requires next_long { length next.old ≡ length setting.now.task.now.atoms }
    ensures next_long { length next.new ≡ length next.old }
    ensures tree { OnOk result (IsTreeIn setting.now tree.new) }
    ensures more { OnOk result (IsMore tree.old.states tree.new.states) }
    ensures tried { OnOk result (AreTriedIn setting.now tree.new.states node.now.state) }
{
    for act in acts {
        try_act(alloc, setting, tree, node, *act, next)?;
    }
    Ok(())
}

/// Opens the state of a node, which is no goal.
fn open_node(
    alloc: Global,
    setting: &Setting,
    index: &ActIndex,
    tree: &mut Tree,
    node: &Node,
    scratch: &mut Scratch,
) -> Result<(), NoMemory>
    requires index { IsIndexOf setting.now.task.now index.now }
    requires tree { IsTreeIn setting.now tree.old }
    requires here { slice_get tree.old.states node.now.number ≡ Some node.now.state }
    requires open_ { ¬ IsGoal setting.now.task.now node.now.state }
    requires next_long { length scratch.old.next ≡ length setting.now.task.now.atoms }
    ensures next_long { length scratch.new.next ≡ length scratch.old.next }
    ensures tree { OnOk result (IsTreeIn setting.now tree.new) }
    ensures more { OnOk result (IsMore tree.old.states tree.new.states) }
    ensures opened { OnOk result (IsOpenedIn setting.now tree.new.states node.now.state) }
{
    candidates(index, setting.task, &node.state, &mut scratch.acts)?;
    try_acts(
        alloc,
        setting,
        tree,
        node,
        scratch.acts.as_slice(),
        &mut scratch.next,
    )
}

/// Opens the state of a number, which is no goal. Takes time in the number of atoms and, for each candidate, in the size of its
/// precondition and, if it is applicable, in the number of atoms times that of the pairs of the action and of its outcomes.
pub(crate) fn open_state(
    alloc: Global,
    setting: &Setting,
    index: &ActIndex,
    tree: &mut Tree,
    number: u32,
    scratch: &mut Scratch,
) -> Result<(), NoMemory>
    requires index { IsIndexOf setting.now.task.now index.now }
    requires tree { IsTreeIn setting.now tree.old }
    requires there { number < length tree.old.states }
    requires open_ { (state : List Bool) → slice_get tree.old.states number ≡ Some state → ¬ IsGoal setting.now.task.now state }
    requires next_long { length scratch.old.next ≡ length setting.now.task.now.atoms }
    ensures next_long { length scratch.new.next ≡ length scratch.old.next }
    ensures tree { OnOk result (IsTreeIn setting.now tree.new) }
    ensures more { OnOk result (IsMore tree.old.states tree.new.states) }
    ensures opened { OnOk result ((state : List Bool) → slice_get tree.old.states number ≡ Some state → IsOpenedIn setting.now tree.new.states state) }
{
    let node = node_of(alloc, tree, number)?;
    open_node(alloc, setting, index, tree, &node, scratch)
}

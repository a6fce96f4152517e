//! Finding more states.

ghost use Rattle.fond_task.specs.Policies.{IsGoal};
ghost use Rattle.fond_task.specs.Truth.{is_true};
ghost use Rattle.fond_task.specs.declared.task.Act.{Act};
ghost use Rattle.fond_regress.specs.Barred.{IsBarred};
ghost use Rattle.fond_weak.specs.Settings.{IsTreeIn};
ghost use Rattle.fond_weak.specs.Trees.{IsMore, LeadsTo, StaysAmong};
ghost use Rattle.std.specs.Prelude.{◌≡◌, ◌<◌, [], ◌∷◌, true, length, slice_get, Some, Contains, IfOk, OnOk};

use crate::setting::Setting;
use crate::tree::{Link, Node, Tree};
use fond_state::cube::Cube;
use fond_state::state::State;
use fond_store::store::Store;
use fond_task::plan_step::PlanStep;
use fond_task::step::apply_into;
use fond_text::fault::NoMemory;
use std::alloc::Global;

/// A store of one state.
fn one_state(alloc: Global, state: &State) -> Result<Store, NoMemory>
    ensures { IfOk result (λ states. states ≡ state.now ∷ []) }
{
    let mut states = Store::new(alloc);
    states.add(state.copy(alloc)?)?;
    Ok(states)
}

/// The tree of the state from which a plan is looked for.
pub(crate) fn first_tree(alloc: Global, setting: &Setting) -> Result<Tree, NoMemory>
    ensures { IfOk result (IsTreeIn setting.now) }
{
    let states = one_state(alloc, setting.from)?;
    let mut links = Vec::new(alloc);
    links.push(None)?;
    Ok(Tree { states, links })
}

/// The state of a number, with its full cube.
pub(crate) fn node_of(alloc: Global, tree: &Tree, number: u32) -> Result<Node, NoMemory>
    requires { number < length tree.now.states }
    ensures number { IfOk result (λ node. node.number ≡ number) }
    ensures state { IfOk result (λ node. slice_get tree.now.states number ≡ Some node.state) }
{
    let state = tree.states.get(number).copy(alloc)?;
    let full = Cube::full(alloc, &state)?;
    Ok(Node {
        number,
        state,
        full,
    })
}

/// Adds a state with the link that leads to it, unless it was found before. Reports that memory ran out after 2^32 - 2 states.
/// Takes time in the number of atoms.
fn add_state(
    alloc: Global,
    setting: &Setting,
    tree: &mut Tree,
    next: &State,
    link: Link,
) -> Result<(), NoMemory>
    requires tree { IsTreeIn setting.now tree.old }
    requires leads { LeadsTo setting.now.task.now setting.now.pairs.now tree.old.states (length tree.old.states) link next.now }
    ensures tree { OnOk result (IsTreeIn setting.now tree.new) }
    ensures more { OnOk result (IsMore tree.old.states tree.new.states) }
    ensures has { OnOk result (Contains tree.new.states next.now) }
{
    if tree.states.find(next).is_some() {
        return Ok(());
    }
    if tree.states.len() >= u32::MAX - 1 {
        return Err(NoMemory);
    }
    tree.links.push(Some(link))?;
    tree.states.add(next.copy(alloc)?)?;
    Ok(())
}

/// Adds the states to which an action that may be taken leads from the state of a node. `next` is overwritten. Takes, for each
/// outcome, time in the number of atoms and in its size.
pub(crate) fn add_nexts(
    alloc: Global,
    setting: &Setting,
    tree: &mut Tree,
    node: &Node,
    act: u32,
    next: &mut State,
) -> Result<(), NoMemory>
    requires tree { IsTreeIn setting.now tree.old }
    requires here { slice_get tree.old.states node.now.number ≡ Some node.now.state }
    requires open_ { ¬ IsGoal setting.now.task.now node.now.state }
    requires there { act < length setting.now.task.now.acts }
    requires applicable { (a : Act) → slice_get setting.now.task.now.acts act ≡ Some a → is_true node.now.state a.pre ≡ true }
    requires free { ¬ IsBarred setting.now.pairs.now act node.now.state }
    requires next_long { length next.old ≡ length setting.now.task.now.atoms }
    ensures next_long { length next.new ≡ length next.old }
    ensures tree { OnOk result (IsTreeIn setting.now tree.new) }
    ensures more { OnOk result (IsMore tree.old.states tree.new.states) }
    ensures stays { OnOk result ((a : Act) → slice_get setting.now.task.now.acts act ≡ Some a → StaysAmong tree.new.states node.now.state a) }
{
    for outcome in 0..setting.task.acts.get(act as usize).outcomes.len() {
        let step = PlanStep {
            act,
            outcome: outcome as u32,
        };
        let link = Link {
            from: node.number,
            step,
        };
        apply_into(setting.task, &node.state, act, step.outcome, next);
        add_state(alloc, setting, tree, next, link)?;
    }
    Ok(())
}

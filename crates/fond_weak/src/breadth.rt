//! Opening states breadth first.

ghost use Rattle.fond_explicit.specs.Filings.{IsIndexOf};
ghost use Rattle.fond_task.specs.Policies.{IsGoal};
ghost use Rattle.fond_state.specs.Cubes.{full_cube};
ghost use Rattle.fond_weak.specs.Settings.{HasSurePairs, IsFoundIn, IsPlanIn, IsTreeIn};
ghost use Rattle.std.specs.Prelude.{◌≡◌, ◌<◌, List, Bool, length, map, slice_get, Some, IfOk};

use crate::grow::first_tree;
use crate::opening::open_state;
use crate::setting::Setting;
use crate::tree::{Scratch, Tree};
use crate::weak::Weak;
use fond_explicit::act_index::ActIndex;
use fond_explicit::filing::index_of;
use fond_layers::layers::Layer;
use fond_state::cube::Cube;
use fond_store::store::Store;
use fond_task::plan_step::PlanSteps;
use fond_task::truth::is_goal;
use fond_text::fault::NoMemory;
use fond_text::list::List;
use std::alloc::Global;

/// The steps by which the state of a number was found, which is a goal. Takes time in their number.
fn steps_to(
    alloc: Global,
    setting: &Setting,
    tree: &Tree,
    number: u32,
) -> Result<PlanSteps, NoMemory>
    requires tree { IsTreeIn setting.now tree.now }
    requires there { number < length tree.now.states }
    requires goal { (state : List Bool) → slice_get tree.now.states number ≡ Some state → IsGoal setting.now.task.now state }
    ensures { IfOk result (IsPlanIn setting.now) }
{
    let mut steps = Vec::new(alloc);
    let mut at = number;
    while let Some(link) = tree.links[at as usize] {
        steps.push(link.step)?;
        at = link.from;
    }
    steps.reverse();
    Ok(List::of(steps))
}

/// The full cubes of states. Takes time and memory in the number of states times that of the atoms.
fn full_cubes(alloc: Global, states: &Store) -> Result<Layer, NoMemory>
    ensures full { IfOk result (λ layer. layer ≡ map full_cube states.now) }
{
    let mut layer = List::new(alloc);
    for number in 0..states.len() {
        layer.push(Cube::full(alloc, states.get(number))?)?;
    }
    Ok(layer)
}

/// Opens states in the order in which they were found, until one is a goal, or more than `limit` are found, or all are opened.
fn open_all(
    alloc: Global,
    setting: &Setting,
    index: &ActIndex,
    tree: &mut Tree,
    limit: u64,
    scratch: &mut Scratch,
) -> Result<Weak, NoMemory>
    requires index { IsIndexOf setting.now.task.now index.now }
    requires pairs_sure { HasSurePairs setting.now }
    requires tree { IsTreeIn setting.now tree.old }
    requires next_long { length scratch.old.next ≡ length setting.now.task.now.atoms }
    ensures { IfOk result (IsFoundIn setting.now limit) }
{
    let mut at = 0;
    while at < tree.states.len() {
        if is_goal(setting.task, tree.states.get(at)) {
            return Ok(Weak::Plan(steps_to(alloc, setting, tree, at)?));
        }
        if tree.states.len() as u64 > limit {
            return Ok(Weak::Spent);
        }
        open_state(alloc, setting, index, tree, at, scratch)?;
        at += 1;
    }
    Ok(Weak::Unreachable(full_cubes(alloc, &tree.states)?))
}

/// What opening states from those of a tree on finds out.
fn open_tree(
    alloc: Global,
    setting: &Setting,
    index: &ActIndex,
    tree: &mut Tree,
    limit: u64,
) -> Result<Weak, NoMemory>
    requires index { IsIndexOf setting.now.task.now index.now }
    requires pairs_sure { HasSurePairs setting.now }
    requires tree { IsTreeIn setting.now tree.old }
    ensures { IfOk result (IsFoundIn setting.now limit) }
{
    let next = setting.from.copy(alloc)?;
    let mut scratch = Scratch {
        next,
        acts: Vec::new(alloc),
    };
    open_all(alloc, setting, index, tree, limit, &mut scratch)
}

/// What opening states by an index of the actions finds out.
fn open_by(alloc: Global, setting: &Setting, index: &ActIndex, limit: u64) -> Result<Weak, NoMemory>
    requires index { IsIndexOf setting.now.task.now index.now }
    requires pairs_sure { HasSurePairs setting.now }
    ensures { IfOk result (IsFoundIn setting.now limit) }
{
    let mut tree = first_tree(alloc, setting)?;
    open_tree(alloc, setting, index, &mut tree, limit)
}

/// What opening states breadth first finds out. Takes time in the number of the states that are opened times that of
/// `open_state`. At most `limit` states are kept, and the next states of one of them.
pub(crate) fn open_from(alloc: Global, setting: &Setting, limit: u64) -> Result<Weak, NoMemory>
    requires { HasSurePairs setting.now }
    ensures { IfOk result (IsFoundIn setting.now limit) }
{
    let index = index_of(alloc, setting.task)?;
    open_by(alloc, setting, &index, limit)
}

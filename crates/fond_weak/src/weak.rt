//! Weak plans from a state.

ghost use Rattle.fond_task.specs.Layers.{AreSureLayers, IsSurePair};
ghost use Rattle.fond_task.specs.declared.rule.Pair.{Pair};
ghost use Rattle.fond_layers.specs.Over.{AreOver};
ghost use Rattle.fond_rules.specs.Belongs.{ArePairsOver};
ghost use Rattle.fond_weak.specs.Weak.{IsFound, ShowsLost};
ghost use Rattle.std.specs.Prelude.{◌≡◌, length, Contains, IfOk, IfSome};

use crate::breadth::open_from;
use crate::hint::planned;
use crate::setting::Setting;
use fond_layers::layers::{Layer, Layers};
use fond_rules::pairs::Pairs;
use fond_state::state::State;
use fond_task::plan_step::PlanSteps;
use fond_task::task::Task;
use fond_text::fault::NoMemory;
use fond_text::list::List;
use std::alloc::Global;

/// What is found out about a state.
#[derive(Drop)]
pub enum Weak {
    /// Steps from the state to a goal.
    Plan(PlanSteps),
    /// No policy wins from the state: this layer has it, and is sure above those that are there.
    Unreachable(Layer),
    /// More states than the limit are reachable from the state.
    Spent,
}

/// The layer of one cube of the layers in which the state lies, if there is one.
fn lost_layer(alloc: Global, setting: &Setting) -> Result<Option<Layer>, NoMemory>
    requires { AreSureLayers setting.now.task.now setting.now.layers.now }
    ensures { IfOk result (λ found. IfSome found (λ layer. ShowsLost setting.now.task.now setting.now.layers.now setting.now.from.now layer)) }
{
    let Some((layer, cube)) = setting.layers.dead(setting.from) else {
        return Ok(None);
    };
    let cube = setting.layers.get(layer).get(cube as usize).copy(alloc)?;
    let mut lost = List::new(alloc);
    lost.push(cube)?;
    Ok(Some(lost))
}

/// A weak plan from a state that avoids pairs and dead cubes, or a layer which shows that there is none, or that more states are
/// reachable than the limit. A state in a cube of the layers is lost by that cube alone. Otherwise the engine is asked first, and
/// if its steps are no weak plan, states are opened breadth first: takes the time of the engine and, for each state that is
/// opened, time in the number of atoms times that of the outcomes of its applicable actions. Keeps at most `limit` states, and
/// the next states of one of them.
pub fn weak_plan(
    alloc: Global,
    t: &Task,
    s: &State,
    layers: &Layers,
    pairs: &Pairs,
    limit: u64,
) -> Result<Weak, NoMemory>
    requires long { length s.now ≡ length t.now.atoms }
    requires over { AreOver (length t.now.atoms) layers.now }
    requires pairs_over { ArePairsOver (length t.now.atoms) pairs.now }
    requires layers_sure { AreSureLayers t.now layers.now }
    requires pairs_sure { (pair : Pair) → Contains pairs.now pair → IsSurePair t.now layers.now pair }
    ensures { IfOk result (IsFound t.now layers.now pairs.now s.now limit) }
{
    let setting = Setting {
        task: t,
        layers,
        pairs,
        from: s,
    };
    if let Some(layer) = lost_layer(alloc, &setting)? {
        return Ok(Weak::Unreachable(layer));
    }
    if let Some(steps) = planned(alloc, &setting, limit)? {
        return Ok(Weak::Plan(steps));
    }
    open_from(alloc, &setting, limit)
}

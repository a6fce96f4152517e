//! Steps that the engine hints at, if they are a weak plan.

ghost use Rattle.fond_weak.specs.Settings.{IsPlanIn};
ghost use Rattle.std.specs.Prelude.{IfOk, IfSome};

use crate::plan::is_plan;
use crate::setting::Setting;
use fond_guess::engine::Engine;
use fond_layers::layers::{Layer, Layers};
use fond_moves::moves::Moves;
use fond_rules::pairs::Pairs;
use fond_task::hint::Hint;
use fond_task::plan_step::PlanSteps;
use fond_text::fault::NoMemory;
use std::alloc::Global;

/// The work that the engine may do for one plan.
const WORK: u64 = 1_000_000_000;

/// Tells the engine that the states of a layer are dead.
fn add_layer(engine: &mut Engine, layer: &Layer) -> Result<(), NoMemory> {
    for cube in layer.as_slice() {
        engine.add_dead(cube)?;
    }
    Ok(())
}

/// Tells the engine that the states of all layers are dead.
fn add_layers(engine: &mut Engine, layers: &Layers) -> Result<(), NoMemory> {
    for number in 0..layers.len() {
        add_layer(engine, layers.get(number))?;
    }
    Ok(())
}

/// Tells the engine which actions are barred where.
fn add_pairs(engine: &mut Engine, pairs: &Pairs) -> Result<(), NoMemory> {
    for number in 0..pairs.len() {
        let pair = pairs.get(number);
        engine.add_pair(pair.act, &pair.cond)?;
    }
    Ok(())
}

/// Steps at which the engine hints, if it has any. They may be wrong.
fn hinted(alloc: Global, setting: &Setting, limit: u64) -> Result<Option<PlanSteps>, NoMemory> {
    let moves = Moves::shared(alloc, setting.task)?;
    let mut engine = Engine::new(alloc, setting.task, moves)?;
    add_layers(&mut engine, setting.layers)?;
    add_pairs(&mut engine, setting.pairs)?;
    let states = u32::try_from(limit).unwrap_or(u32::MAX);
    match engine.plan(alloc, setting.from, states, WORK)? {
        Hint::Steps(steps) => Ok(Some(steps)),
        Hint::DeadEnd | Hint::Spent => Ok(None),
    }
}

/// The steps at which the engine hints, if they are a weak plan.
pub(crate) fn planned(
    alloc: Global,
    setting: &Setting,
    limit: u64,
) -> Result<Option<PlanSteps>, NoMemory>
    ensures { IfOk result (λ found. IfSome found (IsPlanIn setting.now)) }
{
    let Some(steps) = hinted(alloc, setting, limit)? else {
        return Ok(None);
    };
    if !is_plan(alloc, setting, steps.as_slice())? {
        return Ok(None);
    }
    Ok(Some(steps))
}

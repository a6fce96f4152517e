//! Layers that the source proposes. Each is kept only if it is sure.

ghost use Rattle.fond_explicit.specs.Answers.{AreStuck};
ghost use Rattle.fond_planner.specs.Planners.{IsPlanner, Keeps};
ghost use Rattle.fond_task.specs.Certificates.{LiesInLayers};
ghost use Rattle.fond_task.specs.Layers.{AreSureLayers};
ghost use Rattle.std.specs.Prelude.{◌≡◌, List, Bool, true, length, IfOk, OnOk};

use crate::limits::{LAYERS, lost_effort};
use crate::planner::Planner;
use fond_draft::source::Source;
use fond_layers::layers::{Layer, Layers};
use fond_state::state::State;
use fond_task::hint::LayerHint;
use fond_task::task::Task;
use fond_text::fault::NoMemory;
use std::alloc::Global;

/// Sure layers in which each state lies that lies in these, whose states are lost: of few cubes where the source finds some. Takes the
/// time of `Planner::learn_lost`.
pub fn small_layers<S: Source>(alloc: Global, t: &Task, layers: Layers) -> Result<Layers, NoMemory>
    requires { (from : List Bool) × (length from ≡ length t.now.atoms) × AreStuck t.now from layers }
    ensures sure { IfOk result (AreSureLayers t.now) }
    ensures has { IfOk result (λ small. (state : List Bool) → LiesInLayers state layers → LiesInLayers state small) }
{
    let mut planner = Planner::<S>::new(alloc, t, 0)?;
    planner.learn_lost(alloc, &layers)?;
    planner.draft.learn(alloc, t, layers)?;
    Ok(planner.draft.layers)
}

impl<S: Source> Planner<'_, S> {
    /// Appends the layers that the source proposes, as long as they are sure. Returns whether the state around which they were to
    /// be lies in one, as far as the source tells.
    fn learn_proposed(&mut self, alloc: Global) -> Result<bool, NoMemory>
        requires { IsPlanner self.old }
        ensures { OnOk result (Keeps self.old self.new) }
    {
        for _layer in 0..LAYERS {
            match self.source.next_layer(alloc, &self.draft)? {
                LayerHint::Layer(layer) => {
                    if !self.draft.learn_layer(alloc, self.task, layer)? {
                        return Ok(false);
                    }
                }
                LayerHint::Found => return Ok(true),
                LayerHint::Nothing => return Ok(false),
            }
        }
        Ok(false)
    }

    /// Appends sure layers that the source finds around the state. Returns whether it lies in a layer then.
    pub(crate) fn learn_layers(&mut self, alloc: Global, state: &State) -> Result<bool, NoMemory>
        requires planner { IsPlanner self.old }
        requires long { length state.now ≡ length self.old.task.now.atoms }
        ensures keeps { OnOk result (Keeps self.old self.new) }
        ensures lies { IfOk result (λ learnt. learnt ≡ true → LiesInLayers state.now self.new.draft.layers) }
    {
        self.source.begin_layers(&self.draft, state)?;
        self.learn_proposed(alloc)?;
        Ok(self.draft.layers.dead(state).is_some())
    }

    /// Appends sure layers that the source finds around the states of the full cubes of a layer. Returns false once it finds none
    /// for one of them.
    fn learn_around(&mut self, alloc: Global, layer: &Layer) -> Result<bool, NoMemory>
        requires { IsPlanner self.old }
        ensures { OnOk result (Keeps self.old self.new) }
    {
        for cube in layer {
            self.source.begin_layers_in(&self.draft, cube)?;
            if !self.learn_proposed(alloc)? {
                return Ok(false);
            }
        }
        Ok(true)
    }

    /// Appends sure layers that the source finds around the states of the full cubes of these layers, one after the other, as long
    /// as it finds some for each of them.
    fn learn_around_all(&mut self, alloc: Global, layers: &Layers) -> Result<(), NoMemory>
        requires { IsPlanner self.old }
        ensures { OnOk result (Keeps self.old self.new) }
    {
        for number in 0..layers.len() {
            if !self.learn_around(alloc, layers.get(number))? {
                return Ok(());
            }
        }
        Ok(())
    }

    /// Appends sure layers of few cubes in place of layers of full cubes, whose states are lost: a cube may stand for many of these
    /// states. There may be none for some of them.
    pub(crate) fn learn_lost(&mut self, alloc: Global, layers: &Layers) -> Result<(), NoMemory>
        requires { IsPlanner self.old }
        ensures { OnOk result (Keeps self.old self.new) }
    {
        self.source
            .allow(alloc, self.task, &self.moves, lost_effort(layers))?;
        self.source.know_lost(layers)?;
        self.learn_around_all(alloc, layers)?;
        self.source.forget_lost()
    }
}

//! Layers that someone proposes, which are kept if they are sure.

ghost use Rattle.fond_draft.specs.Drafts.{IsDraft};
ghost use Rattle.fond_draft.specs.Learning.{IsDeadAround, MayComeNext};
ghost use Rattle.fond_task.specs.Certificates.{LiesInLayers};
ghost use Rattle.fond_task.specs.Layers.{CubeView, IsSureLayer};
ghost use Rattle.fond_layers.specs.Faults.{IsLayerFault};
ghost use Rattle.fond_layers.specs.Over.{IsOver};
ghost use Rattle.fond_regress.specs.Stable.{IsHopeless};
ghost use Rattle.fond_task.specs.declared.task.Task.{Task};
ghost use Rattle.std.specs.Prelude.{◌≡◌, ◌<◌, ◌^◌, ◌∷◌, ◌++◌, [], List, true, length, Decides, IfOk, OnOk};

use crate::draft::Draft;
use fond_layers::fault::LayerFault;
use fond_layers::layers::{Layer, is_over};
use fond_regress::estimate::{Guess, estimate};
use fond_state::cube::Cube;
use fond_state::state::State;
use fond_task::task::Task;
use fond_text::fault::NoMemory;
use std::alloc::Global;

/// Tells that a layer with this fault is not sure, unless the fault is that memory ran out.
fn not_sure(fault: LayerFault) -> Result<(), NoMemory>
    ensures { OnOk result ((task : Task) (layers : List (List CubeView)) (layer : List CubeView) → IsLayerFault task layers layer fault → ¬ IsSureLayer task layers layer) }
{
    match fault {
        LayerFault::NoMemory => Err(NoMemory),
        LayerFault::Goal { .. } => Ok(()),
        LayerFault::NotSure { .. } => Ok(()),
    }
}

impl Draft {
    /// Appends a layer, if it is sure above the layers. Returns whether it is.
    fn push_layer(&mut self, alloc: Global, t: &Task, layer: Layer) -> Result<bool, NoMemory>
        requires draft { IsDraft t.now self.old }
        requires over { IsOver (length t.now.atoms) layer }
        requires few { length layer < 2 ^ 32 }
        ensures draft { OnOk result (IsDraft t.now self.new) }
        ensures kept { IfOk result (λ kept. kept ≡ true → self.new.layers ≡ self.old.layers ++ layer ∷ []) }
        ensures decides { IfOk result (λ kept. Decides kept (IsSureLayer t.now self.old.layers layer)) }
        ensures pairs { OnOk result (self.new.pairs ≡ self.old.pairs) }
    {
        if self.layers.len() >= u32::MAX - 1 {
            return Err(NoMemory);
        }
        let mut image = Cube::new(alloc, t.atoms.len() as u32)?;
        match self.layers.push(t, layer, &mut image) {
            Ok(()) => Ok(true),
            Err(fault) => {
                not_sure(fault)?;
                Ok(false)
            }
        }
    }

    /// Appends a layer that may be any, if it is sure above the layers. Returns whether it was appended.
    pub fn learn_layer(&mut self, alloc: Global, t: &Task, layer: Layer) -> Result<bool, NoMemory>
        requires { IsDraft t.now self.old }
        ensures draft { OnOk result (IsDraft t.now self.new) }
        ensures kept { IfOk result (λ learnt. learnt ≡ true → self.new.layers ≡ self.old.layers ++ layer ∷ []) }
        ensures decides { IfOk result (λ learnt. Decides learnt (MayComeNext t.now self.old.layers layer)) }
        ensures pairs { OnOk result (self.new.pairs ≡ self.old.pairs) }
    {
        if layer.len() > u32::MAX as usize {
            return Ok(false);
        }
        if !is_over(&layer, t.atoms.len()) {
            return Ok(false);
        }
        self.push_layer(alloc, t, layer)
    }

    /// Appends a layer of one cube, if it is sure above the layers. Returns whether it is.
    fn push_cube(&mut self, alloc: Global, t: &Task, cube: Cube) -> Result<bool, NoMemory>
        requires draft { IsDraft t.now self.old }
        requires over { length cube ≡ length t.now.atoms }
        ensures draft { OnOk result (IsDraft t.now self.new) }
        ensures kept { IfOk result (λ kept. kept ≡ true → self.new.layers ≡ self.old.layers ++ (cube ∷ []) ∷ []) }
        ensures decides { IfOk result (λ kept. Decides kept (IsSureLayer t.now self.old.layers (cube ∷ []))) }
        ensures pairs { OnOk result (self.new.pairs ≡ self.old.pairs) }
    {
        let mut layer = Layer::new(alloc);
        layer.push(cube)?;
        self.push_layer(alloc, t, layer)
    }

    /// Appends a layer of one cube, if the state lies in it and it is sure above the layers. Returns whether it was appended.
    pub fn learn_cube(
        &mut self,
        alloc: Global,
        t: &Task,
        state: &State,
        cube: Cube,
    ) -> Result<bool, NoMemory>
        requires draft { IsDraft t.now self.old }
        requires long { length state.now ≡ length t.now.atoms }
        ensures draft { OnOk result (IsDraft t.now self.new) }
        ensures lies { IfOk result (λ learnt. learnt ≡ true → LiesInLayers state.now self.new.layers) }
        ensures decides { IfOk result (λ learnt. Decides learnt (IsDeadAround t.now self.old.layers state.now cube)) }
        ensures pairs { OnOk result (self.new.pairs ≡ self.old.pairs) }
    {
        if cube.len() != t.atoms.len() {
            return Ok(false);
        }
        if !cube.holds(state) {
            return Ok(false);
        }
        let kept = self.push_cube(alloc, t, cube)?;
        Ok(kept)
    }

    /// Appends a layer for the state, if it is hopeless. Returns whether it is.
    pub fn learn_hopeless(
        &mut self,
        alloc: Global,
        t: &Task,
        state: &State,
    ) -> Result<bool, NoMemory>
        requires draft { IsDraft t.now self.old }
        requires long { length state.now ≡ length t.now.atoms }
        ensures draft { OnOk result (IsDraft t.now self.new) }
        ensures lies { IfOk result (λ learnt. learnt ≡ true → LiesInLayers state.now self.new.layers) }
        ensures decides { IfOk result (λ learnt. Decides learnt (IsHopeless t.now state.now)) }
        ensures pairs { OnOk result (self.new.pairs ≡ self.old.pairs) }
    {
        match estimate(alloc, t, state)? {
            Guess::Never(cube) => self.learn_cube(alloc, t, state, cube),
            Guess::Reach(_) => Ok(false),
        }
    }
}

//! Appends stuck layers to others. A cube that lies in a cube of the layers that are there already is left out, and so is a
//! layer of which no cube is left.

ghost use Rattle.fond_draft.specs.Appends.{AreFresh, IsAppended};
ghost use Rattle.fond_explicit.specs.Answers.{AreStuck};
ghost use Rattle.fond_task.specs.Certificates.{LiesInLayers};
ghost use Rattle.fond_task.specs.Layers.{AreSureLayers, CubeView};
ghost use Rattle.fond_layers.specs.Over.{AreOver, IsOver};
ghost use Rattle.std.specs.Prelude.{◌≡◌, ◌<◌, ◌^◌, ℕ, List, Bool, length, slice_get, Some, IfOk, OnOk};

use fond_layers::layers::{Layer, Layers};
use fond_task::task::Task;
use fond_text::fault::NoMemory;
use fond_text::list::List;
use std::alloc::Global;

/// Copies of the cubes of a layer, over this many atoms, that lie in none of the layers.
fn fresh_cubes(
    alloc: Global,
    layers: &Layers,
    layer: &Layer,
    atoms: usize,
) -> Result<Layer, NoMemory>
    requires over { AreOver atoms layers.now }
    requires layer_over { IsOver atoms layer.now }
    ensures fresh { IfOk result (AreFresh layers.now layer.now) }
{
    let mut fresh = List::new(alloc);
    for at in 0..layer.len() {
        let cube = layer.get(at);
        if layers.has_around(cube) {
            continue;
        }
        fresh.push(cube.copy(alloc)?)?;
    }
    Ok(fresh)
}

/// Appends the cubes of a layer, over this many atoms, that lie in none of the layers, as one more layer, unless there are none.
/// Reports `NoMemory` past 2^32 - 2 layers.
fn append_layer(
    alloc: Global,
    layers: &mut Layers,
    layer: &Layer,
    atoms: usize,
) -> Result<(), NoMemory>
    requires over { AreOver atoms layers.old }
    requires layer_over { IsOver atoms layer.now }
    requires few { length layer.now < 2 ^ 32 }
    ensures appended { OnOk result (IsAppended layers.old layer.now layers.new) }
{
    if layers.len() >= u32::MAX - 1 {
        return Err(NoMemory);
    }
    let fresh = fresh_cubes(alloc, layers, layer, atoms)?;
    if fresh.len() == 0 {
        return Ok(());
    }
    layers.add_raw(fresh)
}

/// Appends layers that are stuck from some state, without the cubes that lie in a cube of a layer that is there already, and
/// without the layers that this leaves empty. Reports `NoMemory` past 2^32 - 2 layers. Takes, for each cube of
/// the further layers, the time of `Layers::has_around`, and for each layer that is appended that of `Layers::add_raw`.
pub fn append_layers(
    alloc: Global,
    t: &Task,
    layers: &mut Layers,
    more: &Layers,
) -> Result<(), NoMemory>
    requires over { AreOver (length t.now.atoms) layers.old }
    requires sure { AreSureLayers t.now layers.old }
    requires stuck { (from : List Bool) × (length from ≡ length t.now.atoms) × AreStuck t.now from more.now }
    ensures over { OnOk result (AreOver (length t.now.atoms) layers.new) }
    ensures sure { OnOk result (AreSureLayers t.now layers.new) }
    ensures kept { OnOk result ((number : ℕ) (layer : List CubeView) → slice_get layers.old number ≡ Some layer → slice_get layers.new number ≡ Some layer) }
    ensures has { OnOk result ((state : List Bool) → LiesInLayers state more.now → LiesInLayers state layers.new) }
{
    for at in 0..more.len() {
        append_layer(alloc, layers, more.get(at), t.atoms.len())?;
    }
    Ok(())
}

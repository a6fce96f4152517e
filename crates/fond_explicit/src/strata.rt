//! The layers of the states that fell, round by round.

ghost use Rattle.fond_fixpoint.specs.Fates.{fate_of, FallsHold};
ghost use Rattle.fond_explicit.specs.Spaces.{layer_at, AreRounds};
ghost use Rattle.fond_explicit.specs.Strata.{IsLengthened, IsPut};
ghost use Rattle.fond_fixpoint.specs.declared.fate.Fate.TheVariants.{Fallen};
ghost use Rattle.fond_text.specs.Lists.{AreDistinct};
ghost use Rattle.std.specs.Prelude.{◌≡◌, ◌<◌, ◌≤◌, ◌+◌, ◌-◌, ◌^◌, [], ◌∷◌, ◌++◌, All, ℕ, length, IfOk, OnOk};

use fond_fixpoint::fate::{Fate, fate_of};
use fond_layers::layers::{Layer, Layers};
use fond_state::cube::Cube;
use fond_store::store::Store;
use fond_text::fault::NoMemory;
use fond_text::list::List;
use std::alloc::Global;

/// Adds empty layers until there is one of this number.
fn lengthen(alloc: Global, layers: &mut Vec<Layer>, number: usize) -> Result<(), NoMemory>
    ensures { OnOk result (IsLengthened layers.old.items layers.new.items number) }
{
    while layers.len() <= number {
        layers.push(List::new(alloc))?;
    }
    Ok(())
}

/// Puts a cube at the end of the layer of a number, after empty layers if there are too few.
fn put(alloc: Global, layers: &mut Vec<Layer>, number: usize, cube: Cube) -> Result<(), NoMemory>
    ensures { OnOk result (IsPut layers.old.items layers.new.items number cube) }
{
    lengthen(alloc, layers, number)?;
    layers[number].push(cube)?;
    Ok(())
}

/// Layers in place of a list of them.
fn layers_from(alloc: Global, items: Vec<Layer>) -> Result<Layers, NoMemory>
    requires few { length items.items < 2 ^ 32 - 1 }
    requires small { All (λ layer. length layer < 2 ^ 32) items.items }
    ensures { IfOk result (λ layers. layers ≡ items.items) }
{
    let mut layers = Layers::new(alloc);
    for layer in items {
        layers.add_raw(layer)?;
    }
    Ok(layers)
}

/// Puts the full cube of the state of a node into the layer of its round, if the node fell.
fn put_node(
    alloc: Global,
    states: &Store,
    fates: &[Fate],
    node: u32,
    layers: &mut Vec<Layer>,
) -> Result<(), NoMemory>
    requires there { node < length states.now }
    requires distinct { AreDistinct states.now }
    ensures rounds { OnOk result (AreRounds states.now fates.now node layers.old.items → AreRounds states.now fates.now (node + 1) layers.new.items) }
    ensures few { OnOk result (((other round : ℕ) → fate_of fates.now other ≡ Fallen round → round < length states.now) → length layers.old.items ≤ length states.now → length layers.new.items ≤ length states.now) }
{
    let Fate::Fallen(round) = fate_of(fates, node) else {
        return Ok(());
    };
    let cube = Cube::full(alloc, states.get(node))?;
    put(alloc, layers, round as usize, cube)?;
    Ok(())
}

/// The full cubes of the states whose nodes fell, in the layers of their rounds. Takes time and memory in the number of the
/// states that fell times that of the atoms.
pub(crate) fn strata(alloc: Global, states: &Store, fates: &[Fate]) -> Result<Layers, NoMemory>
    requires distinct { AreDistinct states.now }
    requires whole { length fates.now ≡ length states.now }
    requires few { length states.now < 2 ^ 32 - 1 }
    requires early { (node round : ℕ) → fate_of fates.now node ≡ Fallen round → round < length states.now }
    ensures { IfOk result (AreRounds states.now fates.now (length states.now)) }
{
    let mut layers: Vec<Layer> = Vec::new(alloc);
    for node in 0..states.len() {
        put_node(alloc, states, fates, node, &mut layers)?;
    }
    layers_from(alloc, layers)
}

//! Lists of layers.

ghost use Rattle.fond_task.specs.Certificates.{LiesInLayers};
ghost use Rattle.fond_task.specs.Layers.{CubeView, IsSureLayer, AreSureLayers};
ghost use Rattle.fond_layers.specs.Deads.{IsFirstDead};
ghost use Rattle.fond_layers.specs.Far.{IsFarList, IsFarSpot, list_before};
ghost use Rattle.fond_layers.specs.Faults.{IsSpot, IsLayerFault};
ghost use Rattle.fond_layers.specs.Leads.{LiesInSome};
ghost use Rattle.fond_layers.specs.Over.{IsOver, AreOver};
ghost use Rattle.fond_state.specs.Cubes.{LiesIn};
ghost use Rattle.std.specs.Prelude.{◌≡◌, ◌<◌, ◌-◌, ◌^◌, List, [], ◌∷◌, ◌++◌, length, take, slice_get, Some, Contains, All, Decides, MatchOption, IfErr, OnOk, OnErr};

use crate::fault::{LayerFault, Spot};
use crate::force::lies_in_some;
use crate::indexed::Indexed;
use crate::sure::{goal_spot, spot};
use fond_state::cube::Cube;
use fond_state::state::State;
use fond_task::task::Task;
use fond_text::fault::NoMemory;
use fond_text::list::List;
use std::alloc::Global;
use std::marker::Model;

/// The cubes of a layer, in order.
pub type Layer = List<Cube>;

/// Fewer than 2^32 layers, each of fewer than 2^32 cubes, in order, with an index of each layer's cubes. Contracts see
/// them as the list of the lists of their cubes.
#[derive(Drop)]
pub struct Layers {
    items: Vec<Indexed>,
}

impl Model for Layers {
    ghost use Rattle.fond_task.specs.Layers.{CubeView};
    ghost use Rattle.std.specs.Prelude.{List, ◌<◌, ◌^◌, All, length};

    ghost Value = { List (List CubeView) };

    ghost view = { λ l. l.items.items };

    ghost invariant = { λ l. (length l.items.items < 2 ^ 32) × All (λ layer. length layer < 2 ^ 32) l.items.items };
}

/// Whether the cubes of the layer are over this many atoms. Takes time in their number.
pub fn is_over(layer: &Layer, atoms: usize) -> bool
    ensures { Decides result (IsOver atoms layer.now) }
{
    for cube in layer.as_slice() {
        if cube.len() != atoms {
            return false;
        }
    }
    true
}

impl Layers {
    /// A list of no layers. It takes no memory until a layer is added.
    pub fn new(alloc: Global) -> Layers
        ensures { result ≡ [] }
    {
        Layers {
            items: Vec::new(alloc),
        }
    }

    /// The number of layers.
    pub fn len(&self) -> u32
        ensures { result ≡ length self.now }
    {
        self.items.len() as u32
    }

    /// Tells a caller what the type keeps: there are fewer than 2^32 layers, each of fewer than 2^32 cubes. Does nothing.
    pub fn read_sizes(&self)
        ensures few { length self.now < 2 ^ 32 }
        ensures few_cubes { All (λ layer. length layer < 2 ^ 32) self.now }
    {
        let _ = &self.items;
    }

    /// The layer of this number.
    pub fn get(&self, i: u32) -> &Layer
        requires { i < length self.now }
        ensures layer { slice_get self.now i ≡ Some result.now }
        ensures few { length result.now < 2 ^ 32 }
    {
        self.layer(i).cubes()
    }

    /// The layer of this number with its index.
    fn layer(&self, i: u32) -> &Indexed
        requires { i < length self.now }
        ensures layer { slice_get self.now i ≡ Some result.now }
        ensures few { length result.now < 2 ^ 32 }
    {
        &self.items[i as usize]
    }

    /// Appends a layer with its index.
    fn add(&mut self, layer: Indexed) -> Result<(), NoMemory>
        requires few_layers { length self.old < 2 ^ 32 - 1 }
        requires few_cubes { length layer < 2 ^ 32 }
        ensures ok { OnOk result (self.new ≡ self.old ++ layer ∷ []) }
        ensures err { OnErr result (self.new ≡ self.old) }
    {
        self.items.push(layer)?;
        Ok(())
    }

    /// Appends a layer, which may be any, and indexes its cubes. Takes time in their number times that of the atoms.
    pub fn add_raw(&mut self, l: Layer) -> Result<(), NoMemory>
        requires few_layers { length self.old < 2 ^ 32 - 1 }
        requires few_cubes { length l < 2 ^ 32 }
        ensures ok { OnOk result (self.new ≡ self.old ++ l ∷ []) }
        ensures err { OnErr result (self.new ≡ self.old) }
    {
        let alloc = *self.items.allocator();
        self.add(Indexed::new(alloc, l))
    }

    /// Whether the cubes of all layers are over this many atoms. Takes time in their number.
    pub fn are_over(&self, atoms: usize) -> bool
        ensures { Decides result (AreOver atoms self.now) }
    {
        for layer in self.items.as_slice() {
            if !is_over(layer.cubes(), atoms) {
                return false;
            }
        }
        true
    }

    /// The numbers of the first layer with a cube in which the state lies, and of the first such cube of it. Takes time
    /// in the number of cubes that share their first literals with the state, times that of the atoms.
    pub fn dead(&self, s: &State) -> Option<(u32, u32)>
        requires { AreOver (length s.now) self.now }
        ensures { MatchOption result (¬ LiesInLayers s.now self.now) (λ r. IsFirstDead s.now self.now r.0 r.1) }
    {
        for (number, layer) in self.items.as_slice().iter().enumerate() {
            if let Some(cube) = layer.first_with(s) {
                return Some((number as u32, cube));
            }
        }
        None
    }

    /// Whether the cube lies in a cube of one of the layers. Takes time in the number of cubes that share their first literals with
    /// it, times that of the atoms.
    pub fn has_around(&self, cube: &Cube) -> bool
        requires { AreOver (length cube.now) self.now }
        ensures { Decides result (LiesInSome cube.now self.now) }
    {
        lies_in_some(cube, self.items.as_slice())
    }

    /// What is wrong with the layer of this number, if it is not sure above those before it: the first cube that is not
    /// sure, and whether that is for the goal or, if not, for which first action. Takes, for each cube, time in the size
    /// of the goal and the preconditions, and for each outcome of an action that may be applicable, time in its size and
    /// in that of the layers. `image` is overwritten.
    pub fn fault(&self, t: &Task, at: u32, image: &mut Cube) -> Option<Spot>
        requires there { at < length self.now }
        requires over { AreOver (length t.now.atoms) self.now }
        requires long { length image.old ≡ length t.now.atoms }
        ensures same_length { length image.new ≡ length image.old }
        ensures spot { (layer : List CubeView) → slice_get self.now at ≡ Some layer →
            MatchOption result (IsSureLayer t.now (take at self.now) layer) (IsSpot t.now (take at self.now) layer) }
    {
        let layer = self.layer(at);
        spot(t, &self.items[..at as usize], layer, layer, image)
    }

    /// What is wrong with the list of this number, one of numbered lists beyond these layers, if it is not far: the first cube that
    /// is not, and whether that is for the goal or, if not, for which first action. Takes the time of `fault`. `image` is
    /// overwritten.
    pub fn far_fault(&self, t: &Task, far: &Layers, at: u32, image: &mut Cube) -> Option<Spot>
        requires there { at < length far.now }
        requires over { AreOver (length t.now.atoms) self.now }
        requires far_over { AreOver (length t.now.atoms) far.now }
        requires long { length image.old ≡ length t.now.atoms }
        ensures same_length { length image.new ≡ length image.old }
        ensures spot { (cubes : List CubeView) → slice_get far.now at ≡ Some cubes →
            MatchOption result (IsFarList t.now self.now (list_before far.now at) cubes) (IsFarSpot t.now self.now (list_before far.now at) cubes) }
    {
        if at == 0 {
            return goal_spot(t, far.get(at).as_slice());
        }
        spot(
            t,
            self.items.as_slice(),
            far.layer(at - 1),
            far.layer(at),
            image,
        )
    }

    /// Appends a layer that is sure above those that are there. Takes the time of `fault`. `image` is overwritten.
    pub fn push(&mut self, t: &Task, l: Layer, image: &mut Cube) -> Result<(), LayerFault>
        requires few_layers { length self.old < 2 ^ 32 - 1 }
        requires few_cubes { length l < 2 ^ 32 }
        requires over { AreOver (length t.now.atoms) self.old }
        requires layer_over { IsOver (length t.now.atoms) l }
        requires long { length image.old ≡ length t.now.atoms }
        ensures same_length { length image.new ≡ length image.old }
        ensures ok { OnOk result ((self.new ≡ self.old ++ l ∷ []) × IsSureLayer t.now self.old l) }
        ensures fault { IfErr result (IsLayerFault t.now self.old l) }
        ensures err { OnErr result (self.new ≡ self.old) }
        ensures sure { AreSureLayers t.now self.old → AreSureLayers t.now self.new }
    {
        let alloc = *self.items.allocator();
        let layer = Indexed::new(alloc, l);
        if let Some(spot) = spot(t, self.items.as_slice(), &layer, &layer, image) {
            return Err(LayerFault::from(spot));
        }
        self.add(layer)?;
        Ok(())
    }
}

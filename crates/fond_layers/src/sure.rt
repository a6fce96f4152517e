//! Whether cubes are sure, as those of a layer above earlier ones.

ghost use Rattle.fond_task.specs.Layers.{CubeView, Forces, IsSureCube};
ghost use Rattle.fond_layers.specs.Far.{IsFarList, IsFarSpot};
ghost use Rattle.fond_layers.specs.Faults.{Escapes, IsFirstEscape, IsWrong, IsSpotInto, cube_number};
ghost use Rattle.fond_layers.specs.Over.{IsOver, AreOver};
ghost use Rattle.fond_task.specs.Values.{value};
ghost use Rattle.fond_task.specs.Within.{is_act_within};
ghost use Rattle.fond_task.specs.declared.task.Act.{Act};
ghost use Rattle.fond_task.specs.declared.form.Kleene.TheVariants.{No};
ghost use Rattle.std.specs.Prelude.{◌≡◌, ◌<◌, ◌^◌, [], None, length, Contains, MatchBool, MatchOption, IfSome, IsTrue};

use crate::fault::Spot;
use crate::force::forces;
use crate::indexed::Indexed;
use fond_state::cube::Cube;
use fond_task::form::Kleene;
use fond_task::task::{Act, Task};
use fond_task::value::value;

/// Whether the action escapes from the cube of the layer.
fn escapes(earlier: &[Indexed], layer: &Indexed, cube: &Cube, act: &Act, image: &mut Cube) -> bool
    requires within { IsTrue (is_act_within (length cube.now) act.now) }
    requires earlier_over { AreOver (length cube.now) earlier.now }
    requires layer_over { IsOver (length cube.now) layer.now }
    requires long { length image.old ≡ length cube.now }
    ensures same_length { length image.new ≡ length image.old }
    ensures answer { MatchBool result (Escapes earlier.now layer.now cube.now act.now) (¬ value cube.now act.now.pre ≡ No → Forces earlier.now layer.now cube.now act.now) }
{
    if let Kleene::No = value(&act.pre, cube) {
        return false;
    }
    !forces(earlier, layer, cube, act, image)
}

/// The number of the first action that escapes from the cube of the layer, if there is one.
fn first_escape(
    t: &Task,
    earlier: &[Indexed],
    layer: &Indexed,
    cube: &Cube,
    image: &mut Cube,
) -> Option<u32>
    requires cube_long { length cube.now ≡ length t.now.atoms }
    requires earlier_over { AreOver (length t.now.atoms) earlier.now }
    requires layer_over { IsOver (length t.now.atoms) layer.now }
    requires long { length image.old ≡ length t.now.atoms }
    ensures same_length { length image.new ≡ length image.old }
    ensures first { MatchOption result ((act : Act) → Contains t.now.acts act → ¬ value cube.now act.pre ≡ No → Forces earlier.now layer.now cube.now act)
        (IsFirstEscape t.now.acts earlier.now layer.now cube.now) }
{
    for (number, act) in t.acts.as_slice().iter().enumerate() {
        if escapes(earlier, layer, cube, act, image) {
            return Some(number as u32);
        }
    }
    None
}

/// What is wrong with the cube of this number, if it is not sure. Tries the goal before the actions.
fn wrong(
    t: &Task,
    earlier: &[Indexed],
    layer: &Indexed,
    number: u32,
    cube: &Cube,
    image: &mut Cube,
) -> Option<Spot>
    requires cube_long { length cube.now ≡ length t.now.atoms }
    requires earlier_over { AreOver (length t.now.atoms) earlier.now }
    requires layer_over { IsOver (length t.now.atoms) layer.now }
    requires long { length image.old ≡ length t.now.atoms }
    ensures same_length { length image.new ≡ length image.old }
    ensures numbered { IfSome result (λ spot. cube_number spot ≡ number) }
    ensures wrong { MatchOption result (IsSureCube t.now earlier.now layer.now cube.now) (IsWrong t.now earlier.now layer.now cube.now) }
{
    match value(&t.goal, cube) {
        Kleene::No => {
            let act = first_escape(t, earlier, layer, cube, image)?;
            Some(Spot::NotSure { cube: number, act })
        }
        _ => Some(Spot::Goal { cube: number }),
    }
}

/// What is wrong with the first of these cubes that is not sure as one of the layer above the earlier ones. Takes, for each cube,
/// time in the size of the goal and the preconditions, and for each outcome of an action that may be applicable, time in its size
/// and in that of all layers.
pub(crate) fn spot(
    t: &Task,
    earlier: &[Indexed],
    layer: &Indexed,
    cubes: &Indexed,
    image: &mut Cube,
) -> Option<Spot>
    requires few { length cubes.now < 2 ^ 32 }
    requires over { IsOver (length t.now.atoms) cubes.now }
    requires earlier_over { AreOver (length t.now.atoms) earlier.now }
    requires layer_over { IsOver (length t.now.atoms) layer.now }
    requires long { length image.old ≡ length t.now.atoms }
    ensures same_length { length image.new ≡ length image.old }
    ensures spot { MatchOption result ((cube : CubeView) → Contains cubes.now cube → IsSureCube t.now earlier.now layer.now cube)
        (IsSpotInto t.now earlier.now layer.now cubes.now) }
{
    for (number, cube) in cubes.as_slice().iter().enumerate() {
        if let Some(spot) = wrong(t, earlier, layer, number as u32, cube, image) {
            return Some(spot);
        }
    }
    None
}

/// What is wrong with the first of these cubes on which the goal is not No, as one of a list that has none before it.
pub(crate) fn goal_spot(t: &Task, cubes: &[Cube]) -> Option<Spot>
    requires few { length cubes.now < 2 ^ 32 }
    requires over { IsOver (length t.now.atoms) cubes.now }
    ensures { MatchOption result (IsFarList t.now [] None cubes.now) (IsFarSpot t.now [] None cubes.now) }
{
    for (number, cube) in cubes.iter().enumerate() {
        match value(&t.goal, cube) {
            Kleene::No => {}
            _ => return Some(Spot::Goal {
                cube: number as u32,
            }),
        }
    }
    None
}

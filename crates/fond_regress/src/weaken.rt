//! Dropping what outcomes may lose.

ghost use Rattle.fond_regress.specs.Stable.{AllStay, DoesStay};
ghost use Rattle.fond_regress.specs.Weaker.{IsWeaker};
ghost use Rattle.fond_state.specs.Cubes.{CubeLiesIn, literal_at};
ghost use Rattle.fond_task.specs.Images.{image};
ghost use Rattle.fond_task.specs.Within.{is_entry_within, is_act_within};
ghost use Rattle.fond_task.specs.Layers.{CubeView};
ghost use Rattle.std.specs.List.{list_all};
ghost use Rattle.std.specs.Prelude.{◌≡◌, ◌<◌, ℕ, Bool, false, Some, length, IsTrue};

use fond_state::cube::Cube;
use fond_task::form::Kleene;
use fond_task::image::image_of;
use fond_task::task::{Act, Outcome};
use fond_task::value::value;

/// Drops the cube's literal of the atom, if the other cube does not have it. Returns whether it was dropped.
fn drop_lost(cube: &mut Cube, other: &Cube, atom: u32) -> bool
    requires { length other.now ≡ length cube.old }
    ensures weaker { IsWeaker cube.old cube.new result }
    ensures kept { (sign : Bool) → literal_at cube.new atom ≡ Some sign → literal_at other.now atom ≡ Some sign }
    ensures least { (around : CubeView) → CubeLiesIn cube.old around → CubeLiesIn other.now around → CubeLiesIn cube.new around }
{
    let Some(sign) = cube.literal(atom) else {
        return false;
    };
    if other.literal(atom) == Some(sign) {
        return false;
    }
    cube.drop_literal(atom);
    true
}

/// Drops the literals of the cube that the other cube does not have, atom by atom. Returns whether any was dropped.
fn drop_all_lost(cube: &mut Cube, other: &Cube) -> bool
    requires { length other.now ≡ length cube.old }
    ensures weaker { IsWeaker cube.old cube.new result }
    ensures kept { CubeLiesIn other.now cube.new }
    ensures least { (around : CubeView) → CubeLiesIn cube.old around → CubeLiesIn other.now around → CubeLiesIn cube.new around }
{
    let mut changed = false;
    for atom in 0..cube.len() as u32 {
        let dropped = drop_lost(cube, other, atom);
        changed = changed || dropped;
    }
    changed
}

/// Drops the literals of the cube that the other cube does not have. Returns whether any was dropped.
fn weaken(cube: &mut Cube, other: &Cube) -> bool
    requires { length other.now ≡ length cube.old }
    ensures weaker { IsWeaker cube.old cube.new result }
    ensures kept { CubeLiesIn other.now cube.new }
    ensures least { (around : CubeView) → CubeLiesIn cube.old around → CubeLiesIn other.now around → CubeLiesIn cube.new around }
{
    // mostly nothing is lost, which is found word by word
    if cube.covers(other) {
        return false;
    }
    drop_all_lost(cube, other)
}

/// Drops the literals of the cube that its image under the outcome does not have. Returns whether any was dropped.
fn take_outcome(cube: &mut Cube, outcome: &Outcome, scratch: &mut Cube) -> bool
    requires within { IsTrue (list_all (is_entry_within (length cube.old)) outcome.now) }
    requires long { length scratch.old ≡ length cube.old }
    ensures same_length { length scratch.new ≡ length scratch.old }
    ensures weaker { IsWeaker cube.old cube.new result }
    ensures around { (around : CubeView) → CubeLiesIn cube.old around → CubeLiesIn (image cube.old outcome.now) around → CubeLiesIn cube.new around }
    ensures stays { result ≡ false → CubeLiesIn (image cube.new outcome.now) cube.new }
{
    image_of(cube, outcome, scratch);
    weaken(cube, scratch)
}

/// Drops the literals of the cube that some outcome of the action may lose. Returns whether any was dropped.
pub(crate) fn take_act(cube: &mut Cube, act: &Act, scratch: &mut Cube) -> bool
    requires within { IsTrue (is_act_within (length cube.old) act.now) }
    requires long { length scratch.old ≡ length cube.old }
    ensures same_length { length scratch.new ≡ length scratch.old }
    ensures weaker { IsWeaker cube.old cube.new result }
    ensures around { (around : CubeView) → length around ≡ length cube.old → CubeLiesIn cube.old around → DoesStay around act.now → CubeLiesIn cube.new around }
    ensures stays { result ≡ false → DoesStay cube.new act.now }
{
    if matches!(value(&act.pre, cube), Kleene::No) {
        return false;
    }
    let mut changed = false;
    for k in 0..act.outcomes.len() {
        let dropped = take_outcome(cube, act.outcomes.get(k), scratch);
        changed = changed || dropped;
    }
    changed
}

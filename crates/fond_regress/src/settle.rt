//! The least stable cube.

ghost use Rattle.fond_regress.specs.Stable.{IsStable, StaysAt};
ghost use Rattle.fond_regress.specs.Weaker.{IsWeaker};
ghost use Rattle.fond_state.specs.Cubes.{CubeLiesIn};
ghost use Rattle.fond_task.specs.Layers.{CubeView};
ghost use Rattle.std.specs.Prelude.{◌≡◌, ◌<◌, false, length};

use crate::weaken::take_act;
use fond_state::cube::Cube;
use fond_task::task::Task;

/// Drops the literals of the cube that the action of this number may lose. Returns whether any was dropped.
fn take_numbered(t: &Task, number: usize, cube: &mut Cube, scratch: &mut Cube) -> bool
    requires within { number < length t.now.acts }
    requires over { length cube.old ≡ length t.now.atoms }
    requires long { length scratch.old ≡ length cube.old }
    ensures same_length { length scratch.new ≡ length scratch.old }
    ensures weaker { IsWeaker cube.old cube.new result }
    ensures around { (around : CubeView) → length around ≡ length t.now.atoms → IsStable t.now around → CubeLiesIn cube.old around → CubeLiesIn cube.new around }
    ensures stays { result ≡ false → StaysAt t.now cube.new number }
{
    take_act(cube, t.acts.get(number), scratch)
}

/// Drops the literals of the cube that some action may lose, first to last. Returns whether any was dropped.
fn sweep(t: &Task, cube: &mut Cube, scratch: &mut Cube) -> bool
    requires over { length cube.old ≡ length t.now.atoms }
    requires long { length scratch.old ≡ length cube.old }
    ensures same_length { length scratch.new ≡ length scratch.old }
    ensures weaker { IsWeaker cube.old cube.new result }
    ensures around { (around : CubeView) → length around ≡ length t.now.atoms → IsStable t.now around → CubeLiesIn cube.old around → CubeLiesIn cube.new around }
    ensures stable { result ≡ false → IsStable t.now cube.new }
{
    let mut changed = false;
    for number in 0..t.acts.len() {
        let dropped = take_numbered(t, number, cube, scratch);
        changed = changed || dropped;
    }
    changed
}

/// Drops the literals of the cube that some action may lose, last to first: if actions make one another possible in this
/// order, one sweep finds what would take one for each of them in the other. Returns whether any was dropped.
fn sweep_back(t: &Task, cube: &mut Cube, scratch: &mut Cube) -> bool
    requires over { length cube.old ≡ length t.now.atoms }
    requires long { length scratch.old ≡ length cube.old }
    ensures same_length { length scratch.new ≡ length scratch.old }
    ensures weaker { IsWeaker cube.old cube.new result }
    ensures around { (around : CubeView) → length around ≡ length t.now.atoms → IsStable t.now around → CubeLiesIn cube.old around → CubeLiesIn cube.new around }
{
    let mut changed = false;
    for done in 0..t.acts.len() {
        let dropped = take_numbered(t, t.acts.len() - 1 - done, cube, scratch);
        changed = changed || dropped;
    }
    changed
}

/// Makes the cube stable: the least stable cube in which it lies.
pub(crate) fn settle(t: &Task, cube: &mut Cube, scratch: &mut Cube)
    requires over { length cube.old ≡ length t.now.atoms }
    requires long { length scratch.old ≡ length cube.old }
    ensures same_length { length cube.new ≡ length cube.old }
    ensures weaker { CubeLiesIn cube.old cube.new }
    ensures around { (around : CubeView) → length around ≡ length t.now.atoms → IsStable t.now around → CubeLiesIn cube.old around → CubeLiesIn cube.new around }
    ensures stable { IsStable t.now cube.new }
{
    let mut open = true;
    while open {
        sweep_back(t, cube, scratch);
        open = sweep(t, cube, scratch);
    }
}

//! Whether pairs are sure and lean.

ghost use Rattle.fond_task.specs.Layers.{CubeView, IsSurePair};
ghost use Rattle.fond_task.specs.Rules.{IsLeanPair};
ghost use Rattle.std.specs.Prelude.{◌≡◌, List, Some, length, slice_get, Decides};

use crate::lean::{Test, is_lean};
use crate::pad::Pad;
use crate::pair_test::PairTest;
use fond_state::cube::Cube;
use fond_task::rule::Pair;
use fond_task::task::Task;

/// Whether the pair is sure, if `dead` is the cube that it names. An action or an outcome that the task does not have
/// makes it not sure. Takes time in the number of atoms and the size of the outcome.
pub fn sure_pair(t: &Task, dead: &Cube, p: &Pair, pad: &mut Pad) -> bool
    requires over { length p.now.cond ≡ length t.now.atoms }
    requires dead_over { length dead.now ≡ length t.now.atoms }
    requires pad { pad.old ≡ length t.now.atoms }
    ensures same_pad { pad.new ≡ pad.old }
    ensures decides { (layers : List (List CubeView)) (layer : List CubeView) → slice_get layers p.now.layer ≡ Some layer → slice_get layer p.now.cube ≡ Some dead.now →
        Decides result (IsSurePair t.now layers p.now) }
{
    let test = PairTest {
        task: t,
        dead,
        act: p.act,
        outcome: p.outcome,
        layer: p.layer,
        cube: p.cube,
    };
    test.passes(&p.cond, &mut pad.image)
}

/// Whether the pair is lean, if `dead` is the cube that it names. Takes the time of `sure_pair` once more for each
/// literal of the pair.
pub fn lean_pair(t: &Task, dead: &Cube, p: &Pair, pad: &mut Pad) -> bool
    requires over { length p.now.cond ≡ length t.now.atoms }
    requires dead_over { length dead.now ≡ length t.now.atoms }
    requires pad { pad.old ≡ length t.now.atoms }
    ensures same_pad { pad.new ≡ pad.old }
    ensures decides { (layers : List (List CubeView)) (layer : List CubeView) → slice_get layers p.now.layer ≡ Some layer → slice_get layer p.now.cube ≡ Some dead.now →
        Decides result (IsLeanPair t.now layers p.now) }
{
    let test = PairTest {
        task: t,
        dead,
        act: p.act,
        outcome: p.outcome,
        layer: p.layer,
        cube: p.cube,
    };
    pad.cond.copy_from(&p.cond);
    is_lean(&test, &mut pad.cond, &mut pad.image)
}

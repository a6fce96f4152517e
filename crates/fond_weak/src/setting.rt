//! What a weak plan is looked for in.

ghost use Rattle.fond_layers.specs.Over.{AreOver};
ghost use Rattle.fond_rules.specs.Belongs.{ArePairsOver};
ghost use Rattle.fond_state.specs.Cubes.{full_cube};
ghost use Rattle.fond_regress.specs.Barred.{IsBarred};
ghost use Rattle.std.specs.Prelude.{◌≡◌, List, Bool, length, Decides};

use fond_layers::layers::Layers;
use fond_rules::pairs::Pairs;
use fond_state::cube::Cube;
use fond_state::state::State;
use fond_task::task::Task;

/// From which state a weak plan is looked for: in which task, and beside which layers and pairs.
#[derive(Drop)]
pub(crate) struct Setting<'a> {
    pub(crate) task: &'a Task,
    pub(crate) layers: &'a Layers,
    pub(crate) pairs: &'a Pairs,
    pub(crate) from: &'a State,
    ghost layers_over: { AreOver (length task.now.atoms) layers.now },
    ghost pairs_over: { ArePairsOver (length task.now.atoms) pairs.now },
    ghost long: { length from.now ≡ length task.now.atoms },
}

impl<'a> Setting<'a> {
    /// Whether a pair bars the action in the state of this full cube. Takes time in the number of pairs of the action times
    /// that of the atoms.
    pub(crate) fn is_barred(&self, act: u32, full: &Cube) -> bool
        requires { length full.now ≡ length self.now.task.now.atoms }
        ensures { (state : List Bool) → full.now ≡ full_cube state → Decides result (IsBarred self.now.pairs.now act state) }
    {
        !self.pairs.all_contradict(act, full)
    }
}

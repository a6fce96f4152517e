//! Short conditions of pairs.

ghost use Rattle.fond_task.specs.Layers.{CubeView, IsSurePair};
ghost use Rattle.fond_task.specs.Rules.{IsLeanPair};
ghost use Rattle.fond_layers.specs.Over.{AreOver};
ghost use Rattle.fond_regress.specs.Named.{HasCube};
ghost use Rattle.fond_state.specs.Cubes.{CubeLiesIn, LiesIn, full_cube};
ghost use Rattle.fond_task.specs.declared.task.Act.{Act};
ghost use Rattle.std.specs.Prelude.{◌≡◌, ◌<◌, List, Some, length, slice_get, IfOk};

use crate::regress::regress;
use fond_layers::layers::Layers;
use fond_rules::lean::shorten_from;
use fond_rules::pair_test::PairTest;
use fond_state::cube::Cube;
use fond_state::state::State;
use fond_task::rule::Pair;
use fond_task::task::Task;
use fond_text::fault::NoMemory;
use std::alloc::Global;

/// Where a pair is made: for which task, and beside which layers.
#[derive(Drop)]
struct Place<'a> {
    task: &'a Task,
    layers: &'a Layers,
    ghost over: { AreOver (length task.now.atoms) layers.now },
}

impl<'a> Place<'a> {
    /// The cube that a pair names.
    fn named(&self, layer: u32, cube: u32) -> &Cube
        requires { HasCube self.now.layers.now layer cube }
        ensures over { length result.now ≡ length self.now.task.now.atoms }
        ensures named { (cubes : List CubeView) × (slice_get self.now.layers.now layer ≡ Some cubes) × (slice_get cubes cube ≡ Some result.now) }
    {
        self.layers.get(layer).get(cube as usize)
    }

    /// Literals of `full` because of which the outcome of the action leads into the cube.
    fn regressed(
        &self,
        alloc: Global,
        full: &Cube,
        act: u32,
        outcome: u32,
        dead: &Cube,
    ) -> Result<Cube, NoMemory>
        requires long { length full.now ≡ length self.now.task.now.atoms }
        requires there { act < length self.now.task.now.acts }
        requires outcome_there { (a : Act) → slice_get self.now.task.now.acts act ≡ Some a → outcome < length a.outcomes }
        ensures long { IfOk result (λ c. length c ≡ length self.now.task.now.atoms) }
        ensures lies { IfOk result (λ c. CubeLiesIn full.now c) }
    {
        let outcomes = &self.task.acts.get(act as usize).outcomes;
        let mut out = Cube::new(alloc, full.len() as u32)?;
        regress(outcomes.get(outcome as usize), full, dead, &mut out);
        Ok(out)
    }
}

/// A lean pair of this action, outcome, layer and cube whose condition holds in the state. Starts with what regression
/// of the cube through the outcome gives, or with the full cube of the state if the pair is not sure with that, and drops
/// each literal that is not needed. Takes the time of `sure_pair` once for each literal of the start and once more, and
/// before that, for each literal of the layer's cube, time in the size of the outcome times the depth of its conditions.
/// Takes the memory of three cubes.
pub fn lean_pair(
    alloc: Global,
    t: &Task,
    layers: &Layers,
    s: &State,
    act: u32,
    outcome: u32,
    layer: u32,
    cube: u32,
) -> Result<Pair, NoMemory>
    requires over { AreOver (length t.now.atoms) layers.now }
    requires long { length s.now ≡ length t.now.atoms }
    requires sure { IsSurePair t.now layers.now (record { cond = full_cube s.now; act = act; outcome = outcome; layer = layer; cube = cube }) }
    ensures same { IfOk result (λ pair. pair ≡ record { cond = pair.cond; act = act; outcome = outcome; layer = layer; cube = cube }) }
    ensures over { IfOk result (λ pair. length pair.cond ≡ length t.now.atoms) }
    ensures holds { IfOk result (λ pair. LiesIn s.now pair.cond) }
    ensures lean { IfOk result (λ pair. IsLeanPair t.now layers.now pair) }
{
    let place = Place { task: t, layers };
    let full = Cube::full(alloc, s)?;
    let dead = place.named(layer, cube);
    let mut cond = place.regressed(alloc, &full, act, outcome, dead)?;
    let mut image = Cube::new(alloc, s.len() as u32)?;
    let test = PairTest {
        task: t,
        dead,
        act,
        outcome,
        layer,
        cube,
    };
    shorten_from(&test, &full, &mut cond, &mut image);
    Ok(Pair {
        cond,
        act,
        outcome,
        layer,
        cube,
    })
}

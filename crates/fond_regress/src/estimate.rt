//! Whether a state is hopeless.

ghost use Rattle.fond_regress.specs.Guesses.{IsGuess};
ghost use Rattle.fond_task.specs.Within.{is_form_within};
ghost use Rattle.fond_task.specs.Values.{value};
ghost use Rattle.fond_task.specs.declared.form.Kleene.TheVariants.{No};
ghost use Rattle.std.specs.Prelude.{◌≡◌, length, Decides, IsTrue, IfOk};

use crate::settle::settle;
use fond_state::cube::Cube;
use fond_state::state::State;
use fond_task::form::{Form, Kleene};
use fond_task::task::Task;
use fond_task::value::value;
use fond_text::fault::NoMemory;
use std::alloc::Global;

/// What is estimated about a state.
#[derive(Drop)]
pub enum Guess {
    /// A goal may be reachable. Nothing is claimed of the number, which is 0 today.
    Reach(u64),
    /// No goal is reachable: the state lies in this stable cube, on which the goal is No.
    Never(Cube),
}

/// Whether the form has the value No on the cube.
fn is_no(form: &Form, cube: &Cube) -> bool
    requires { IsTrue (is_form_within (length cube.now) form.now) }
    ensures { Decides result (value cube.now form.now ≡ No) }
{
    matches!(value(form, cube), Kleene::No)
}

/// Whether the goal is No on some stable cube of the state. If so, such a cube is returned; it is the least one, which no clause
/// says. Goes through all outcomes again and again, in both directions, until none loses a literal: in the worst case once for
/// each atom, and mostly a few times. An outcome takes time in its size and in the number of words of a cube, and the loss of
/// literals that of atoms. Takes memory for two cubes.
pub fn estimate(alloc: Global, t: &Task, s: &State) -> Result<Guess, NoMemory>
    requires { length s.now ≡ length t.now.atoms }
    ensures { IfOk result (IsGuess t.now s.now) }
{
    let mut cube = Cube::full(alloc, s)?;
    let mut scratch = Cube::new(alloc, s.len() as u32)?;
    settle(t, &mut cube, &mut scratch);
    if is_no(&t.goal, &cube) {
        return Ok(Guess::Never(cube));
    }
    Ok(Guess::Reach(0))
}

//! The value of forms on a cube, in Kleene's strong three-valued logic.

ghost use Rattle.fond_state.specs.Cubes.{literal_at};
ghost use Rattle.fond_task.specs.Values.{value, literal_value};
ghost use Rattle.fond_task.specs.Within.{is_form_within};
ghost use Rattle.std.specs.Prelude.{◌≡◌, length, IsTrue};

use crate::form::{Form, Kleene};
use fond_state::cube::Cube;

/// The value of a literal of this sign, over an atom of which this is known.
fn of_literal(known: Option<bool>, sign: bool) -> Kleene
    ensures { result ≡ literal_value known sign }
{
    match known {
        None => Kleene::Unknown,
        Some(truth) => Kleene::of(truth == sign),
    }
}

/// The value of the form on the cube. Stops at the first part that decides, and takes at most time in the size of the
/// form, and no memory.
pub fn value(form: &Form, cube: &Cube) -> Kleene
    requires { IsTrue (is_form_within (length cube.now) form.now) }
    ensures { result ≡ value cube.now form.now }
{
    match form {
        Form::Truth(truth) => Kleene::of(*truth),
        Form::Lit(atom, sign) => of_literal(cube.literal(*atom), *sign),
        Form::And(parts) => {
            let mut least = Kleene::Yes;
            for part in parts {
                least = least.lesser(value(part, cube));
                if let Kleene::No = least {
                    return Kleene::No;
                }
            }
            least
        }
        Form::Or(parts) => {
            let mut greatest = Kleene::No;
            for part in parts {
                greatest = greatest.greater(value(part, cube));
                if let Kleene::Yes = greatest {
                    return Kleene::Yes;
                }
            }
            greatest
        }
    }
}

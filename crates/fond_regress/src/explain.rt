//! Why a form has its value on a cube.

ghost use Rattle.fond_regress.specs.Taken.{TakesFrom};
ghost use Rattle.fond_task.specs.Values.{value};
ghost use Rattle.fond_task.specs.Within.{is_form_within};
ghost use Rattle.fond_task.specs.declared.form.Kleene.TheVariants.{No, Yes};
ghost use Rattle.std.specs.Prelude.{◌≡◌, length, if◌then◌else◌, Decides, IsTrue};

use fond_state::cube::Cube;
use fond_task::form::{Form, Kleene};
use fond_task::value::value;

/// Takes the literal that `source` has of the atom, if it has one.
pub(crate) fn take_literal(source: &Cube, atom: u32, out: &mut Cube)
    requires { length out.old ≡ length source.now }
    ensures { TakesFrom source.now out.old out.new }
{
    if let Some(sign) = source.literal(atom) {
        out.put_literal(atom, sign);
    }
}

/// Whether the form has the value Yes on the cube, if it is to hold, or No, if it is not to.
pub(crate) fn has_value(form: &Form, cube: &Cube, holds: bool) -> bool
    requires { IsTrue (is_form_within (length cube.now) form.now) }
    ensures { Decides result (value cube.now form.now ≡ (if holds then Yes else No)) }
{
    match value(form, cube) {
        Kleene::Yes => holds,
        Kleene::Unknown => false,
        Kleene::No => !holds,
    }
}

/// Takes literals of `source` because of which the form has the value Yes on it, or the value No if the form is not to
/// hold. For a conjunction that is to hold and a disjunction that is not, these are literals for each part; else they are
/// those for the first part that decides. Takes at most time in the size of the form times its depth.
pub(crate) fn explain(form: &Form, source: &Cube, holds: bool, out: &mut Cube)
    requires within { IsTrue (is_form_within (length source.now) form.now) }
    requires long { length out.old ≡ length source.now }
    ensures { TakesFrom source.now out.old out.new }
{
    match form {
        Form::Truth(_) => {}
        Form::Lit(atom, _) => take_literal(source, *atom, out),
        Form::And(parts) | Form::Or(parts) => {
            let each_counts = matches!(form, Form::And(_)) == holds;
            for part in parts {
                if each_counts {
                    explain(part, source, holds, out);
                } else if has_value(part, source, holds) {
                    return explain(part, source, holds, out);
                }
            }
        }
    }
}

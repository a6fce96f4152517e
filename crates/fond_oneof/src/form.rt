//! Copies of forms, and forms that are true if two others are.

ghost use Rattle.fond_oneof.specs.Shown.{AreSameForms, IsAlwaysTrue, IsBoth, IsSameForm};
ghost use Rattle.std.specs.Prelude.{◌≡◌, [], ◌∷◌, true, IfOk};

use fond_task::form::{Form, Forms};
use fond_text::fault::NoMemory;
use std::alloc::Global;

/// A copy of a form. Takes time and memory in its size.
#[cycle(copying)]
pub(crate) fn copied(alloc: Global, form: &Form) -> Result<Form, NoMemory>
    ensures { IfOk result (IsSameForm form.now) }
{
    match form {
        Form::Truth(value) => Ok(Form::Truth(*value)),
        Form::Lit(atom, sign) => Ok(Form::Lit(*atom, *sign)),
        Form::And(parts) => Ok(Form::And(all_copied(alloc, parts)?)),
        Form::Or(parts) => Ok(Form::Or(all_copied(alloc, parts)?)),
    }
}

/// Copies of forms.
#[cycle(copying)]
fn all_copied(alloc: Global, parts: &[Form]) -> Result<Forms, NoMemory>
    ensures { IfOk result (λ copies. AreSameForms parts.now copies.items) }
{
    let mut copies = Vec::with_capacity(alloc, parts.len())?;
    for part in parts {
        copies.push(copied(alloc, part)?)?;
    }
    Ok(copies)
}

/// The two forms, in order.
fn pair(alloc: Global, form: Form, other: Form) -> Result<Forms, NoMemory>
    ensures { IfOk result (λ forms. forms.items ≡ form ∷ other ∷ []) }
{
    let mut forms = Vec::with_capacity(alloc, 2)?;
    forms.push(form)?;
    forms.push(other)?;
    Ok(forms)
}

/// Whether a form is the constant `true`.
fn is_truth(form: &Form) -> bool
    ensures { result ≡ true → IsAlwaysTrue form.now }
{
    match form {
        Form::Truth(value) => *value,
        _ => false,
    }
}

/// A form that is true if two others are: the first itself if the second is the constant `true`, and else their
/// conjunction.
pub(crate) fn both(alloc: Global, form: &Form, other: &Form) -> Result<Form, NoMemory>
    ensures { IfOk result (IsBoth form.now other.now) }
{
    let first = copied(alloc, form)?;
    if is_truth(other) {
        return Ok(first);
    }
    let second = copied(alloc, other)?;
    Ok(Form::And(pair(alloc, first, second)?))
}

//! The truth of forms in a state.

ghost use Rattle.fond_task.specs.Within.{is_form_within};
ghost use Rattle.fond_task.specs.Truth.{is_true};
ghost use Rattle.fond_task.specs.declared.task.Act.{Act};
ghost use Rattle.std.specs.Prelude.{◌≡◌, ◌<◌, length, slice_get, Some, IsTrue};

use crate::form::Form;
use crate::task::Task;
use fond_state::state::State;

/// Whether the form is true in the state. Stops at the first part that decides, and takes at most time in the size
/// of the form.
pub fn evaluate(form: &Form, state: &State) -> bool
    requires { IsTrue (is_form_within (length state.now) form.now) }
    ensures { result ≡ is_true state.now form.now }
{
    match form {
        Form::Truth(value) => *value,
        Form::Lit(atom, sign) => state.get(*atom) == *sign,
        Form::And(parts) => {
            for part in parts {
                if !evaluate(part, state) {
                    return false;
                }
            }
            true
        }
        Form::Or(parts) => {
            for part in parts {
                if evaluate(part, state) {
                    return true;
                }
            }
            false
        }
    }
}

/// Whether the action's precondition is true in the state.
pub fn applicable(task: &Task, state: &State, act: u32) -> bool
    requires long { length state.now ≡ length task.now.atoms }
    requires there { act < length task.now.acts }
    ensures { (a : Act) → slice_get task.now.acts act ≡ Some a → result ≡ is_true state.now a.pre }
{
    evaluate(&task.acts.get(act as usize).pre, state)
}

/// Whether the goal is true in the state.
pub fn is_goal(task: &Task, state: &State) -> bool
    requires { length state.now ≡ length task.now.atoms }
    ensures { result ≡ is_true state.now task.now.goal }
{
    evaluate(&task.goal, state)
}

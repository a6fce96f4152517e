//! The state after an outcome.

ghost use Rattle.fond_task.specs.Within.{is_entry_within};
ghost use Rattle.fond_task.specs.Truth.{is_true};
ghost use Rattle.fond_text.specs.Bools.{is_same};
ghost use Rattle.fond_task.specs.Steps.{adds, deletes, next_state};
ghost use Rattle.fond_task.specs.declared.task.Act.{Act};
ghost use Rattle.fond_task.specs.declared.task.Entry.{Entry};
ghost use Rattle.fond_state.specs.Cubes.{truth_at};
ghost use Rattle.std.specs.List.{list_all};
ghost use Rattle.std.specs.Prelude.{◌≡◌, ◌<◌, ◌==◌, ◌&&◌, if◌then◌else◌, ℕ, List, true, length, slice_get, Some, IsTrue};

use crate::task::{Entry, Outcome, Task};
use crate::truth::evaluate;
use fond_state::state::State;

/// Gives the entry's atom this truth value, if it is the entry's and the entry's condition is true in `state`.
fn put(entry: &Entry, state: &State, value: bool, out: &mut State)
    requires within { IsTrue (is_entry_within (length state.now) entry.now) }
    requires long { length out.old ≡ length state.now }
    ensures same_length { length out.new ≡ length out.old }
    ensures put { (k : ℕ) → k < length out.old →
        truth_at out.new k ≡ (if is_same entry.now.add value && entry.now.atom == k && is_true state.now entry.now.cond then value else truth_at out.old k) }
{
    if entry.add == value && evaluate(&entry.cond, state) {
        out.set(entry.atom, value);
    }
}

/// Gives this truth value to each atom to which the outcome gives it in `state`.
fn put_all(entries: &Outcome, state: &State, value: bool, out: &mut State)
    requires within { IsTrue (list_all (is_entry_within (length state.now)) entries.now) }
    requires long { length out.old ≡ length state.now }
    ensures same_length { length out.new ≡ length out.old }
    ensures put { (k : ℕ) → k < length out.old →
        truth_at out.new k ≡ (if (if value then adds state.now entries.now k else deletes state.now entries.now k) then value else truth_at out.old k) }
{
    for entry in entries.as_slice() {
        put(entry, state, value, out);
    }
}

/// Makes `out` the state after this outcome of the action. Deletes come first, so that an add wins, and each
/// condition is evaluated in `state`. Takes time in the number of atoms and the size of the outcome, and no memory.
pub fn apply_into(task: &Task, state: &State, act: u32, outcome: u32, out: &mut State)
    requires long { length state.now ≡ length task.now.atoms }
    requires out_long { length out.old ≡ length task.now.atoms }
    requires there { act < length task.now.acts }
    requires outcome_there { (a : Act) → slice_get task.now.acts act ≡ Some a → outcome < length a.outcomes }
    requires applicable { (a : Act) → slice_get task.now.acts act ≡ Some a → is_true state.now a.pre ≡ true }
    ensures same_length { length out.new ≡ length out.old }
    ensures next { (a : Act) (entries : List Entry) → slice_get task.now.acts act ≡ Some a → slice_get a.outcomes outcome ≡ Some entries → out.new ≡ next_state state.now entries }
{
    let entries = task.acts.get(act as usize).outcomes.get(outcome as usize);
    out.copy_from(state);
    put_all(entries, state, false, out);
    put_all(entries, state, true, out);
}

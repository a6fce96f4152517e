//! The image of a cube under an outcome.

ghost use Rattle.fond_state.specs.Cubes.{literal_at};
ghost use Rattle.fond_task.specs.Within.{is_entry_within};
ghost use Rattle.fond_task.specs.Values.{value};
ghost use Rattle.fond_task.specs.Images.{changed_value, after_changes, image};
ghost use Rattle.fond_text.specs.Bools.{is_same};
ghost use Rattle.fond_task.specs.declared.task.Entry.{Entry};
ghost use Rattle.std.specs.List.{list_all};
ghost use Rattle.std.specs.Prelude.{◌≡◌, ◌<◌, ◌==◌, ◌&&◌, if◌then◌else◌, ℕ, Some, length, slice_set, IsTrue};

use crate::form::Kleene;
use crate::task::{Entry, Outcome};
use crate::value::value;
use fond_state::cube::Cube;

/// What is known of an atom after changes of one kind, adds or deletes, the greatest value of which is this one.
fn known_after(adds: bool, greatest: Kleene, known: Option<bool>) -> Option<bool>
    ensures { result ≡ after_changes adds greatest known }
{
    match greatest {
        Kleene::No => known,
        Kleene::Unknown if known == Some(adds) => known,
        Kleene::Unknown => None,
        Kleene::Yes => Some(adds),
    }
}

/// Gives the atom this literal, or none.
fn put_known(out: &mut Cube, atom: u32, known: Option<bool>)
    requires { atom < length out.old }
    ensures { out.new ≡ slice_set out.old atom known }
{
    match known {
        Some(sign) => out.put_literal(atom, sign),
        None => out.drop_literal(atom),
    }
}

/// Changes what `out` has of the entry's atom by the entry, if it is of this kind. Its condition is that of `cube`.
fn put(entry: &Entry, cube: &Cube, adds: bool, out: &mut Cube)
    requires within { IsTrue (is_entry_within (length cube.now) entry.now) }
    requires long { length out.old ≡ length cube.now }
    ensures same_length { length out.new ≡ length out.old }
    ensures put { (k : ℕ) → k < length out.old →
        literal_at out.new k ≡ (if is_same entry.now.add adds && entry.now.atom == k then after_changes adds (value cube.now entry.now.cond) (literal_at out.old k) else literal_at out.old k) }
{
    if entry.add == adds {
        let known = out.literal(entry.atom);
        let after = known_after(adds, value(&entry.cond, cube), known);
        put_known(out, entry.atom, after);
    }
}

/// Changes what `out` has of each atom by the entries of this kind. One entry after the other gives the same as their
/// greatest value.
fn put_all(entries: &Outcome, cube: &Cube, adds: bool, out: &mut Cube)
    requires within { IsTrue (list_all (is_entry_within (length cube.now)) entries.now) }
    requires long { length out.old ≡ length cube.now }
    ensures same_length { length out.new ≡ length out.old }
    ensures put { (k : ℕ) → k < length out.old → literal_at out.new k ≡ after_changes adds (changed_value adds cube.now entries.now k) (literal_at out.old k) }
{
    for entry in entries.as_slice() {
        put(entry, cube, adds, out);
    }
}

/// Makes `out` the image of the cube under these entries. Deletes come first, so that an add wins, and each condition
/// has its value on `cube`. Takes time in the number of atoms and the size of the entries, and no memory.
pub fn image_of(cube: &Cube, entries: &Outcome, out: &mut Cube)
    requires within { IsTrue (list_all (is_entry_within (length cube.now)) entries.now) }
    requires long { length out.old ≡ length cube.now }
    ensures same_length { length out.new ≡ length cube.now }
    ensures image { out.new ≡ image cube.now entries.now }
{
    out.copy_from(cube);
    put_all(entries, cube, false, out);
    put_all(entries, cube, true, out);
}

//! Why the image of a cube under an outcome has a literal: regression of the literal through the outcome.

ghost use Rattle.fond_regress.specs.Taken.{TakesFrom};
ghost use Rattle.fond_task.specs.Within.{is_entry_within};
ghost use Rattle.std.specs.List.{list_all};
ghost use Rattle.std.specs.Prelude.{◌≡◌, length, IsTrue};

use crate::explain::{explain, has_value, take_literal};
use fond_state::cube::Cube;
use fond_task::task::Outcome;

/// Takes why the first entry that surely gives the atom this sign does so, and returns whether there is one.
fn explain_change(entries: &Outcome, source: &Cube, atom: u32, sign: bool, out: &mut Cube) -> bool
    requires within { IsTrue (list_all (is_entry_within (length source.now)) entries.now) }
    requires long { length out.old ≡ length source.now }
    ensures { TakesFrom source.now out.old out.new }
{
    for entry in entries.as_slice() {
        if entry.atom == atom && entry.add == sign && has_value(&entry.cond, source, true) {
            explain(&entry.cond, source, true, out);
            return true;
        }
    }
    false
}

/// Takes why no entry gives the atom this sign.
fn explain_no_change(entries: &Outcome, source: &Cube, atom: u32, sign: bool, out: &mut Cube)
    requires within { IsTrue (list_all (is_entry_within (length source.now)) entries.now) }
    requires long { length out.old ≡ length source.now }
    ensures { TakesFrom source.now out.old out.new }
{
    for entry in entries.as_slice() {
        if entry.atom == atom && entry.add == sign {
            explain(&entry.cond, source, false, out);
        }
    }
}

/// Takes why the image of `source` has this literal. An add wins over deletes, so an atom that is added is true whatever
/// is deleted, and one that is deleted is false only if it is not added.
fn regress_literal(entries: &Outcome, source: &Cube, atom: u32, sign: bool, out: &mut Cube)
    requires within { IsTrue (list_all (is_entry_within (length source.now)) entries.now) }
    requires long { length out.old ≡ length source.now }
    ensures { TakesFrom source.now out.old out.new }
{
    if !explain_change(entries, source, atom, sign, out) {
        take_literal(source, atom, out);
        explain_no_change(entries, source, atom, !sign, out);
    } else if !sign {
        explain_no_change(entries, source, atom, true, out);
    }
}

/// Takes literals of `source` because of which its image under the entries has the literals of `wanted`. Takes time in
/// the number of atoms, and for each literal in the size of the entries.
pub(crate) fn regress(entries: &Outcome, source: &Cube, wanted: &Cube, out: &mut Cube)
    requires within { IsTrue (list_all (is_entry_within (length source.now)) entries.now) }
    requires long { length out.old ≡ length source.now }
    ensures { TakesFrom source.now out.old out.new }
{
    for atom in 0..wanted.len() as u32 {
        if let Some(sign) = wanted.literal(atom) {
            regress_literal(entries, source, atom, sign, out);
        }
    }
}

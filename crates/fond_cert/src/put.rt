//! Printing the parts of lines. Each call takes time in the length of what it adds, and in the number of the task's
//! atoms for each cube, and no memory but that of the destination.

ghost use Rattle.fond_form.specs.Lines.{group_text, spaced, sign_text, literals_text};
ghost use Rattle.fond_cert.specs.Printed.{atom_literal_text};
ghost use Rattle.fond_cert.specs.Spellings.{act_leaves, written_cube, target_word};
ghost use Rattle.std.specs.Fmt.{decimal};
ghost use Rattle.std.specs.Prelude.{◌++◌, ◌<◌, codes, length, map};

use fond_policy::item::ItemNumbers;
use fond_state::cube::Cube;
use fond_task::rule::{Target, TargetList};
use fond_task::task::{Labels, Task};
use fond_task::text::{put_action, put_atom};
use fond_text::atom::Atom;
use fond_text::out::{Out, put_number};

/// Adds a sign after a space.
fn put_sign<O: Out>(sign: bool, out: &mut O)
    ensures { O.adds out.old out.new (codes " " ++ sign_text sign) }
{
    if sign {
        out.add(b" +");
    } else {
        out.add(b" -");
    }
}

/// Adds the atom's literal, if there is one.
fn put_literal<O: Out>(labels: &Labels, atom: &Atom, literal: Option<bool>, out: &mut O)
    ensures { O.adds out.old out.new (atom_literal_text labels.now atom.now literal) }
{
    if let Some(sign) = literal {
        put_sign(sign, out);
        put_atom(labels, atom, out);
    }
}

/// Adds the literals of the cube, atom by atom.
pub(crate) fn put_cube<O: Out>(task: &Task, cube: &Cube, out: &mut O)
    ensures { O.adds out.old out.new (literals_text (written_cube task.now cube.now)) }
{
    for (i, atom) in task.atoms.as_slice().iter().enumerate() {
        put_literal(&task.labels, atom, cube.literal(i as u32), out);
    }
}

/// Adds the action of this number.
pub(crate) fn put_act<O: Out>(task: &Task, act: u32, out: &mut O)
    requires { act < length task.now.acts }
    ensures { O.adds out.old out.new (group_text (act_leaves task.now act)) }
{
    put_action(&task.labels, &task.acts.get(act as usize).ground, out);
}

/// Adds a target.
pub(crate) fn put_target<O: Out>(target: Target, out: &mut O)
    ensures { O.adds out.old out.new (target_word target) }
{
    match target {
        Target::Goal => out.add(b"goal"),
        Target::Rule(number) => put_number(number as u64, out),
    }
}

/// Adds a target after a space.
fn put_next_target<O: Out>(target: Target, out: &mut O)
    ensures { O.adds out.old out.new (codes " " ++ target_word target) }
{
    out.add(b" ");
    put_target(target, out);
}

/// Adds targets, each after a space.
pub(crate) fn put_targets<O: Out>(targets: &TargetList, out: &mut O)
    ensures { O.adds out.old out.new (spaced (map target_word targets.now)) }
{
    for target in targets.as_slice() {
        put_next_target(*target, out);
    }
}

/// Adds a number after a space.
fn put_spaced<O: Out>(number: u32, out: &mut O)
    ensures { O.adds out.old out.new (codes " " ++ decimal number) }
{
    out.add(b" ");
    put_number(number as u64, out);
}

/// Adds the numbers of items, each after a space.
pub(crate) fn put_item_numbers<O: Out>(items: &ItemNumbers, out: &mut O)
    ensures { O.adds out.old out.new (spaced (map decimal items.now)) }
{
    for item in items.as_slice() {
        put_spaced(*item, out);
    }
}

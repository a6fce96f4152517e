//! Writing ground atoms, ground actions and states.

ghost use Rattle.fond_task.specs.Texts.{name_at, named_text, atom_text, action_text, state_text};
ghost use Rattle.fond_state.specs.Cubes.{truth_at};
ghost use Rattle.std.specs.List.{flat_map};
ghost use Rattle.std.specs.Prelude.{◌≡◌, [], ◌++◌, codes, if◌then◌else◌};

use crate::task::{Labels, Task};
use fond_state::state::State;
use fond_text::atom::{Atom, GroundAction, Objects};
use fond_text::name::Names;
use fond_text::out::Out;

/// Adds the name of a number, or nothing if it has none.
fn put_name<O: Out>(names: &Names, number: u32, out: &mut O)
    ensures { O.adds out.old out.new (name_at names.now number) }
{
    if (number as usize) < names.len() {
        out.add(names.get(number as usize).bytes());
    }
}

/// Adds the names of objects, each after a space.
fn put_objects<O: Out>(names: &Names, objects: &Objects, out: &mut O)
    ensures { O.adds out.old out.new (flat_map (λ object. codes " " ++ name_at names.now object) objects.now) }
{
    for object in objects.as_slice() {
        out.add(b" ");
        put_name(names, *object, out);
    }
}

/// Adds a name and the names of objects between parentheses.
fn put_named<O: Out>(labels: &Labels, heads: &Names, head: u32, objects: &Objects, out: &mut O)
    ensures { O.adds out.old out.new (named_text labels.now.objects (name_at heads.now head) objects.now) }
{
    out.add(b"(");
    put_name(heads, head, out);
    put_objects(&labels.objects, objects, out);
    out.add(b")");
}

/// Adds the text of a ground atom.
pub fn put_atom<O: Out>(labels: &Labels, atom: &Atom, out: &mut O)
    ensures { O.adds out.old out.new (atom_text labels.now atom.now) }
{
    put_named(
        labels,
        &labels.predicates,
        atom.predicate,
        &atom.objects,
        out,
    );
}

/// Adds the text of a ground action.
pub fn put_action<O: Out>(labels: &Labels, ground: &GroundAction, out: &mut O)
    ensures { O.adds out.old out.new (action_text labels.now ground.now) }
{
    put_named(labels, &labels.schemas, ground.schema, &ground.objects, out);
}

/// Adds the line of an atom, if it is true.
fn put_line<O: Out>(labels: &Labels, atom: &Atom, is_true: bool, out: &mut O)
    ensures { O.adds out.old out.new (if is_true then atom_text labels.now atom.now ++ codes "\n" else []) }
{
    if is_true {
        put_atom(labels, atom, out);
        out.add(b"\n");
    }
}

/// Whether the atom is true. An atom past the last one is false.
fn is_atom_true(state: &State, atom: usize) -> bool
    ensures { result ≡ truth_at state.now atom }
{
    atom < state.len() && state.get(atom as u32)
}

/// Adds the text of a state: the line `state` and a line for each true atom, in the order of the atoms.
pub fn put_state<O: Out>(task: &Task, state: &State, out: &mut O)
    ensures { O.adds out.old out.new (state_text task.now state.now) }
{
    out.add(b"state\n");
    for (i, atom) in task.atoms.as_slice().iter().enumerate() {
        put_line(&task.labels, atom, is_atom_true(state, i), out);
    }
}

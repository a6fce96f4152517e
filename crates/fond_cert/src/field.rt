//! Printing lines. A line is printed as it is read, field by field of its form; so a new kind of line needs no printer. Each call takes
//! time in the length of what it adds, and in the number of the task's atoms for each cube, and no memory but that of the destination.

ghost use Rattle.fond_cert.specs.Printed.{HasAct, datum_text, values_text};
ghost use Rattle.fond_form.specs.Forms.{form};
ghost use Rattle.std.specs.Prelude.{◌++◌, All, codes};

use crate::put::{put_act, put_cube, put_item_numbers, put_target, put_targets};
use fond_form::table::{Field, LineKind, bytes_of, form};
use fond_policy::item::ItemNumbers;
use fond_state::cube::Cube;
use fond_task::rule::{Target, TargetList};
use fond_task::task::Task;
use fond_text::out::{Out, put_number};

/// What the value of a field stands for: nothing, the number of an action, a number, a target, several of these, or a cube.
#[derive(Clone, Copy)]
pub(crate) enum Datum<'a> {
    Nothing,
    Act(u32),
    Number(u64),
    Target(Target),
    Numbers(&'a ItemNumbers),
    Targets(&'a TargetList),
    Cube(&'a Cube),
}

/// Adds a value that stands for this.
fn put_datum<O: Out>(task: &Task, datum: &Datum, out: &mut O)
    requires { HasAct task.now datum.now }
    ensures { O.adds out.old out.new (datum_text task.now datum.now) }
{
    match datum {
        Datum::Nothing => {}
        Datum::Act(act) => put_act(task, *act, out),
        Datum::Number(number) => put_number(*number, out),
        Datum::Target(target) => put_target(*target, out),
        Datum::Numbers(numbers) => put_item_numbers(numbers, out),
        Datum::Targets(targets) => put_targets(targets, out),
        Datum::Cube(cube) => put_cube(task, cube, out),
    }
}

/// Adds fields with values that stand for these.
fn put_fields<O: Out>(task: &Task, fields: &[Field], values: &[Datum], out: &mut O)
    requires { All (HasAct task.now) values.now }
    ensures { O.adds out.old out.new (values_text task.now fields.now values.now) }
{
    let Some((field, fields)) = fields.split_first() else {
        return;
    };
    let Some((datum, values)) = values.split_first() else {
        return;
    };
    out.add(bytes_of(field.0));
    put_datum(task, datum, out);
    put_fields(task, fields, values, out);
}

/// Adds the line of this kind with values that stand for these, one for each field.
pub(crate) fn put_line<O: Out>(task: &Task, kind: LineKind, values: &[Datum], out: &mut O)
    requires { All (HasAct task.now) values.now }
    ensures { O.adds out.old out.new (values_text task.now (form kind) values.now ++ codes "\n") }
{
    put_fields(task, form(kind), values, out);
    out.add(b"\n");
}

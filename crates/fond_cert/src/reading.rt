//! Reading the values of a line, from left to right; the order of its atoms comes last. Each call takes time in the length of the line
//! and, if it has literals, in the number of the task's atoms, and memory for what it reads.

ghost use Rattle.fond_cert.specs.Checked.{IsValueText, IsFilled, AreFilled, IsValueRefused, AreFieldsRefused};
ghost use Rattle.fond_cert.specs.Filled.{no_values};
ghost use Rattle.fond_cert.specs.Refusals.{LineRefuses};
ghost use Rattle.fond_form.specs.Cutting.{is_clear};
ghost use Rattle.fond_form.specs.Forms.{form, HasForm};
ghost use Rattle.std.specs.Prelude.{◌≡◌, IfErr, OnOk, IsTrue};

use crate::error::LineError;
use crate::literal::read_cube;
use crate::target::{
    read_act, read_item_numbers, read_long, read_short, read_target, read_targets,
};
use crate::task_index::TaskIndex;
use crate::values::LineValues;
use fond_form::cut::cut_field;
use fond_form::part::Part;
use fond_form::table::{Field, LineKind, Sort, form};
use std::alloc::Global;

/// Reads a value.
fn read_value(
    alloc: Global,
    index: &TaskIndex,
    sort: Sort,
    part: Part,
    values: &mut LineValues,
) -> Result<(), LineError>
    requires { IsValueText sort part.text.now }
    ensures read { OnOk result (IsFilled index.now part.entry.at sort part.entry.text.now values.old values.new) }
    ensures wrong { IfErr result (LineRefuses (IsValueRefused index.now part.entry.at sort part.entry.text.now)) }
{
    match sort {
        Sort::Nothing => {}
        Sort::Action => values.act = read_act(index, part)?,
        Sort::Short => values.numbers.push(read_short(part)? as u64)?,
        Sort::Long => values.numbers.push(read_long(part)?)?,
        Sort::Target => values.targets.push(read_target(part)?)?,
        Sort::Shorts => values.items = read_item_numbers(alloc, part)?,
        Sort::Targets => values.targets = read_targets(alloc, part)?,
        Sort::Literals => values.cube = Some(read_cube(alloc, index, part)?),
    }
    Ok(())
}

/// Reads the values of the fields, of which the rest of the line has the form.
fn read_fields(
    alloc: Global,
    index: &TaskIndex,
    fields: &[Field],
    rest: Part,
    values: &mut LineValues,
) -> Result<(), LineError>
    requires clear { IsTrue (is_clear fields.now) }
    requires form { HasForm fields.now rest.text.now }
    ensures read { OnOk result (AreFilled index.now rest.entry.at fields.now rest.entry.text.now values.old values.new) }
    ensures wrong { IfErr result (LineRefuses (AreFieldsRefused index.now rest.entry.at fields.now rest.entry.text.now)) }
{
    let Some((field, more)) = fields.split_first() else {
        return Ok(());
    };
    let Some((part, next)) = cut_field(*field, rest) else {
        unreachable!();
    };
    read_value(alloc, index, field.1, part, values)?;
    read_fields(alloc, index, more, next, values)
}

/// Reads the values of a line of the kind.
pub(crate) fn read_line(
    alloc: Global,
    index: &TaskIndex,
    kind: LineKind,
    line: &[u8],
    values: &mut LineValues,
) -> Result<(), LineError>
    requires form { HasForm (form kind) line.now }
    requires empty { values.old ≡ no_values }
    ensures read { OnOk result (AreFilled index.now 0 (form kind) line.now no_values values.new) }
    ensures wrong { IfErr result (LineRefuses (AreFieldsRefused index.now 0 (form kind) line.now)) }
{
    read_fields(alloc, index, form(kind), Part { text: line, at: 0 }, values)
}

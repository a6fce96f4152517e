//! Reading a text line by line.

ghost use Rattle.fond_cert.specs.Drafts.{IsDraftOf};
ghost use Rattle.fond_cert.specs.Faults.{IsFaultAs, IsRefusedLine};
ghost use Rattle.fond_cert.specs.Progress.{IsReady, IsTaken, IsWhole, IsPlaced};
ghost use Rattle.fond_cert.specs.Refusals.{LineRefuses, CertRefuses};
ghost use Rattle.fond_cert.specs.Spellings.{no_parts};
ghost use Rattle.fond_cert.specs.declared.due.Due.TheVariants.{Nothing};
ghost use Rattle.std.specs.Prelude.{◌≡◌, ◌+◌, ◌-◌, ◌≤◌, [], length, Decides, IfOk, IfErr, OnOk};

use crate::code::OUT_OF_FORM;
use crate::draft::Draft;
use crate::due::{Document, Due};
use crate::error::{CertError, LineError};
use crate::place::{next_due, taker};
use crate::task_index::TaskIndex;
use fond_form::feed::line_of;
use fond_form::form::kind_of;
use std::alloc::Global;

/// The refusal of a line that has no form allowed at its place.
const FORMLESS: LineError = LineError::Refused {
    code: OUT_OF_FORM,
    at: 0,
};

/// Adds the line to the draft, and answers what is due after it.
fn take(
    alloc: Global,
    index: &TaskIndex,
    draft: &mut Draft,
    due: Due,
    piece: &[u8],
) -> Result<Due, LineError>
    requires { IsReady index.now due draft.old }
    ensures taken { IfOk result (λ next. IsTaken index.now due draft.old piece.now next draft.new) }
    ensures wrong { IfErr result (LineRefuses (λ refused. IsRefusedLine index.now due piece.now refused.code refused.at)) }
{
    let Some(kind) = kind_of(piece) else {
        return Err(FORMLESS);
    };
    let Some(next) = next_due(due, kind) else {
        return Err(FORMLESS);
    };
    draft.add(alloc, index, taker(next), kind, piece)?;
    Ok(next)
}

/// The error of a text, by the error of the line with which the rest begins.
fn placed(text: &[u8], rest: &[u8], error: LineError) -> CertError
    requires rest { length rest.now ≤ length text.now }
    requires line { LineRefuses (λ refused. refused.at ≤ length rest.now) error }
    ensures { IsPlaced (length text.now - length rest.now) error result }
{
    match error {
        LineError::Refused { code, at } => CertError::Refused {
            code,
            byte: (text.len() - rest.len() + at) as u64,
        },
        LineError::NoMemory => CertError::NoMemory,
    }
}

/// Whether nothing is due, and the text ends.
fn is_over(due: Due, rest: &[u8]) -> bool
    ensures { Decides result ((due ≡ Nothing) × (rest.now ≡ [])) }
{
    match due {
        Due::Nothing => rest.is_empty(),
        _ => false,
    }
}

/// Adds what the lines of the text make to a draft without parts.
fn add_lines(
    alloc: Global,
    index: &TaskIndex,
    document: Document,
    text: &[u8],
    draft: &mut Draft,
) -> Result<(), CertError>
    requires { draft.old ≡ no_parts }
    ensures read { OnOk result (IsDraftOf index.now draft.new × IsWhole document index.now text.now draft.new) }
    ensures refused { IfErr result (CertRefuses (IsFaultAs document index.now text.now)) }
{
    let mut due = Due::Header { document };
    let mut rest = text;
    while let Some((piece, further)) = line_of(rest) {
        match take(alloc, index, draft, due, piece) {
            Ok(next) => {
                due = next;
                rest = further;
            }
            Err(error) => return Err(placed(text, rest, error)),
        }
    }
    if is_over(due, rest) {
        Ok(())
    } else {
        Err(placed(text, rest, FORMLESS))
    }
}

/// What the lines of the text make, which is to spell this document. Takes time in the length of the text, and in the number of the
/// task's atoms for each cube, pair, rule, item and row; memory for what the lines make.
pub(crate) fn read_lines(
    alloc: Global,
    index: &TaskIndex,
    document: Document,
    text: &[u8],
) -> Result<Draft, CertError>
    ensures read { IfOk result (λ draft. IsDraftOf index.now draft × IsWhole document index.now text.now draft) }
    ensures refused { IfErr result (CertRefuses (IsFaultAs document index.now text.now)) }
{
    let mut draft = Draft::new(alloc);
    add_lines(alloc, index, document, text, &mut draft)?;
    Ok(draft)
}

//! The objects of a parameter that may leave a kept ground action. A static atom that the precondition demands leaves those
//! in the matching initial atoms, if one more of its objects is known.

ghost use Rattle.fond_ast.specs.Ranges.{is_among, is_rising, objects_of};
ghost use Rattle.fond_ast.specs.declared.form.LTerm.TheVariants.{Variable};
ghost use Rattle.fond_join.specs.Agree.{Covers, CoversAtom};
ghost use Rattle.fond_join.specs.Candidates.{AreCandidates};
ghost use Rattle.std.specs.List.{list_all};
ghost use Rattle.std.specs.Prelude.{◌≡◌, ◌<◌, ◌⊎◌, Some, true, filter, length, slice_get, IfOk, IfSome, IsSomeAnd, IsTrue};

use crate::facts::Facts;
use crate::rows::{MOST_ROWED, narrow};
use crate::value::{Scope, is_fluent, object_of};
use fond_ast::form::{LAtom, LCond, LTerm};
use fond_ast::task::LSchema;
use fond_text::fault::NoMemory;
use std::alloc::Global;

/// The shorter of two rows, or the only one.
fn shorter<'a>(row: Option<&'a [u32]>, other: Option<&'a [u32]>) -> Option<&'a [u32]>
    ensures { IfSome result (λ best. IsSomeAnd row.entry (λ own. own.now ≡ best.now) ⊎ IsSomeAnd other.entry (λ own. own.now ≡ best.now)) }
{
    match (row, other) {
        (None, _) => other,
        (Some(some), Some(more)) if more.len() < some.len() => other,
        _ => row,
    }
}

/// The objects of a parameter at a position of a static atom in the initial atoms that have the object of another term, if
/// this one is known.
fn row_beside<'a>(
    facts: &'a Facts,
    scope: &Scope,
    atom: &LAtom,
    parameter: usize,
    position: usize,
    other: usize,
) -> Option<&'a [u32]>
    requires here { slice_get atom.now.terms position ≡ Some (Variable parameter) }
    requires there { other < length atom.now.terms }
    ensures { IfSome result (λ row. CoversAtom facts.now.task.now atom.now scope.now.env.items parameter row.now) }
{
    let object = object_of(scope, *atom.terms.get(other))?;
    let place = narrow(position)?;
    let known = narrow(other)?;
    let row = facts.beside(atom.predicate, known, object, place)?;
    Some(row)
}

/// The shortest row of a parameter at a position of a static atom, if there is one.
fn row_at<'a>(
    facts: &'a Facts,
    scope: &Scope,
    atom: &LAtom,
    parameter: usize,
    position: usize,
) -> Option<&'a [u32]>
    requires { slice_get atom.now.terms position ≡ Some (Variable parameter) }
    ensures { IfSome result (λ row. CoversAtom facts.now.task.now atom.now scope.now.env.items parameter row.now) }
{
    let mut best = None;
    for other in 0..atom.terms.len().min(MOST_ROWED) {
        best = shorter(
            best,
            row_beside(facts, scope, atom, parameter, position, other),
        );
    }
    best
}

/// Whether a term is a parameter.
fn is_parameter(term: LTerm, parameter: usize) -> bool
    ensures { result ≡ true → term ≡ Variable parameter }
{
    match term {
        LTerm::Object(_) => false,
        LTerm::Variable(number) => number as usize == parameter,
    }
}

/// The shortest row of a parameter in a static atom, if there is one.
fn row_in<'a>(facts: &'a Facts, scope: &Scope, atom: &LAtom, parameter: usize) -> Option<&'a [u32]>
    ensures { IfSome result (λ row. CoversAtom facts.now.task.now atom.now scope.now.env.items parameter row.now) }
{
    let mut best = None;
    for position in 0..atom.terms.len().min(MOST_ROWED) {
        if is_parameter(*atom.terms.get(position), parameter) {
            best = shorter(best, row_at(facts, scope, atom, parameter, position));
        }
    }
    best
}

/// The shortest row of a parameter in the static atoms that a condition demands, if there is one.
fn row_of<'a>(
    facts: &'a Facts,
    scope: &Scope,
    condition: &LCond,
    parameter: usize,
) -> Option<&'a [u32]>
    ensures { IfSome result (λ row. Covers facts.now.task.now condition.now scope.now.env.items parameter row.now) }
{
    match condition {
        LCond::Holds(atom) if !is_fluent(facts, atom.predicate) => {
            row_in(facts, scope, atom, parameter)
        }
        LCond::And(parts) => {
            let mut best = None;
            for part in parts {
                best = shorter(best, row_of(facts, scope, part, parameter));
            }
            best
        }
        _ => None,
    }
}

/// Whether an object is in a range.
fn is_in(range: &[u32], object: u32) -> bool
    requires { IsTrue (is_rising range.now) }
    ensures { result ≡ is_among range.now object }
{
    range.binary_search(&object).is_ok()
}

/// The objects of a row that lie in a range, in order and without repetition.
fn among(alloc: Global, row: &[u32], range: &[u32]) -> Result<Vec<u32>, NoMemory>
    requires { IsTrue (is_rising range.now) }
    ensures { IfOk result (λ objects. objects.items ≡ filter (is_among row.now) range.now) }
{
    let mut sorted = Vec::from_slice(alloc, row)?;
    sorted.sort_unstable();
    let mut objects = Vec::new(alloc);
    let mut least = 0u64;
    for object in &sorted {
        if least <= *object as u64 && is_in(range, *object) {
            objects.push(*object)?;
            least = *object as u64 + 1;
        }
    }
    Ok(objects)
}

/// The objects to try for a parameter, in order. Takes the time of a lookup for each pair of the first terms of the
/// precondition's static atoms, and of a sort of the shortest row that is found.
pub(crate) fn candidates(
    alloc: Global,
    facts: &Facts,
    schema: &LSchema,
    scope: &Scope,
    parameter: usize,
) -> Result<Vec<u32>, NoMemory>
    requires within { parameter < length schema.now.ranges }
    requires rising { IsTrue (list_all is_rising (objects_of schema.now.ranges)) }
    ensures { IfOk result (λ objects. AreCandidates facts.now.task.now schema.now scope.now.env.items parameter objects.items) }
{
    let range = schema.ranges.get(parameter).as_slice();
    match row_of(facts, scope, &schema.pre, parameter) {
        Some(row) if row.len() < range.len() => among(alloc, row, range),
        _ => Ok(Vec::from_slice(alloc, range)?),
    }
}

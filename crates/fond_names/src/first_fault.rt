//! The first fault of names: by file, then by place, and at one place by code.

ghost use Rattle.fond_text.specs.declared.place.FileKind.TheVariants.{Domain as InDomain, Problem as InProblem, Side as InSide};
ghost use Rattle.fond_text.specs.Faults.{AreClean, IsFirstAmong};
ghost use Rattle.fond_text.specs.Firsts.{IsFirst};
ghost use Rattle.fond_names.specs.Faults.{HasLaterFault, StandsInNames};
ghost use Rattle.fond_names.specs.Files.{declarations_of};
ghost use Rattle.std.specs.Prelude.{◌≡◌, IfOk, IfSome, IfNone};

use crate::files::Files;
use crate::leaves::unknown_schema;
use crate::patterns::faulty_pattern;
use crate::predicates::redeclared_predicate;
use crate::redeclared::redeclared_object;
use crate::repeated::repeated_schema;
use crate::sites::{domain_site_fault, problem_site_fault};
use crate::unknown::{unknown_parameter, unknown_type};
use fond_kinds::fault::first_fault as kinds_fault;
use fond_text::fault::{Fault, NoMemory};
use fond_text::first::{Found, earlier};
use fond_text::place::FileKind;
use std::alloc::Global;

/// The first predicate or schema that is declared again, or fault in a schema.
fn later_fault(alloc: Global, files: &Files) -> Result<Option<Found>, NoMemory>
    ensures { IfOk result (IsFirst (HasLaterFault (declarations_of files.now))) }
{
    let predicates = redeclared_predicate(alloc, files)?;
    let schemas = earlier(repeated_schema(files), domain_site_fault(alloc, files)?);
    Ok(earlier(predicates, schemas))
}

/// The first fault of names in the domain.
fn domain_fault(alloc: Global, files: &Files) -> Result<Option<Found>, NoMemory>
    ensures { IfOk result (IsFirst (StandsInNames (declarations_of files.now) InDomain)) }
{
    let parameters = earlier(unknown_parameter(files), later_fault(alloc, files)?);
    let objects = earlier(
        redeclared_object(files, &files.domain.constants),
        parameters,
    );
    let constants = earlier(unknown_type(&files.types, &files.domain.constants), objects);
    Ok(earlier(kinds_fault(&files.types), constants))
}

/// The first fault of names in the problem.
fn problem_fault(alloc: Global, files: &Files) -> Result<Option<Found>, NoMemory>
    ensures { IfOk result (IsFirst (StandsInNames (declarations_of files.now) InProblem)) }
{
    let sites = problem_site_fault(alloc, files)?;
    let objects = earlier(redeclared_object(files, &files.problem.objects), sites);
    Ok(earlier(unknown_type(&files.types, &files.problem.objects), objects))
}

/// The first fault of names in the side list.
fn side_fault(files: &Files) -> Option<Found>
    ensures { IsFirst (StandsInNames (declarations_of files.now) InSide) result }
{
    let unknown = unknown_schema(files);
    earlier(unknown, faulty_pattern(files))
}

/// A fault that was found in a file.
fn fault_in(file: FileKind, found: Found) -> Fault
    ensures { result ≡ record { file = file; place = found.place; code = found.code } }
{
    Fault {
        file,
        place: found.place,
        code: found.code,
    }
}

/// The first fault of names in the three files.
pub fn first_fault(alloc: Global, files: &Files) -> Result<Option<Fault>, NoMemory>
    ensures first { IfOk result (λ found. IfSome found (IsFirstAmong (StandsInNames (declarations_of files.now)))) }
    ensures none { IfOk result (λ found. IfNone found (AreClean (StandsInNames (declarations_of files.now)))) }
{
    if let Some(found) = domain_fault(alloc, files)? {
        return Ok(Some(fault_in(FileKind::Domain, found)));
    }
    if let Some(found) = problem_fault(alloc, files)? {
        return Ok(Some(fault_in(FileKind::Problem, found)));
    }
    match side_fault(files) {
        Some(found) => Ok(Some(fault_in(FileKind::Side, found))),
        None => Ok(None),
    }
}

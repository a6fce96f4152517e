//! From names to numbers.

ghost use Rattle.fond_names.specs.Faults.{StandsInNames};
ghost use Rattle.fond_names.specs.Files.{declarations_of};
ghost use Rattle.fond_text.specs.Faults.{AreClean, IsFirstAmong, Refuses};
ghost use Rattle.fond_types.specs.Resolves.{IsResolved};
ghost use Rattle.std.specs.Prelude.{◌≡◌, IfOk, IfErr, OnOk};

use crate::task::numbered_task;
use fond_ast::files::{Domain, Problem, Side};
use fond_ast::task::LiftedTask;
use fond_names::files::Files;
use fond_names::first_fault::first_fault;
use fond_names::lookup::indexed;
use fond_text::fault::{FrontError, NoMemory};
use std::alloc::Global;

/// The declarations of three files, indexed, in a box.
fn boxed<'a>(
    alloc: Global,
    d: &'a Domain,
    p: &'a Problem,
    s: &'a Side,
) -> Result<Box<Files<'a>>, NoMemory>
    ensures { IfOk result (λ files. declarations_of files.value ≡ record { domain = d.now; problem = p.now; side = s.now }) }
{
    let files = indexed(alloc, d, p, s)?;
    Ok(Box::new(alloc, files)?)
}

/// The task of indexed files, or their first fault.
fn resolved(alloc: Global, files: &Files) -> Result<LiftedTask, FrontError>
    ensures resolved { IfOk result (IsResolved (declarations_of files.now)) }
    ensures clean { OnOk result (AreClean (StandsInNames (declarations_of files.now))) }
    ensures refused { IfErr result (Refuses (IsFirstAmong (StandsInNames (declarations_of files.now)))) }
{
    if let Some(fault) = first_fault(alloc, files)? {
        return Err(FrontError::Refused(fault));
    }
    Ok(numbered_task(alloc, files)?)
}

/// The task of a domain, a problem and a side list. Declarations with a fault of names are refused with the first
/// one, F13 to F20 (docs/FAULTS.md). Names are looked up by hash, so this takes time and memory in the sizes of the
/// declarations and of the ranges of their variables, and for each different list of types of a variable the time of a
/// look at each object.
pub fn resolve(alloc: Global, d: &Domain, p: &Problem, s: &Side) -> Result<LiftedTask, FrontError>
    ensures resolved { IfOk result (IsResolved (record { domain = d.now; problem = p.now; side = s.now })) }
    ensures clean { OnOk result (AreClean (StandsInNames (record { domain = d.now; problem = p.now; side = s.now }))) }
    ensures refused { IfErr result (Refuses (IsFirstAmong (StandsInNames (record { domain = d.now; problem = p.now; side = s.now })))) }
{
    let files = boxed(alloc, d, p, s)?;
    resolved(alloc, &files)
}

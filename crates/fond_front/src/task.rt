//! Reading a task, in three phases.

ghost use Rattle.fond_front.specs.Tasks.{IsTaskOf, IsFirstFault};
ghost use Rattle.fond_text.specs.Faults.{Refuses};
ghost use Rattle.std.specs.Prelude.{IfOk, IfErr};

use crate::declare::declare;
use crate::parse::parse;
use crate::texts::TaskTexts;
use fond_ast::task::LiftedTask;
use fond_text::fault::FrontError;
use fond_types::resolve::resolve;
use std::alloc::Global;

/// The task that three texts are read as, or their first fault (docs/FAULTS.md). A phase begins only if no earlier
/// phase found a fault in any of the files. Takes time and memory in the length of the texts and in the size of the ranges of
/// variables, of which equal ones are kept once, and for each different list of types of a variable the time of a look at
/// each object.
pub fn read_task(alloc: Global, texts: &TaskTexts) -> Result<LiftedTask, FrontError>
    ensures read { IfOk result (IsTaskOf texts.now) }
    ensures refused { IfErr result (Refuses (IsFirstFault texts.now)) }
{
    let trees = parse(alloc, texts)?;
    let files = declare(alloc, trees)?;
    resolve(alloc, &files.domain, &files.problem, &files.side)
}

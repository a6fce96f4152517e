//! The command `run`: the trace of a policy over recorded outcomes.

ghost use Rattle.fond_state.specs.Traces.{as_recorded};
ghost use Rattle.fond_rules.specs.Belongs.{BelongTo};
ghost use Rattle.fond_commands.specs.Rejections.{Rejects};
ghost use Rattle.fond_commands.specs.GroundRuns.{IsTraceReply};
ghost use Rattle.fond_commands.specs.Runs.{RunReply};
ghost use Rattle.std.specs.Prelude.{IfOk, IfErr};

use crate::answer::Answer;
use crate::certified::{Certified, read_certified};
use crate::rejection::Rejection;
use crate::traced::{rules_of, trace_answer};
use fond_exec::pick::AsRecorded;
use fond_exec::script::read_script;
use fond_exec::trace::trace;
use fond_front::texts::TaskTexts;
use fond_rules::rules::Rules;
use fond_task::task::Task;
use fond_text::fault::NoMemory;
use std::alloc::Global;

/// The trace of rules over the numbers of a script, with the last state.
fn script_answer(
    alloc: Global,
    task: &Task,
    rules: &Rules,
    numbers: &[u32],
) -> Result<Answer, NoMemory>
    requires { BelongTo task.now rules.now }
    ensures { IfOk result (IsTraceReply as_recorded task.now rules.now numbers.now) }
{
    let traced = trace(alloc, task, rules, &AsRecorded, numbers)?;
    Ok(trace_answer(traced))
}

/// The answer to `run`: the trace of the certificate's rules over the script, or why there is none.
pub fn run(
    alloc: Global,
    texts: &TaskTexts,
    cert: &[u8],
    script: &[u8],
) -> Result<Answer, Rejection>
    ensures replied { IfOk result (RunReply texts.now cert.now script.now) }
    ensures rejected { IfErr result (Rejects (RunReply texts.now cert.now script.now)) }
{
    let Certified { files, cert } = read_certified(alloc, texts, cert)?;
    let numbers = read_script(alloc, script)?;
    let rules = rules_of(alloc, cert);
    Ok(script_answer(alloc, &files.game, &rules, &numbers)?)
}

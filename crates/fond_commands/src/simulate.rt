//! The command `simulate`: the trace of a policy over drawn outcomes.

ghost use Rattle.fond_state.specs.Traces.{by_remainder};
ghost use Rattle.fond_demo.specs.Words.{drawn_words};
ghost use Rattle.fond_rules.specs.Belongs.{BelongTo};
ghost use Rattle.fond_commands.specs.GroundRuns.{IsTraceReply};
ghost use Rattle.fond_commands.specs.Rejections.{Rejects};
ghost use Rattle.fond_commands.specs.Simulations.{SimulateReply};
ghost use Rattle.std.specs.Prelude.{IfOk, IfErr};

use crate::answer::Answer;
use crate::certified::{Certified, read_certified};
use crate::rejection::Rejection;
use crate::traced::{rules_of, trace_answer};
use fond_demo::words::draw_words;
use fond_exec::pick::ByRemainder;
use fond_exec::trace::trace;
use fond_front::texts::TaskTexts;
use fond_rules::rules::Rules;
use fond_task::task::Task;
use fond_text::fault::NoMemory;
use std::alloc::Global;

/// The trace of rules over drawn words, with the last state.
fn drawn_answer(
    alloc: Global,
    task: &Task,
    rules: &Rules,
    seed: u64,
    steps: u32,
) -> Result<Answer, NoMemory>
    requires { BelongTo task.now rules.now }
    ensures { IfOk result (IsTraceReply by_remainder task.now rules.now (drawn_words seed steps)) }
{
    let words = draw_words(alloc, seed, steps)?;
    let traced = trace(alloc, task, rules, &ByRemainder, &words)?;
    Ok(trace_answer(traced))
}

/// The answer to `simulate`: the trace of the certificate's rules over as many drawn words as there are steps, or why there is
/// none.
pub fn simulate(
    alloc: Global,
    texts: &TaskTexts,
    cert: &[u8],
    seed: u64,
    steps: u32,
) -> Result<Answer, Rejection>
    ensures replied { IfOk result (SimulateReply texts.now cert.now seed steps) }
    ensures rejected { IfErr result (Rejects (SimulateReply texts.now cert.now seed steps)) }
{
    let Certified { files, cert } = read_certified(alloc, texts, cert)?;
    let rules = rules_of(alloc, cert);
    Ok(drawn_answer(alloc, &files.game, &rules, seed, steps)?)
}

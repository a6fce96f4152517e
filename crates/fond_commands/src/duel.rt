//! The command `duel`: the trace of a policy against an opponent.

ghost use Rattle.fond_exec.specs.Duels.{ArePicks};
ghost use Rattle.fond_rules.specs.Belongs.{BelongTo};
ghost use Rattle.fond_state.specs.Traces.{as_recorded};
ghost use Rattle.fond_commands.specs.Duels.{DuelReply};
ghost use Rattle.fond_commands.specs.GroundRuns.{IsTraceReply};
ghost use Rattle.fond_commands.specs.Rejections.{Rejects};
ghost use Rattle.std.specs.Prelude.{◌≡◌, ℕ, List, length, IfOk, IfErr};

use crate::answer::Answer;
use crate::certified::{Certified, read_certified};
use crate::rejection::Rejection;
use crate::traced::{rules_of, trace_answer};
use fond_exec::duel::worst_picks;
use fond_exec::pick::AsRecorded;
use fond_exec::trace::trace;
use fond_front::texts::TaskTexts;
use fond_rules::rules::Rules;
use fond_task::task::Task;
use fond_text::fault::NoMemory;
use std::alloc::Global;

/// The trace of rules over the picks of a duel, with the last state.
fn duel_answer(alloc: Global, task: &Task, rules: &Rules, steps: u32) -> Result<Answer, NoMemory>
    requires { BelongTo task.now rules.now }
    ensures { IfOk result (λ answer. (words : List ℕ) × (length words ≡ steps) × ArePicks task.now rules.now task.now.init words × IsTraceReply as_recorded task.now rules.now words answer) }
{
    let words = worst_picks(alloc, task, rules, steps)?;
    let traced = trace(alloc, task, rules, &AsRecorded, &words)?;
    Ok(trace_answer(traced))
}

/// The answer to `duel`: the trace of the certificate's rules against an opponent, or why there is none.
pub fn duel(alloc: Global, texts: &TaskTexts, cert: &[u8], steps: u32) -> Result<Answer, Rejection>
    ensures replied { IfOk result (DuelReply texts.now cert.now steps) }
    ensures rejected { IfErr result (Rejects (DuelReply texts.now cert.now steps)) }
{
    let Certified { files, cert } = read_certified(alloc, texts, cert)?;
    let rules = rules_of(alloc, cert);
    Ok(duel_answer(alloc, &files.game, &rules, steps)?)
}

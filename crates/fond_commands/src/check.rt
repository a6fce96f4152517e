//! The command `check`: whether a certificate is correct.

ghost use Rattle.fond_policy.specs.Belongs.{Belongs};
ghost use Rattle.fond_check.specs.Verdicts.{IsVerdict};
ghost use Rattle.fond_check.specs.declared.verdict.Verdict.{Verdict};
ghost use Rattle.fond_commands.specs.Checks.{CheckReply, verdict_reply, verdict_ending};
ghost use Rattle.fond_commands.specs.Rejections.{Rejects};
ghost use Rattle.std.specs.Prelude.{◌≡◌, IfOk, IfErr};

use crate::answer::Answer;
use crate::certified::read_certified;
use crate::rejection::Rejection;
use crate::status::Ending;
use fond_check::check::check;
use fond_check::text::verdict_text;
use fond_check::verdict::Verdict;
use fond_front::texts::TaskTexts;
use fond_policy::cert::Cert;
use fond_task::task::Task;
use fond_text::fault::NoMemory;
use std::alloc::Global;

/// The ending after a verdict.
fn ending_of(verdict: &Verdict) -> Ending
    ensures { result ≡ verdict_ending verdict.now }
{
    match verdict {
        Verdict::Accepted { .. } => Ending::Done,
        _ => Ending::Rejected,
    }
}

/// The answer of a verdict on a certificate.
pub fn answer_of(
    alloc: Global,
    game: &Task,
    cert: &Cert,
    verdict: &Verdict,
) -> Result<Answer, NoMemory>
    ensures { IfOk result (λ answer. answer ≡ verdict_reply game.now cert.now verdict.now) }
{
    let text = verdict_text(alloc, game, cert, verdict)?;
    Ok(Answer::new(text, ending_of(verdict)))
}

/// The answer to a certificate: the verdict on it.
fn verdict_answer(alloc: Global, game: &Task, cert: &Cert) -> Result<Answer, NoMemory>
    requires { Belongs game.now cert.now }
    ensures { IfOk result (λ answer. (verdict : Verdict) × IsVerdict game.now cert.now verdict × (answer ≡ verdict_reply game.now cert.now verdict)) }
{
    let verdict = check(alloc, game, cert)?;
    answer_of(alloc, game, cert, &verdict)
}

/// The answer to `check`: the verdict on the certificate, or why there is none.
pub fn check_cert(alloc: Global, texts: &TaskTexts, cert: &[u8]) -> Result<Answer, Rejection>
    ensures replied { IfOk result (CheckReply texts.now cert.now) }
    ensures rejected { IfErr result (Rejects (CheckReply texts.now cert.now)) }
{
    let read = read_certified(alloc, texts, cert)?;
    Ok(verdict_answer(alloc, &read.files.game, &read.cert)?)
}

//! The command `migrate`: a certificate with a cover in place of its reach number.

ghost use Rattle.fond_covering.specs.Coverings.{MayBeCovered};
ghost use Rattle.fond_policy.specs.Parts.{IsRight};
ghost use Rattle.fond_commands.specs.Certified.{IsCertText};
ghost use Rattle.fond_commands.specs.Checks.{IsFault};
ghost use Rattle.fond_commands.specs.Migrations.{AnswersMigrate, IsCoverText, IsToCover, MigrateReply};
ghost use Rattle.fond_commands.specs.Rejections.{Rejects};
ghost use Rattle.std.specs.Prelude.{Decides, IfOk, IfErr};

use crate::answer::Answer;
use crate::certified::{Certified, read_certified};
use crate::check::answer_of;
use crate::rejection::Rejection;
use crate::status::Ending;
use fond_cert::print::print_cert;
use fond_check::check::check;
use fond_check::verdict::Verdict;
use fond_covering::cover::cover;
use fond_front::texts::TaskTexts;
use fond_policy::cert::Cert;
use fond_task::task::Task;
use fond_text::fault::NoMemory;
use std::alloc::Global;

/// Whether the certificate is a policy whose reach number is below 2^32.
fn is_to_cover(cert: &Cert) -> bool
    ensures { Decides result (IsToCover cert.now) }
{
    match cert {
        Cert::Policy { reach, .. } => *reach <= u64::from(u32::MAX),
        Cert::Refusal { .. } => false,
        Cert::Covered { .. } => false,
    }
}

/// Whether the verdict is a fault.
fn is_fault(verdict: &Verdict) -> bool
    ensures { Decides result (IsFault verdict.now) }
{
    !matches!(verdict, Verdict::Accepted { .. })
}

/// The text of a policy with a cover in place of its reach number.
fn cover_text(alloc: Global, game: &Task, cert: Cert) -> Result<Vec<u8>, NoMemory>
    requires { MayBeCovered game.now cert }
    ensures { IfOk result (λ text. IsCoverText game.now cert text.items) }
{
    let covered = cover(alloc, game, cert)?;
    print_cert(alloc, game, &covered)
}

/// The answer to a correct certificate, which has this text.
fn correct_answer(alloc: Global, game: &Task, cert: Cert, text: &[u8]) -> Result<Answer, NoMemory>
    requires spelled { IsCertText game.now cert text.now }
    requires right { IsRight game.now cert }
    ensures { IfOk result (AnswersMigrate text.now game.now cert) }
{
    if is_to_cover(&cert) {
        let covered = cover_text(alloc, game, cert)?;
        return Ok(Answer::new(covered, Ending::Done));
    }
    Ok(Answer::new(Vec::from_slice(alloc, text)?, Ending::Done))
}

/// The answer to a certificate, which has this text: the verdict on one that is not correct, or a correct one.
fn migrated(alloc: Global, game: &Task, cert: Cert, text: &[u8]) -> Result<Answer, NoMemory>
    requires { IsCertText game.now cert text.now }
    ensures { IfOk result (AnswersMigrate text.now game.now cert) }
{
    let verdict = check(alloc, game, &cert)?;
    if is_fault(&verdict) {
        return answer_of(alloc, game, &cert, &verdict);
    }
    correct_answer(alloc, game, cert, text)
}

/// The answer to `migrate`: a correct certificate with a cover, or the verdict on one that is not correct, or why there is none.
pub fn migrate(alloc: Global, texts: &TaskTexts, cert: &[u8]) -> Result<Answer, Rejection>
    ensures replied { IfOk result (MigrateReply texts.now cert.now) }
    ensures rejected { IfErr result (Rejects (MigrateReply texts.now cert.now)) }
{
    let Certified { files, cert: read } = read_certified(alloc, texts, cert)?;
    Ok(migrated(alloc, &files.game, read, cert)?)
}

//! The command `rate`: whether a certificate of least rank is correct, and the rank.

ghost use Rattle.fond_best.specs.Ratings.{IsRating};
ghost use Rattle.fond_best.specs.declared.rated.Rated.{Rated as Verdict};
ghost use Rattle.fond_commands.specs.Ratings.{AnswersRate, RateReply, rated_ending, rated_reply};
ghost use Rattle.fond_commands.specs.Rejections.{Rejects};
ghost use Rattle.fond_ground.specs.Grounds.{IsGroundOf};
ghost use Rattle.fond_policy.specs.Belongs.{BelongsAsBest};
ghost use Rattle.std.specs.Prelude.{◌≡◌, IfOk, IfErr};

use crate::answer::Answer;
use crate::rejection::Rejection;
use crate::status::Ending;
use crate::task_files::read_files;
use fond_ast::task::LiftedTask;
use fond_best::rate::rate;
use fond_best::rated::Rated;
use fond_best::text::rated_text;
use fond_cert::read::read_best;
use fond_front::texts::TaskTexts;
use fond_policy::best::BestCert;
use fond_task::task::Task;
use fond_text::fault::NoMemory;
use std::alloc::Global;

/// The ending after a verdict.
fn ending_of(rated: Rated) -> Ending
    ensures { result ≡ rated_ending rated }
{
    match rated {
        Rated::Least { .. } => Ending::Done,
        _ => Ending::Rejected,
    }
}

/// The answer to a certificate: the verdict on it.
fn verdict_on(alloc: Global, game: &Task, cert: &BestCert) -> Result<Answer, NoMemory>
    requires { BelongsAsBest game.now cert.now }
    ensures { IfOk result (λ answer. (rated : Verdict) × IsRating game.now cert.now rated × (answer ≡ rated_reply game.now rated)) }
{
    let rated = rate(alloc, game, cert)?;
    let text = rated_text(alloc, game, rated)?;
    Ok(Answer::new(text, ending_of(rated)))
}

/// The answer to the certificate that a text spells, or why there is none.
fn rated(alloc: Global, task: &LiftedTask, game: &Task, text: &[u8]) -> Result<Answer, Rejection>
    requires { IsGroundOf task.now game.now }
    ensures replied { IfOk result (AnswersRate text.now task.now game.now) }
    ensures rejected { IfErr result (Rejects (AnswersRate text.now task.now game.now)) }
{
    let cert = read_best(alloc, game, text)?;
    Ok(verdict_on(alloc, game, &cert)?)
}

/// The answer to `rate`: the verdict on a certificate of least rank, or why there is none.
pub fn rate_cert(alloc: Global, texts: &TaskTexts, cert: &[u8]) -> Result<Answer, Rejection>
    ensures replied { IfOk result (RateReply texts.now cert.now) }
    ensures rejected { IfErr result (Rejects (RateReply texts.now cert.now)) }
{
    let files = read_files(alloc, texts)?;
    let task: &LiftedTask = &files.task;
    let game: &Task = &files.game;
    rated(alloc, task, game, cert)
}

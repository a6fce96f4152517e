//! The command `plan`: a policy, or that there is none.

ghost use Rattle.fond_planner.specs.Decisions.{IsDecision, IsGoodCert};
ghost use Rattle.fond_planner.specs.declared.decide.Decision.{Decision};
ghost use Rattle.fond_ground.specs.Grounds.{IsGroundOf};
ghost use Rattle.fond_tool.specs.Decided.{cert_ending, decision_reply};
ghost use Rattle.fond_tool.specs.Plans.{AnswersPlan, PlanReply};
ghost use Rattle.fond_commands.specs.Rejections.{Rejects};
ghost use Rattle.fond_cert.specs.Spellings.{spelling};
ghost use Rattle.std.specs.Prelude.{◌≡◌, ◌≤◌, IfOk, IfErr};

use fond_cert::text::CertText;
use fond_commands::answer::{Answer, undecided};
use fond_commands::rejection::Rejection;
use fond_commands::status::Ending;
use fond_commands::task_files::{TaskFiles, read_files};
use fond_front::texts::TaskTexts;
use fond_guess::guide::Guide;
use fond_planner::decide::{Decision, decide_with};
use fond_policy::cert::Cert;
use fond_task::task::Task;
use fond_text::fault::NoMemory;
use std::alloc::Global;

/// The ending after a certificate is printed.
fn ending_of(cert: &Cert) -> Ending
    ensures { result ≡ cert_ending cert.now }
{
    match cert {
        Cert::Policy { .. } => Ending::Done,
        Cert::Refusal { .. } => Ending::Unsolvable,
        Cert::Covered { .. } => Ending::Done,
    }
}

/// The answer of a certificate: its text.
fn cert_answer(game: Box<Task>, cert: Cert) -> Answer
    requires { IsGoodCert game.value cert }
    ensures { result ≡ record { text = spelling game.value cert; ending = cert_ending cert } }
{
    let ending = ending_of(&cert);
    Answer::of_cert(CertText::new(game, cert), ending)
}

/// The answer to a task and a budget: what is decided about it.
fn decision_answer(alloc: Global, game: Box<Task>, budget: u32) -> Result<Answer, NoMemory>
    requires { budget ≤ 1000000 }
    ensures { IfOk result (λ answer. (decision : Decision) × IsDecision game.value budget decision × (answer ≡ decision_reply game.value budget decision)) }
{
    match decide_with::<Guide>(alloc, &game, budget)? {
        Decision::Certified(cert) => Ok(cert_answer(game, cert)),
        Decision::Undecided => undecided(alloc, budget),
    }
}

/// The answer to a budget in a task.
pub(crate) fn planned(alloc: Global, files: TaskFiles, budget: u32) -> Result<Answer, NoMemory>
    requires few { budget ≤ 1000000 }
    requires ground { IsGroundOf files.task.value files.game.value }
    ensures { IfOk result (AnswersPlan files.task.value files.game.value budget) }
{
    decision_answer(alloc, files.game, budget)
}

/// The answer to `plan`: a policy, that there is none, or that more states are reachable than the budget and the initial state
/// is not hopeless.
pub fn plan(alloc: Global, texts: &TaskTexts, budget: u32) -> Result<Answer, Rejection>
    requires { budget ≤ 1000000 }
    ensures replied { IfOk result (PlanReply texts.now budget) }
    ensures rejected { IfErr result (Rejects (PlanReply texts.now budget)) }
{
    let files = read_files(alloc, texts)?;
    Ok(planned(alloc, files, budget)?)
}

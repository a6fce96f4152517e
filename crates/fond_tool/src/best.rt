//! The command `best`: a policy of least rank, or that there is no policy.

ghost use Rattle.fond_commands.specs.Rejections.{Rejects};
ghost use Rattle.fond_ground.specs.Grounds.{IsGroundOf};
ghost use Rattle.fond_shortest.specs.Bests.{IsBestAnswer};
ghost use Rattle.fond_tool.specs.Bests.{AnswersBest, BestReply, best_reply};
ghost use Rattle.std.specs.Prelude.{◌≡◌, ◌≤◌, IfOk, IfErr};

use fond_cert::print::{print_best, print_cert};
use fond_commands::answer::{Answer, undecided};
use fond_commands::rejection::Rejection;
use fond_commands::status::Ending;
use fond_commands::task_files::{TaskFiles, read_files};
use fond_front::texts::TaskTexts;
use fond_guess::guide::Guide;
use fond_shortest::answer::BestAnswer;
use fond_shortest::best::best;
use fond_task::task::Task;
use fond_text::fault::NoMemory;
use std::alloc::Global;

/// The answer of what is found.
fn answer_of(alloc: Global, game: &Task, budget: u32, found: BestAnswer) -> Result<Answer, NoMemory>
    requires { IsBestAnswer game.now budget found }
    ensures { IfOk result (λ answer. answer ≡ best_reply game.now budget found) }
{
    match found {
        BestAnswer::Least(cert) => {
            let text = print_best(alloc, game, &cert)?;
            Ok(Answer::new(text, Ending::Done))
        }
        BestAnswer::Refusal(cert) => {
            let text = print_cert(alloc, game, &cert)?;
            Ok(Answer::new(text, Ending::Unsolvable))
        }
        BestAnswer::Undecided => undecided(alloc, budget),
    }
}

/// The answer to a budget in a task.
fn shortest(alloc: Global, files: TaskFiles, budget: u32) -> Result<Answer, NoMemory>
    requires few { budget ≤ 1000000 }
    requires ground { IsGroundOf files.task.value files.game.value }
    ensures { IfOk result (AnswersBest files.task.value files.game.value budget) }
{
    let game: &Task = &files.game;
    let found = best::<Guide>(alloc, game, budget)?;
    answer_of(alloc, game, budget, found)
}

/// The answer to `best`: a policy of least rank with the proof that none has a smaller one, that there is no policy, or that more states
/// are reachable than the budget.
pub fn find_best(alloc: Global, texts: &TaskTexts, budget: u32) -> Result<Answer, Rejection>
    requires { budget ≤ 1000000 }
    ensures replied { IfOk result (BestReply texts.now budget) }
    ensures rejected { IfErr result (Rejects (BestReply texts.now budget)) }
{
    let files = read_files(alloc, texts)?;
    Ok(shortest(alloc, files, budget)?)
}

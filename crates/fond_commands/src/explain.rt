//! The command `explain`: a policy from elsewhere, judged.

ghost use Rattle.fond_ground.specs.Grounds.{IsGroundOf};
ghost use Rattle.fond_lasso.specs.Told.{IsTold};
ghost use Rattle.fond_lasso.specs.declared.tell.Told.{Told as WhatIsTold};
ghost use Rattle.fond_rules.specs.Tables.{BelongAsRows, table_choice};
ghost use Rattle.fond_commands.specs.Explanations.{AnswersExplain, ExplainReply, told_reply};
ghost use Rattle.fond_commands.specs.Rejections.{Rejects};
ghost use Rattle.std.specs.Prelude.{◌≡◌, ◌≤◌, IfOk, IfErr};

use crate::answer::{Answer, undecided};
use crate::rejection::Rejection;
use crate::status::Ending;
use crate::task_files::read_files;
use fond_ast::task::LiftedTask;
use fond_cert::read::read_table;
use fond_front::texts::TaskTexts;
use fond_lasso::tell::{Told, tell};
use fond_reach::chooser::FirstRows;
use fond_rules::table::Table;
use fond_task::task::Task;
use fond_text::fault::NoMemory;
use std::alloc::Global;

/// The answer of what is told about a policy.
fn told_answer(alloc: Global, told: Told, limit: u32) -> Result<Answer, NoMemory>
    ensures { IfOk result (λ answer. answer ≡ told_reply limit told) }
{
    match told {
        Told::Solution(text) => Ok(Answer::new(text, Ending::Done)),
        Told::NoSolution(text) => Ok(Answer::new(text, Ending::NotSolution)),
        Told::Spent => undecided(alloc, limit),
    }
}

/// The answer about the policy of a table.
fn judged(alloc: Global, game: &Task, table: &Table, limit: u32) -> Result<Answer, NoMemory>
    requires few { limit ≤ 1000 }
    requires belong { BelongAsRows game.now table.now }
    ensures { IfOk result (λ answer. (told : WhatIsTold) × IsTold game.now (table_choice table.now) limit told × (answer ≡ told_reply limit told)) }
{
    let told = tell(alloc, game, &FirstRows::new(game, table), limit)?;
    told_answer(alloc, told, limit)
}

/// The answer about the policy of the table that a text spells, or why there is none.
fn explained(
    alloc: Global,
    task: &LiftedTask,
    game: &Task,
    text: &[u8],
    limit: u32,
) -> Result<Answer, Rejection>
    requires few { limit ≤ 1000 }
    requires ground { IsGroundOf task.now game.now }
    ensures replied { IfOk result (AnswersExplain text.now limit task.now game.now) }
    ensures rejected { IfErr result (Rejects (AnswersExplain text.now limit task.now game.now)) }
{
    let table = read_table(alloc, game, text)?;
    Ok(judged(alloc, game, &table, limit)?)
}

/// The answer to `explain`: whether the policy of a table is a solution, and why, or why this is not told.
pub fn explain(
    alloc: Global,
    texts: &TaskTexts,
    table: &[u8],
    limit: u32,
) -> Result<Answer, Rejection>
    requires { limit ≤ 1000 }
    ensures replied { IfOk result (ExplainReply texts.now table.now limit) }
    ensures rejected { IfErr result (Rejects (ExplainReply texts.now table.now limit)) }
{
    let files = read_files(alloc, texts)?;
    let task: &LiftedTask = &files.task;
    let game: &Task = &files.game;
    explained(alloc, task, game, table, limit)
}

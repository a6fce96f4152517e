//! The command `succ`: the states to which an action may lead from the initial state.

ghost use Rattle.fond_ground.specs.Grounds.{IsGroundOf};
ghost use Rattle.fond_succ.specs.Actions.{is_leaf_node, names_of};
ghost use Rattle.fond_commands.specs.Rejections.{Rejects};
ghost use Rattle.fond_commands.specs.Successors.{AnswersAction, AnswersNames, SuccReply};
ghost use Rattle.std.specs.Prelude.{◌≡◌, true, IfOk, IfErr};

use crate::answer::{Answer, line};
use crate::rejection::Rejection;
use crate::status::Ending;
use crate::task_files::read_files;
use fond_ast::task::LiftedTask;
use fond_front::texts::TaskTexts;
use fond_succ::action::find_action;
use fond_succ::successors::put_successors;
use fond_task::task::Task;
use fond_text::atom::GroundAction;
use fond_text::fault::NoMemory;
use fond_text::text::Text;
use fond_tree::tree::Tree;
use std::alloc::Global;

/// The successors of the initial state by a ground action.
fn successors(
    alloc: Global,
    task: &LiftedTask,
    game: &Task,
    action: &GroundAction,
) -> Result<Answer, NoMemory>
    requires { IsGroundOf task.now game.now }
    ensures { IfOk result (AnswersAction task.now action.now) }
{
    let mut text = Text::new(alloc);
    text.add(b"applicable yes\n");
    if put_successors(alloc, task, game, action, &mut text)? {
        let bytes = text.finish()?;
        Ok(Answer::new(bytes, Ending::Done))
    } else {
        line(alloc, b"applicable no", Ending::Done)
    }
}

/// The successors of the initial state by the action that a tree names, or why there are none.
fn named_successors(
    alloc: Global,
    task: &LiftedTask,
    game: &Task,
    action: &Tree,
) -> Result<Answer, Rejection>
    requires action { is_leaf_node action.now ≡ true }
    requires ground { IsGroundOf task.now game.now }
    ensures replied { IfOk result (AnswersNames task.now (names_of action.now)) }
    ensures rejected { IfErr result (Rejects (AnswersNames task.now (names_of action.now))) }
{
    let Some(named) = find_action(alloc, task, action)? else {
        return Err(Rejection::UnknownAction);
    };
    Ok(successors(alloc, task, game, &named)?)
}

/// The answer to `succ`: the successors of the initial state by an action, or why there are none.
pub fn succ(alloc: Global, texts: &TaskTexts, action: &Tree) -> Result<Answer, Rejection>
    requires { is_leaf_node action.now ≡ true }
    ensures replied { IfOk result (SuccReply texts.now (names_of action.now)) }
    ensures rejected { IfErr result (Rejects (SuccReply texts.now (names_of action.now))) }
{
    let files = read_files(alloc, texts)?;
    let task: &LiftedTask = &files.task;
    let game: &Task = &files.game;
    named_successors(alloc, task, game, action)
}

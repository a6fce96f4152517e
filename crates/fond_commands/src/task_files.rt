//! Reading a task and grounding it.

ghost use Rattle.fond_front.specs.Tasks.{IsFirstFault, IsTaskOf};
ghost use Rattle.fond_ground.specs.Faults.{IsGroundFault};
ghost use Rattle.fond_ground.specs.Grounds.{IsGroundOf};
ghost use Rattle.fond_text.specs.Faults.{Refuses};
ghost use Rattle.fond_text.specs.declared.fault.Fault.{Fault};
ghost use Rattle.fond_commands.specs.Certified.{DescribeGround};
ghost use Rattle.fond_commands.specs.Tasks.{IsRefusal};
ghost use Rattle.std.specs.Prelude.{◌≡◌, IfOk, IfErr};

use fond_ast::task::LiftedTask;
use fond_front::task::read_task;
use fond_front::texts::TaskTexts;
use fond_ground::ground::ground;
use fond_task::task::Task;
use fond_text::fault::{FrontError, NoMemory};
use std::alloc::Global;

/// A task and its ground task, in boxes, since both are large and are handed on.
#[derive(Drop)]
pub struct TaskFiles {
    pub task: Box<LiftedTask>,
    pub game: Box<Task>,
}

/// A value in a box.
fn boxed<T: Drop>(alloc: Global, value: T) -> Result<Box<T>, NoMemory>
    ensures { IfOk result (λ b. b.value ≡ value) }
{
    Ok(Box::new(alloc, value)?)
}

/// The task as which three texts are read, or their first fault.
fn boxed_task(alloc: Global, texts: &TaskTexts) -> Result<Box<LiftedTask>, FrontError>
    ensures read { IfOk result (λ task. IsTaskOf texts.now task.value) }
    ensures refused { IfErr result (Refuses (IsFirstFault texts.now)) }
{
    let task = read_task(alloc, texts)?;
    Ok(boxed(alloc, task)?)
}

/// The ground task of a task, or the fault of one that is too large.
fn boxed_game(alloc: Global, task: &LiftedTask) -> Result<Box<Task>, FrontError>
    ensures grounded { IfOk result (λ game. IsGroundOf task.now game.value) }
    ensures clean { IfOk result (λ game. (fault : Fault) → ¬ IsGroundFault task.now fault) }
    ensures refused { IfErr result (Refuses (IsGroundFault task.now)) }
{
    let game = ground(alloc, task)?;
    Ok(boxed(alloc, game)?)
}

/// The task that three texts describe, with its ground task, or the fault with which they are refused.
pub fn read_files(alloc: Global, texts: &TaskTexts) -> Result<TaskFiles, FrontError>
    ensures read { IfOk result (λ files. DescribeGround texts.now files.task.value files.game.value) }
    ensures refused { IfErr result (Refuses (IsRefusal texts.now)) }
{
    let task = boxed_task(alloc, texts)?;
    let game = boxed_game(alloc, &task)?;
    Ok(TaskFiles { task, game })
}

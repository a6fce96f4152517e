//! The command `demo`: a task that is made from a number, and its policy.

ghost use Rattle.fond_demo.specs.Demos.{shown_text};
ghost use Rattle.fond_ground.specs.Grounds.{IsGroundOf};
ghost use Rattle.fond_tool.specs.Demos.{AnswersDemo, demo_texts, DemoReply};
ghost use Rattle.fond_text.specs.Faults.{Refuses};
ghost use Rattle.fond_commands.specs.Certified.{DescribeGround};
ghost use Rattle.fond_commands.specs.Rejections.{Rejects};
ghost use Rattle.fond_commands.specs.Tasks.{IsRefusal};
ghost use Rattle.fond_commands.specs.declared.status.Ending.TheVariants.{Done as IsDone};
ghost use Rattle.std.specs.Prelude.{◌≡◌, ◌≤◌, IfOk, IfErr};

use crate::plan::planned;
use fond_commands::answer::Answer;
use fond_commands::rejection::Rejection;
use fond_commands::status::Ending;
use fond_commands::task_files::{TaskFiles, read_files};
use fond_demo::demo::demo_files;
use fond_demo::show::put_shown;
use fond_front::texts::TaskTexts;
use fond_text::fault::{FrontError, NoMemory};
use fond_text::text::Text;
use std::alloc::Global;

/// The budget of `demo`.
const BUDGET: u32 = 1_000_000;

/// The answer of a certificate between the lines of `demo`, with the numbers of atoms and actions.
fn demo_answer(
    alloc: Global,
    size: u32,
    atoms: u64,
    actions: u64,
    planned: Answer,
) -> Result<Answer, NoMemory>
    ensures { IfOk result (λ answer. answer ≡ record { text = shown_text size atoms actions planned.text; ending = IsDone }) }
{
    let cert = planned.into_text(alloc)?;
    let mut text = Text::new(alloc);
    put_shown(size as u64, atoms, actions, &cert, &mut text);
    let bytes = text.finish()?;
    Ok(Answer::new(bytes, Ending::Done))
}

/// The answer in the task of this size: its policy between the lines of `demo`, or what else `plan` answers.
fn demonstrated(alloc: Global, files: TaskFiles, size: u32) -> Result<Answer, NoMemory>
    requires { IsGroundOf files.task.value files.game.value }
    ensures { IfOk result (AnswersDemo size files.task.value files.game.value) }
{
    let atoms = files.game.atoms.len() as u64;
    let actions = files.game.acts.len() as u64;
    let planned = planned(alloc, files, BUDGET)?;
    match planned.ending() {
        Ending::Done => demo_answer(alloc, size, atoms, actions, planned),
        _ => Ok(planned),
    }
}

/// The task of this size, with its ground task.
fn read_demo(alloc: Global, size: u32) -> Result<TaskFiles, FrontError>
    requires { size ≤ 100 }
    ensures read { IfOk result (λ files. DescribeGround (demo_texts size) files.task.value files.game.value) }
    ensures refused { IfErr result (Refuses (IsRefusal (demo_texts size))) }
{
    let files = demo_files(alloc, u64::from(size))?;
    let texts = TaskTexts::new(
        files.domain.as_slice(),
        files.problem.as_slice(),
        files.side.as_slice(),
    );
    read_files(alloc, &texts)
}

/// The answer to `demo`: the policy of the task of this size between its lines, or what else `plan` answers.
pub fn demo(alloc: Global, size: u32) -> Result<Answer, Rejection>
    requires { size ≤ 100 }
    ensures replied { IfOk result (DemoReply size) }
    ensures rejected { IfErr result (Rejects (DemoReply size)) }
{
    let files = read_demo(alloc, size)?;
    Ok(demonstrated(alloc, files, size)?)
}

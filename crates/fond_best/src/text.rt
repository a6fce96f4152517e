//! Writing verdicts.

ghost use Rattle.fond_best.specs.Texts.{rated_text as text_of};
ghost use Rattle.fond_text.specs.Text.{Adds};
ghost use Rattle.std.specs.Prelude.{◌≡◌, IfOk};

use crate::rated::Rated;
use fond_check::text::{put_act, put_goal, put_line};
use fond_task::task::Task;
use fond_text::fault::NoMemory;
use fond_text::text::Text;
use std::alloc::Global;

/// Adds the line of a verdict.
fn put_rated(task: &Task, rated: Rated, text: &mut Text)
    ensures { Adds text.old text.new (text_of task.now rated) }
{
    match rated {
        Rated::Least { rank } => put_line(b"least rank ", rank, text),
        Rated::LayerGoal { layer, cube } => put_goal(b"rejected V3 layer ", layer, cube, text),
        Rated::LayerAct { layer, cube, act } => put_act(
            task,
            b"rejected V3 layer ",
            layer,
            cube,
            act,
            text,
        ),
        Rated::Rule { at } => put_line(b"rejected V1 rule ", at as u64, text),
        Rated::Item { at } => put_line(b"rejected V7 item ", at as u64, text),
        Rated::Start => text.add(b"rejected V8\n"),
        Rated::Rank { at } => put_line(b"rejected V9 item ", at as u64, text),
        Rated::FarGoal { list, cube } => put_goal(b"rejected V10 far ", list, cube, text),
        Rated::FarAct { list, cube, act } => put_act(
            task,
            b"rejected V10 far ",
            list,
            cube,
            act,
            text,
        ),
        Rated::Bound => text.add(b"rejected V11\n"),
    }
}

/// The line of a verdict (docs/CERTIFICATES.md).
pub fn rated_text(alloc: Global, task: &Task, rated: Rated) -> Result<Vec<u8>, NoMemory>
    ensures { IfOk result (λ text. text.items ≡ text_of task.now rated) }
{
    let mut text = Text::new(alloc);
    put_rated(task, rated, &mut text);
    text.finish()
}

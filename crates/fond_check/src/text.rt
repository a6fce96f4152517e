//! Writing verdicts.

ghost use Rattle.fond_check.specs.Texts.{accepted_text, numbered_text, place_text, verdict_text as text_of};
ghost use Rattle.fond_task.specs.Texts.{state_text};
ghost use Rattle.fond_text.specs.Text.{Adds};
ghost use Rattle.std.specs.Fmt.{decimal};
ghost use Rattle.std.specs.Prelude.{◌≡◌, ◌++◌, codes, IfOk};

use crate::verdict::Verdict;
use fond_policy::cert::Cert;
use fond_state::state::State;
use fond_task::task::Task;
use fond_task::text::{put_action, put_state};
use fond_text::fault::NoMemory;
use fond_text::text::Text;
use std::alloc::Global;

/// The line for a certificate that is accepted.
fn accepted_line(cert: &Cert, lean: bool) -> &'static [u8]
    ensures { result.now ≡ accepted_text cert.now lean }
{
    match cert {
        Cert::Refusal { .. } => b"accepted refusal\n".as_slice(),
        Cert::Policy { .. } | Cert::Covered { .. } if lean => {
            b"accepted policy lean\n".as_slice()
        }
        Cert::Policy { .. } | Cert::Covered { .. } => b"accepted policy plain\n".as_slice(),
    }
}

/// Adds the text of the action of this number, or nothing if there is none.
fn put_numbered(task: &Task, act: u32, text: &mut Text)
    ensures { Adds text.old text.new (numbered_text task.now act) }
{
    if (act as usize) < task.acts.len() {
        put_action(&task.labels, &task.acts.get(act as usize).ground, text);
    }
}

/// Adds the line for a cube of a list, up to what is wrong with it.
fn put_cube(words: &[u8], list: u32, cube: u32, text: &mut Text)
    ensures { Adds text.old text.new (place_text words.now list cube) }
{
    text.add(words);
    text.add_number(list as u64);
    text.add(b" cube ");
    text.add_number(cube as u64);
    text.add(b" ");
}

/// Adds the line of these words for a cube on which an action is wrong.
pub fn put_act(task: &Task, words: &[u8], list: u32, cube: u32, act: u32, text: &mut Text)
    ensures { Adds text.old text.new (place_text words.now list cube ++ numbered_text task.now act ++ codes "\n") }
{
    put_cube(words, list, cube, text);
    put_numbered(task, act, text);
    text.add(b"\n");
}

/// Adds the line of these words for a cube on which the goal may be true.
pub fn put_goal(words: &[u8], list: u32, cube: u32, text: &mut Text)
    ensures { Adds text.old text.new (place_text words.now list cube ++ codes "goal\n") }
{
    put_cube(words, list, cube, text);
    text.add(b"goal\n");
}

/// Adds the line of these words and a number.
pub fn put_line(words: &[u8], number: u64, text: &mut Text)
    ensures { Adds text.old text.new (words.now ++ decimal number ++ codes "\n") }
{
    text.add(words);
    text.add_number(number);
    text.add(b"\n");
}

/// Adds the lines for a state in which no rule holds.
fn put_unruled(task: &Task, state: &State, text: &mut Text)
    ensures { Adds text.old text.new (codes "rejected V4\n" ++ state_text task.now state.now) }
{
    text.add(b"rejected V4\n");
    put_state(task, state, text);
}

/// Adds the text of a verdict on a certificate.
fn put_verdict(task: &Task, cert: &Cert, verdict: &Verdict, text: &mut Text)
    ensures { Adds text.old text.new (text_of task.now cert.now verdict.now) }
{
    match verdict {
        Verdict::Accepted { lean } => text.add(accepted_line(cert, *lean)),
        Verdict::LayerGoal { layer, cube } => put_goal(b"rejected V3 layer ", *layer, *cube, text),
        Verdict::LayerAct { layer, cube, act } => {
            put_act(task, b"rejected V3 layer ", *layer, *cube, *act, text)
        }
        Verdict::Pair { at } => put_line(b"rejected V2 pair ", *at, text),
        Verdict::Rule { at } => put_line(b"rejected V1 rule ", *at as u64, text),
        Verdict::Count { more: true } => text.add(b"rejected V5 more\n"),
        Verdict::Count { more: false } => text.add(b"rejected V5 fewer\n"),
        Verdict::NoRule { state } => put_unruled(task, state, text),
        Verdict::Outside => text.add(b"rejected V6\n"),
        Verdict::Item { at } => put_line(b"rejected V7 item ", *at as u64, text),
        Verdict::Start => text.add(b"rejected V8\n"),
    }
}

/// The text of a verdict on a certificate, in lines (docs/CERTIFICATES.md).
pub fn verdict_text(
    alloc: Global,
    task: &Task,
    cert: &Cert,
    verdict: &Verdict,
) -> Result<Vec<u8>, NoMemory>
    ensures { IfOk result (λ text. text.items ≡ text_of task.now cert.now verdict.now) }
{
    let mut text = Text::new(alloc);
    put_verdict(task, cert, verdict, &mut text);
    text.finish()
}

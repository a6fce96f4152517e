//! The trace of a rule list over words that pick outcomes.

ghost use Rattle.std.specs.Prelude.{◌≡◌, ℕ, List, Some, IfOk};
ghost use Rattle.fond_rules.specs.Belongs.{BelongTo};
ghost use Rattle.fond_exec.specs.Traces.{IsTraceText, Trace};
ghost use Rattle.fond_task.specs.Texts.{state_text};
ghost use Rattle.fond_task.specs.Truth.{is_true};
ghost use Rattle.fond_text.specs.Text.{Adds};

use crate::choice::Choice;
use crate::executor::Executor;
use crate::lines::{put_end, put_goal, put_outcome, put_stuck, put_taken};
use crate::pick::Picks;
use fond_rules::rules::Rules;
use fond_task::task::Task;
use fond_task::text::put_state;
use fond_text::fault::NoMemory;
use fond_text::text::Text;
use std::alloc::Global;

/// The text of a trace with its last state, and whether that is a goal.
#[derive(Drop)]
pub struct Traced {
    pub text: Vec<u8>,
    pub is_goal: bool,
}

/// Adds the lines of the steps by the outcomes that the words pick.
fn put_steps<P: Picks>(task: &Task, run: &mut Executor, picks: &P, words: &[u32], text: &mut Text)
    requires { run.old.task ≡ task.now }
    ensures traced { (lines : List ℕ) × Trace (P.pick_of picks.now) run.old.task run.old.rules run.old.state words.now lines run.new.state
        × Adds text.old text.new lines }
    ensures task { run.new.task ≡ run.old.task }
{
    let mut left = words;
    while let Some((word, after)) = left.split_first() {
        match run.choice() {
            Choice::Done => return put_goal(left.len(), text),
            Choice::Stuck => return put_stuck(text),
            Choice::Chosen { rule, act, count } => {
                let outcome = picks.pick(count, *word);
                if outcome >= count {
                    return put_outcome(outcome, count, text);
                }
                run.take(rule, act, count, outcome);
                let action = &task.acts.get(act as usize).ground;
                put_taken(&task.labels, rule, action, outcome, text);
            }
        }
        left = after;
    }
    put_end(run.done(), text);
}

/// The text of the steps that a run took, with the state that it is in.
fn finished(task: &Task, run: &Executor, text: Text) -> Result<Traced, NoMemory>
    ensures text { IfOk result (λ traced. Adds text (Some traced.text.items) (state_text task.now run.now.state)) }
    ensures goal { IfOk result (λ traced. traced.is_goal ≡ is_true run.now.state run.now.task.goal) }
{
    let mut text = text;
    put_state(task, run.state(), &mut text);
    Ok(Traced {
        text: text.finish()?,
        is_goal: run.done(),
    })
}

/// The trace of the rules over these words, from the initial state of the task on, with the last state: at each step the next word
/// picks the outcome. Takes the time of the steps that are taken, and memory for two states beside the text.
pub fn trace<P: Picks>(
    alloc: Global,
    task: &Task,
    rules: &Rules,
    picks: &P,
    words: &[u32],
) -> Result<Traced, NoMemory>
    requires { BelongTo task.now rules.now }
    ensures { IfOk result (λ traced. IsTraceText (P.pick_of picks.now) task.now rules.now words.now traced.text.items traced.is_goal) }
{
    let mut run = Executor::start(alloc, task, rules)?;
    let mut text = Text::new(alloc);
    put_steps(task, &mut run, picks, words, &mut text);
    finished(task, &run, text)
}

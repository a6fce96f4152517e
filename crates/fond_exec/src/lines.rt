//! The lines of traces.

ghost use Rattle.std.specs.Prelude.{◌≡◌, ◌++◌, codes, if◌then◌else◌};
ghost use Rattle.fond_state.specs.Traces.{goal_line, outcome_line};
ghost use Rattle.fond_exec.specs.Traces.{step_line};
ghost use Rattle.fond_text.specs.Text.{Adds};

use fond_task::task::Labels;
use fond_task::text::put_action;
use fond_text::atom::GroundAction;
use fond_text::text::Text;

/// Adds the line at a goal.
pub(crate) fn put_goal(left: usize, text: &mut Text)
    ensures { Adds text.old text.new (goal_line left) }
{
    text.add(b"goal left ");
    text.add_number(left as u64);
    text.add(b"\n");
}

/// Adds the line `stuck`.
pub(crate) fn put_stuck(text: &mut Text)
    ensures { Adds text.old text.new (codes "stuck\n") }
{
    text.add(b"stuck\n");
}

/// Adds the line of an outcome that is not below the count.
pub(crate) fn put_outcome(outcome: u32, count: u32, text: &mut Text)
    ensures { Adds text.old text.new (outcome_line outcome count) }
{
    text.add(b"outcome ");
    text.add_number(outcome as u64);
    text.add(b" of ");
    text.add_number(count as u64);
    text.add(b"\n");
}

/// Adds the line of a step that is taken.
pub(crate) fn put_taken(
    labels: &Labels,
    rule: u32,
    action: &GroundAction,
    outcome: u32,
    text: &mut Text,
)
    ensures { Adds text.old text.new (step_line labels.now rule action.now outcome) }
{
    text.add(b"rule ");
    text.add_number(rule as u64);
    text.add(b" ");
    put_action(labels, action, text);
    text.add(b" outcome ");
    text.add_number(outcome as u64);
    text.add(b"\n");
}

/// Adds the last line, once no outcome is left.
pub(crate) fn put_end(is_goal: bool, text: &mut Text)
    ensures { Adds text.old text.new (if is_goal then goal_line 0 else codes "ended\n") }
{
    if is_goal {
        put_goal(0, text);
    } else {
        text.add(b"ended\n");
    }
}

//! What the commands that follow rules have in common.

ghost use Rattle.fond_commands.specs.Certified.{rules_of as all_rules_of};
ghost use Rattle.fond_commands.specs.GroundRuns.{trace_ending};
ghost use Rattle.std.specs.Prelude.{◌≡◌};

use crate::answer::Answer;
use crate::status::Ending;
use fond_exec::trace::Traced;
use fond_policy::cert::Cert;
use fond_rules::rules::Rules;
use std::alloc::Global;

/// The rules of a certificate. A refusal has none.
pub fn rules_of(alloc: Global, cert: Cert) -> Rules
    ensures { result ≡ all_rules_of cert }
{
    match cert {
        Cert::Policy { rules, .. } => rules,
        Cert::Refusal { .. } => Rules::new(alloc),
        Cert::Covered { rules, .. } => rules,
    }
}

/// The answer of a trace: its text, and whether it ends at a goal.
pub fn trace_answer(traced: Traced) -> Answer
    ensures { result ≡ record { text = traced.text.items; ending = trace_ending traced.is_goal } }
{
    let ending = if traced.is_goal {
        Ending::Done
    } else {
        Ending::Stopped
    };
    Answer::new(traced.text, ending)
}

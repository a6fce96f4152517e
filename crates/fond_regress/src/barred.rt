//! Whether pairs bar an action in a state.

ghost use Rattle.fond_task.specs.declared.rule.Pair.{Pair};
ghost use Rattle.fond_regress.specs.Barred.{Bars, IsBarred};
ghost use Rattle.std.specs.Prelude.{◌≡◌, length, Contains, Decides};

use fond_state::state::State;
use fond_task::rule::Pair;

/// Whether the pair bars the action in the state.
fn bars(pair: &Pair, act: u32, state: &State) -> bool
    requires { length pair.now.cond ≡ length state.now }
    ensures { Decides result (Bars pair.now act state.now) }
{
    if pair.act != act {
        return false;
    }
    pair.cond.holds(state)
}

/// Whether one of the pairs bars the action in the state.
pub fn is_barred(pairs: &[Pair], act: u32, state: &State) -> bool
    requires { (pair : Pair) → Contains pairs.now pair → length pair.cond ≡ length state.now }
    ensures { Decides result (IsBarred pairs.now act state.now) }
{
    for pair in pairs {
        if bars(pair, act, state) {
            return true;
        }
    }
    false
}

//! The first item of a certificate that is not sure, and whether a state lies in an item.

ghost use Rattle.fond_check.specs.Verdicts.{IsFirstBadItem};
ghost use Rattle.fond_policy.specs.Covers.{IsIn};
ghost use Rattle.fond_policy.specs.Items.{firsts_of, AreItemsOver, AreSureItems, Belong};
ghost use Rattle.fond_task.specs.declared.rule.Rule.{Rule};
ghost use Rattle.std.specs.Prelude.{◌≡◌, List, length, Decides, MatchOption};

use fond_policy::conditions::Conditions;
use fond_policy::items::Items;
use fond_policy::pad::CoverPad;
use fond_policy::sure::sure_item;
use fond_state::state::State;
use fond_task::task::Task;

/// The number of the first item that is not sure. Takes the time of `sure_item` for each item.
pub fn first_bad_item(
    t: &Task,
    conditions: &Conditions<'_>,
    items: &Items,
    pad: &mut CoverPad,
) -> Option<u32>
    requires belong { Belong t.now conditions.now }
    requires over { AreItemsOver (length t.now.atoms) items.now }
    requires pad { pad.old ≡ length t.now.atoms }
    ensures same_pad { pad.new ≡ pad.old }
    ensures first { (rules : List Rule) → conditions.now ≡ firsts_of rules → MatchOption result (AreSureItems t.now conditions.now items.now) (IsFirstBadItem t.now rules items.now) }
{
    for at in 0..items.len() {
        if !sure_item(t, conditions, items, at, pad) {
            return Some(at);
        }
    }
    None
}

/// Whether there is an item of this number, and the state lies in its cube.
pub fn is_in_item(items: &Items, number: u32, state: &State) -> bool
    requires { AreItemsOver (length state.now) items.now }
    ensures { Decides result (IsIn items.now number state.now) }
{
    if number >= items.len() {
        return false;
    }
    items.get(number).cube.holds(state)
}

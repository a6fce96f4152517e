//! Whether all pairs, rules and items of a certificate are lean.

ghost use Rattle.fond_policy.specs.Parts.{AreAllLean, AreLean};
ghost use Rattle.fond_policy.specs.Items.{firsts_of, AreItemsOver, AreLeanItems, Belong};
ghost use Rattle.fond_task.specs.Rules.{IsLeanPair, IsLeanRule};
ghost use Rattle.fond_task.specs.declared.rule.Pair.{Pair};
ghost use Rattle.fond_task.specs.declared.rule.Rule.{Rule};
ghost use Rattle.fond_layers.specs.Over.{AreOver};
ghost use Rattle.fond_rules.specs.Belongs.{ArePairsOver, BelongTo};
ghost use Rattle.std.specs.Prelude.{◌≡◌, ℕ, length, slice_get, Some, Contains, Decides};

use crate::parts::is_lean_pair;
use fond_layers::layers::Layers;
use fond_policy::conditions::Conditions;
use fond_policy::items::Items;
use fond_policy::lean::lean_item;
use fond_policy::pad::CoverPad;
use fond_rules::pad::Pad;
use fond_rules::pairs::Pairs;
use fond_rules::rules::Rules;
use fond_rules::sure_rules::lean_rule;
use fond_task::task::Task;

/// Whether all pairs are lean.
fn are_pairs_lean(t: &Task, layers: &Layers, pairs: &Pairs, pad: &mut Pad) -> bool
    requires over { AreOver (length t.now.atoms) layers.now }
    requires pairs_over { ArePairsOver (length t.now.atoms) pairs.now }
    requires pad { pad.old ≡ length t.now.atoms }
    ensures same_pad { pad.new ≡ pad.old }
    ensures decides { Decides result ((pair : Pair) → Contains pairs.now pair → IsLeanPair t.now layers.now pair) }
{
    for at in 0..pairs.len() {
        if !is_lean_pair(t, layers, pairs.get(at), pad) {
            return false;
        }
    }
    true
}

/// Whether all rules are lean.
fn are_rules_lean(t: &Task, pairs: &Pairs, rules: &Rules, pad: &mut Pad) -> bool
    requires pairs_over { ArePairsOver (length t.now.atoms) pairs.now }
    requires belong { BelongTo t.now rules.now }
    requires pad { pad.old ≡ length t.now.atoms }
    ensures same_pad { pad.new ≡ pad.old }
    ensures decides { Decides result ((number : ℕ) (rule : Rule) → slice_get rules.now number ≡ Some rule → IsLeanRule t.now pairs.now rules.now number rule) }
{
    for at in 0..rules.len() {
        if !lean_rule(t, pairs, rules, at, rules.get(at), pad) {
            return false;
        }
    }
    true
}

/// Whether all pairs and rules are lean. Takes, for each pair and rule, the time of its test once for each of its
/// literals.
pub(crate) fn are_lean(
    t: &Task,
    layers: &Layers,
    pairs: &Pairs,
    rules: &Rules,
    pad: &mut Pad,
) -> bool
    requires over { AreOver (length t.now.atoms) layers.now }
    requires pairs_over { ArePairsOver (length t.now.atoms) pairs.now }
    requires belong { BelongTo t.now rules.now }
    requires pad { pad.old ≡ length t.now.atoms }
    ensures same_pad { pad.new ≡ pad.old }
    ensures decides { Decides result (AreLean t.now layers.now pairs.now rules.now) }
{
    are_pairs_lean(t, layers, pairs, pad) && are_rules_lean(t, pairs, rules, pad)
}

/// Whether all items are lean. Takes the time of `lean_item` for each item.
fn are_items_lean(t: &Task, conditions: &Conditions<'_>, items: &Items, pad: &mut CoverPad) -> bool
    requires belong { Belong t.now conditions.now }
    requires over { AreItemsOver (length t.now.atoms) items.now }
    requires pad { pad.old ≡ length t.now.atoms }
    ensures same_pad { pad.new ≡ pad.old }
    ensures decides { Decides result (AreLeanItems t.now conditions.now items.now) }
{
    for at in 0..items.len() {
        if !lean_item(t, conditions, items, at, pad) {
            return false;
        }
    }
    true
}

/// Whether all pairs, rules and items are lean. Takes the time of `are_lean`, and that of `lean_item` for each item.
pub(crate) fn are_all_lean(
    t: &Task,
    layers: &Layers,
    pairs: &Pairs,
    rules: &Rules,
    conditions: &Conditions<'_>,
    items: &Items,
    pad: &mut Pad,
    cover_pad: &mut CoverPad,
) -> bool
    requires over { AreOver (length t.now.atoms) layers.now }
    requires pairs_over { ArePairsOver (length t.now.atoms) pairs.now }
    requires belong { BelongTo t.now rules.now }
    requires same { conditions.now ≡ firsts_of rules.now }
    requires items_over { AreItemsOver (length t.now.atoms) items.now }
    requires pad { pad.old ≡ length t.now.atoms }
    requires cover_pad { cover_pad.old ≡ length t.now.atoms }
    ensures { Decides result (AreAllLean t.now layers.now pairs.now rules.now items.now) }
{
    are_lean(t, layers, pairs, rules, pad) && are_items_lean(t, conditions, items, cover_pad)
}

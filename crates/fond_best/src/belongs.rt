//! Whether a certificate of least rank belongs to a task.

ghost use Rattle.fond_policy.specs.Belongs.{BelongAsItems, BelongAsLayers, BelongAsRules, BelongsAsBest, HasNumber};
ghost use Rattle.fond_policy.specs.declared.item.Item.{Item};
ghost use Rattle.fond_policy.specs.declared.item.Way.TheVariants.{Goal};
ghost use Rattle.fond_rules.specs.Belongs.{HasTarget, HaveTargets};
ghost use Rattle.std.specs.Prelude.{◌≡◌, ℕ, All, Some, length, slice_get, Decides};

use fond_layers::layers::Layers;
use fond_policy::best::{BestCert, Ranks};
use fond_policy::item::Way;
use fond_policy::items::Items;
use fond_rules::rules::Rules;
use fond_task::rule::Targets;
use fond_task::task::Task;

/// Whether the targets are at least one.
fn has_target(targets: &Targets) -> bool
    ensures { Decides result (HasTarget targets.now) }
{
    match targets {
        Targets::One { .. } => true,
        Targets::All(targets) => targets.len() > 0,
    }
}

/// Whether each rule has a target.
fn have_targets(rules: &Rules) -> bool
    ensures { Decides result (HaveTargets rules.now) }
{
    for number in 0..rules.len() {
        if !has_target(&rules.get(number).targets) {
            return false;
        }
    }
    true
}

/// Whether the rules belong to the task. Takes time in their number.
pub fn do_rules_belong(t: &Task, rules: &Rules) -> bool
    ensures { Decides result (BelongAsRules t.now rules.now) }
{
    let _count = rules.len();
    rules.belong_to(t) && have_targets(rules)
}

/// Whether the layers belong to the task. Takes time in the number of their cubes.
fn do_layers_belong(t: &Task, layers: &Layers) -> bool
    ensures { Decides result (BelongAsLayers t.now layers.now) }
{
    layers.read_sizes();
    layers.are_over(t.atoms.len())
}

/// Whether the way has an item number, if it is one by a rule.
fn has_number(way: &Way) -> bool
    ensures { Decides result (HasNumber way.now) }
{
    match way {
        Way::Goal => true,
        Way::Rule { items, .. } => items.len() > 0,
    }
}

/// Whether each way by a rule has an item number.
fn have_numbers(items: &Items) -> bool
    ensures { Decides result (All (λ item. HasNumber item.way) items.now) }
{
    for number in 0..items.len() {
        if !has_number(&items.get(number).way) {
            return false;
        }
    }
    true
}

/// Whether the items belong to the task. Takes time in their number.
fn do_items_belong(t: &Task, items: &Items) -> bool
    ensures { Decides result (BelongAsItems t.now items.now) }
{
    let _count = items.len();
    items.are_over(t.atoms.len()) && have_numbers(items)
}

/// Whether each goal item has rank 0.
fn are_goals_ranked(items: &Items, ranks: &Ranks) -> bool
    requires { length ranks.now ≡ length items.now }
    ensures { Decides result ((number : ℕ) (item : Item) (rank : ℕ) → slice_get items.now number ≡ Some item → item.way ≡ Goal → slice_get ranks.now number ≡ Some rank → rank ≡ 0) }
{
    for number in 0..items.len() {
        let is_goal = matches!(&items.get(number).way, Way::Goal);
        if is_goal && *ranks.get(number as usize) != 0 {
            return false;
        }
    }
    true
}

/// Whether the certificate belongs to the task. Takes time in the number of its rules, items and cubes.
pub fn does_belong(t: &Task, cert: &BestCert) -> bool
    ensures { Decides result (BelongsAsBest t.now cert.now) }
{
    if cert.ranks.len() != cert.items.len() as usize
        || !are_goals_ranked(&cert.items, &cert.ranks)
    {
        return false;
    }
    do_layers_belong(t, &cert.layers)
        && do_rules_belong(t, &cert.rules)
        && do_items_belong(t, &cert.items)
        && do_layers_belong(t, &cert.far)
}

//! What the values of a line make. No call takes memory.

ghost use Rattle.fond_cert.specs.Filled.{Hold, pair_of as the_pair, fair_of as the_fair, unfair_of as the_unfair, goal_item_of as the_goal_item, rule_item_of as the_rule_item, ranked_item_of as the_ranked_item, row_of as the_row};
ghost use Rattle.fond_cert.specs.Spellings.{Meanings, AreOfTask};
ghost use Rattle.fond_form.specs.Forms.{form};
ghost use Rattle.fond_form.specs.declared.table.LineKind.TheVariants as k;
ghost use Rattle.fond_task.specs.declared.task.Task.{Task};
ghost use Rattle.std.specs.Prelude.{◌≡◌, ◌≢◌, None};

use crate::values::LineValues;
use fond_policy::item::{Item, Way};
use fond_rules::table::TableRow;
use fond_state::cube::Cube;
use fond_task::rule::{Pair, Rule, Targets};
use std::alloc::Global;

/// The cube of the line.
pub(crate) fn cube_of(values: &mut LineValues) -> Cube
    requires { values.old.cube ≢ None }
    ensures cube { Some result ≡ values.old.cube }
    ensures rest { values.new ≡ record values.old { cube = None } }
{
    let Some(cube) = values.cube.take() else {
        unreachable!();
    };
    cube
}

/// The pair of the line.
pub(crate) fn pair_of(values: &mut LineValues) -> Pair
    requires { (meanings : Meanings (form k.Pair)) × Hold k.Pair values.old meanings }
    ensures { (task : Task) (meanings : Meanings (form k.Pair)) → AreOfTask task (form k.Pair) meanings → Hold k.Pair values.old meanings → result ≡ the_pair meanings }
{
    Pair {
        cond: cube_of(values),
        act: values.act,
        outcome: values.short(0),
        layer: values.short(1),
        cube: values.short(2),
    }
}

/// The rule of a fair action of the line.
pub(crate) fn fair_of(values: &mut LineValues) -> Rule
    requires { (meanings : Meanings (form k.FairRule)) × Hold k.FairRule values.old meanings }
    ensures { (task : Task) (meanings : Meanings (form k.FairRule)) → AreOfTask task (form k.FairRule) meanings → Hold k.FairRule values.old meanings → result ≡ the_fair meanings }
{
    let cond = cube_of(values);
    Rule {
        cond,
        act: values.act,
        targets: Targets::One {
            outcome: values.short(0),
            target: values.target(),
        },
    }
}

/// The rule of an unfair action of the line.
pub(crate) fn unfair_of(alloc: Global, values: &mut LineValues) -> Rule
    requires { (meanings : Meanings (form k.UnfairRule)) × Hold k.UnfairRule values.old meanings }
    ensures { (task : Task) (meanings : Meanings (form k.UnfairRule)) → AreOfTask task (form k.UnfairRule) meanings → Hold k.UnfairRule values.old meanings → result ≡ the_unfair meanings }
{
    let cond = cube_of(values);
    Rule {
        cond,
        act: values.act,
        targets: Targets::All(values.take_targets(alloc)),
    }
}

/// The item of goals of the line.
pub(crate) fn goal_item_of(values: &mut LineValues) -> Item
    requires { (meanings : Meanings (form k.GoalItem)) × Hold k.GoalItem values.old meanings }
    ensures { (task : Task) (meanings : Meanings (form k.GoalItem)) → AreOfTask task (form k.GoalItem) meanings → Hold k.GoalItem values.old meanings → result ≡ the_goal_item meanings }
{
    Item {
        cube: cube_of(values),
        way: Way::Goal,
    }
}

/// The item with a rule of the line.
pub(crate) fn rule_item_of(alloc: Global, values: &mut LineValues) -> Item
    requires { (meanings : Meanings (form k.RuleItem)) × Hold k.RuleItem values.old meanings }
    ensures { (task : Task) (meanings : Meanings (form k.RuleItem)) → AreOfTask task (form k.RuleItem) meanings → Hold k.RuleItem values.old meanings → result ≡ the_rule_item meanings }
{
    let cube = cube_of(values);
    let rule = values.short(0);
    Item {
        cube,
        way: Way::Rule {
            rule,
            items: values.take_items(alloc),
        },
    }
}

/// The item of the line, whose rank is apart.
pub(crate) fn ranked_item_of(alloc: Global, values: &mut LineValues) -> Item
    requires { (meanings : Meanings (form k.RankedItem)) × Hold k.RankedItem values.old meanings }
    ensures { (task : Task) (meanings : Meanings (form k.RankedItem)) → AreOfTask task (form k.RankedItem) meanings → Hold k.RankedItem values.old meanings → result ≡ (the_ranked_item meanings).0 }
{
    let cube = cube_of(values);
    let rule = values.short(0);
    Item {
        cube,
        way: Way::Rule {
            rule,
            items: values.take_items(alloc),
        },
    }
}

/// The row of the line.
pub(crate) fn row_of(values: &mut LineValues) -> TableRow
    requires { (meanings : Meanings (form k.Row)) × Hold k.Row values.old meanings }
    ensures { (task : Task) (meanings : Meanings (form k.Row)) → AreOfTask task (form k.Row) meanings → Hold k.Row values.old meanings → result ≡ the_row meanings }
{
    TableRow {
        cond: cube_of(values),
        act: values.act,
    }
}

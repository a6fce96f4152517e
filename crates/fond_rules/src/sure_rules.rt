//! Whether rules are sure and lean.

ghost use Rattle.fond_task.specs.Rules.{IsSureRule, IsLeanRule};
ghost use Rattle.fond_rules.specs.Belongs.{ArePairsOver};
ghost use Rattle.fond_rules.specs.Select.{AreOver};
ghost use Rattle.std.specs.Prelude.{◌≡◌, ◌<◌, ◌≤◌, length, Decides};

use crate::lean::{Test, is_lean};
use crate::pad::Pad;
use crate::pairs::Pairs;
use crate::rule_test::RuleTest;
use crate::rules::Rules;
use fond_task::rule::Rule;
use fond_task::task::Task;

/// Whether the rule is sure at this number of the rules, beside the pairs. Targets of a number that the rules do not
/// have, and outcomes that the action does not have, make it not sure. Takes time in the size of the action's
/// precondition and outcomes, in the number of the pairs of the action times that of the atoms, and for each target in
/// the number of atoms or the size of the goal.
pub fn sure_rule(
    t: &Task,
    pairs: &Pairs,
    rules: &Rules,
    number: u32,
    r: &Rule,
    pad: &mut Pad,
) -> bool
    requires earlier { number ≤ length rules.now }
    requires there { r.now.act < length t.now.acts }
    requires over { length r.now.cond ≡ length t.now.atoms }
    requires pairs_over { ArePairsOver (length t.now.atoms) pairs.now }
    requires rules_over { AreOver (length t.now.atoms) rules.now }
    requires pad { pad.old ≡ length t.now.atoms }
    ensures same_pad { pad.new ≡ pad.old }
    ensures decides { Decides result (IsSureRule t.now pairs.now rules.now number r.now) }
{
    let test = RuleTest {
        task: t,
        pairs,
        rules,
        number,
        act: r.act,
        targets: &r.targets,
    };
    test.passes(&r.cond, &mut pad.image)
}

/// Whether the rule is lean at this number of the rules, beside the pairs. Takes the time of `sure_rule` once more for
/// each literal of the rule.
pub fn lean_rule(
    t: &Task,
    pairs: &Pairs,
    rules: &Rules,
    number: u32,
    r: &Rule,
    pad: &mut Pad,
) -> bool
    requires earlier { number ≤ length rules.now }
    requires there { r.now.act < length t.now.acts }
    requires over { length r.now.cond ≡ length t.now.atoms }
    requires pairs_over { ArePairsOver (length t.now.atoms) pairs.now }
    requires rules_over { AreOver (length t.now.atoms) rules.now }
    requires pad { pad.old ≡ length t.now.atoms }
    ensures same_pad { pad.new ≡ pad.old }
    ensures decides { Decides result (IsLeanRule t.now pairs.now rules.now number r.now) }
{
    let test = RuleTest {
        task: t,
        pairs,
        rules,
        number,
        act: r.act,
        targets: &r.targets,
    };
    pad.cond.copy_from(&r.cond);
    is_lean(&test, &mut pad.cond, &mut pad.image)
}

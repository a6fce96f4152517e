//! The test whether a rule with a given condition is sure.

ghost use Rattle.fond_task.specs.Rules.{AreMet, IsSureRule};
ghost use Rattle.fond_rules.specs.Belongs.{ArePairsOver};
ghost use Rattle.fond_rules.specs.Select.{AreOver};
ghost use Rattle.fond_rules.specs.Targets.{MeetsEarlier, EachMeets};
ghost use Rattle.fond_task.specs.Images.{image};
ghost use Rattle.fond_task.specs.Within.{is_form_within, is_entry_within, is_act_within};
ghost use Rattle.fond_task.specs.Values.{value};
ghost use Rattle.fond_task.specs.declared.form.Kleene.TheVariants.{Yes};
ghost use Rattle.std.specs.List.{list_all};
ghost use Rattle.std.specs.Prelude.{◌≡◌, ◌<◌, ◌≤◌, length, Decides, IsTrue};

use crate::lean::Test;
use crate::pairs::Pairs;
use crate::rules::Rules;
use fond_state::cube::Cube;
use fond_task::form::{Form, Kleene};
use fond_task::image::image_of;
use fond_task::rule::{Target, TargetList, Targets};
use fond_task::task::{Act, Outcome, Outcomes, Task};
use fond_task::value::value;

/// The test whether a rule is sure, with any condition. A rule is its condition, an action and its targets; it is sure beside some
/// pairs, by the number that it has, or would have, in a list.
#[derive(Drop)]
pub struct RuleTest<'a> {
    pub task: &'a Task,
    pub pairs: &'a Pairs,
    pub rules: &'a Rules,
    pub number: u32,
    pub act: u32,
    pub targets: &'a Targets,
    pub ghost earlier: { number ≤ length rules.now },
    pub ghost there: { act < length task.now.acts },
    pub ghost pairs_over: { ArePairsOver (length task.now.atoms) pairs.now },
    pub ghost rules_over: { AreOver (length task.now.atoms) rules.now },
}

/// Whether the form has the value Yes on the cube.
fn is_yes(form: &Form, cube: &Cube) -> bool
    requires { IsTrue (is_form_within (length cube.now) form.now) }
    ensures { Decides result (value cube.now form.now ≡ Yes) }
{
    matches!(value(form, cube), Kleene::Yes)
}

impl<'a> RuleTest<'a> {
    /// Whether the target is earlier than the rule, and the cube meets it.
    fn meets(&self, cube: &Cube, target: Target) -> bool
        requires { length cube.now ≡ length self.now.task.now.atoms }
        ensures { Decides result (MeetsEarlier self.now.task.now self.now.rules.now self.now.number cube.now target) }
    {
        match target {
            Target::Goal => is_yes(&self.task.goal, cube),
            Target::Rule(other) => other < self.number && self.rules.get(other).cond.covers(cube),
        }
    }

    /// Whether the target is earlier than the rule, and the image of the cube under these entries meets it.
    fn image_meets(&self, cond: &Cube, entries: &Outcome, target: Target, out: &mut Cube) -> bool
        requires cond_long { length cond.now ≡ length self.now.task.now.atoms }
        requires long { length out.old ≡ length self.now.task.now.atoms }
        requires within { IsTrue (list_all (is_entry_within (length self.now.task.now.atoms)) entries.now) }
        ensures same_length { length out.new ≡ length out.old }
        ensures decides { Decides result (MeetsEarlier self.now.task.now self.now.rules.now self.now.number (image cond.now entries.now) target) }
    {
        image_of(cond, entries, out);
        self.meets(out, target)
    }

    /// Whether there is a target for each outcome, earlier than the rule, that the outcome's image meets.
    fn each_meets(
        &self,
        cond: &Cube,
        outcomes: &Outcomes,
        targets: &TargetList,
        image: &mut Cube,
    ) -> bool
        requires cond_long { length cond.now ≡ length self.now.task.now.atoms }
        requires long { length image.old ≡ length self.now.task.now.atoms }
        requires within { IsTrue (list_all (list_all (is_entry_within (length self.now.task.now.atoms))) outcomes.now) }
        ensures same_length { length image.new ≡ length image.old }
        ensures decides { Decides result (EachMeets self.now.task.now self.now.rules.now self.now.number cond.now outcomes.now targets.now) }
    {
        if targets.len() != outcomes.len() {
            return false;
        }
        for i in 0..targets.len() {
            if !self.image_meets(cond, outcomes.get(i), *targets.get(i), image) {
                return false;
            }
        }
        true
    }

    /// Whether the targets are met from this condition by the action.
    fn are_met(&self, cond: &Cube, act: &Act, targets: &Targets, image: &mut Cube) -> bool
        requires cond_long { length cond.now ≡ length self.now.task.now.atoms }
        requires long { length image.old ≡ length self.now.task.now.atoms }
        requires within { IsTrue (is_act_within (length self.now.task.now.atoms) act.now) }
        ensures same_length { length image.new ≡ length image.old }
        ensures decides { Decides result (AreMet self.now.task.now self.now.rules.now self.now.number cond.now act.now targets.now) }
    {
        match targets {
            Targets::One { outcome, target } => {
                if act.unfair || *outcome as usize >= act.outcomes.len() {
                    return false;
                }
                let entries = act.outcomes.get(*outcome as usize);
                self.image_meets(cond, entries, *target, image)
            }
            Targets::All(targets) => {
                act.unfair && self.each_meets(cond, &act.outcomes, targets, image)
            }
        }
    }

    /// Whether the rule with this condition is sure.
    fn is_sure(&self, cond: &Cube, image: &mut Cube) -> bool
        requires cond_long { length cond.now ≡ length self.now.task.now.atoms }
        requires long { length image.old ≡ length self.now.task.now.atoms }
        ensures same_length { length image.new ≡ length image.old }
        ensures decides { Decides result (IsSureRule self.now.task.now self.now.pairs.now self.now.rules.now self.now.number (record { cond = cond.now; act = self.now.act; targets = self.now.targets.now })) }
    {
        let act = self.task.acts.get(self.act as usize);
        is_yes(&act.pre, cond)
            && self.pairs.all_contradict(self.act, cond)
            && self.are_met(cond, act, self.targets, image)
    }
}

impl<'a> Test for RuleTest<'a> {
    ghost use Rattle.fond_task.specs.Rules.{IsSureRule};
    ghost use Rattle.fond_task.proofs.More.{sure_more};
    ghost use Rattle.std.specs.Prelude.{length};

    ghost width = { λ test. length test.task.now.atoms };

    ghost passes = { λ test cond. IsSureRule test.task.now test.pairs.now test.rules.now test.number (record { cond = cond; act = test.act; targets = test.targets.now }) };

    ghost grows = { λ test cond more long lies sure. sure_more test.task.now test.pairs.now test.rules.now test.number (record { cond = cond; act = test.act; targets = test.targets.now }) more long lies sure };

    fn passes(&self, cond: &Cube, image: &mut Cube) -> bool {
        self.is_sure(cond, image)
    }
}

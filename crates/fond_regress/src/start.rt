//! The condition that regression gives a rule, with which it need not be sure.

ghost use Rattle.fond_regress.specs.Taken.{TakesFrom};
ghost use Rattle.fond_rules.specs.Belongs.{ArePairsOver};
ghost use Rattle.fond_state.specs.Cubes.{CubeLiesIn};
ghost use Rattle.fond_task.specs.Images.{image};
ghost use Rattle.fond_task.specs.Within.{is_entry_within};
ghost use Rattle.std.specs.List.{list_all};
ghost use Rattle.std.specs.Prelude.{◌≡◌, ◌<◌, Bool, not, Some, length, Decides, IfOk, IsTrue};

use crate::explain::{explain, take_literal};
use crate::regress::regress;
use fond_rules::pairs::Pairs;
use fond_rules::rules::Rules;
use fond_state::cube::Cube;
use fond_task::image::image_of;
use fond_task::rule::{Target, TargetList, Targets};
use fond_task::task::{Act, Outcome, Outcomes, Task};
use fond_text::fault::NoMemory;
use std::alloc::Global;

/// What a condition is sought for: for which task, after which rules, and of which cube it takes its literals.
#[derive(Drop)]
pub(crate) struct Origin<'a> {
    pub(crate) task: &'a Task,
    pub(crate) rules: &'a Rules,
    pub(crate) source: &'a Cube,
    ghost long: { length source.now ≡ length task.now.atoms },
}

/// Whether there are two literals, of opposite signs.
fn are_opposite(known: Option<bool>, other: Option<bool>) -> bool
    ensures { Decides result ((sign : Bool) × (known ≡ Some sign) × (other ≡ Some (not sign))) }
{
    match (known, other) {
        (Some(sign), Some(opposite)) => sign != opposite,
        _ => false,
    }
}

/// Takes the first literal of `source` of which the other cube has the opposite, if there is one.
fn take_opposite(source: &Cube, other: &Cube, out: &mut Cube)
    requires { length out.old ≡ length source.now }
    ensures { TakesFrom source.now out.old out.new }
{
    for atom in 0..other.len() as u32 {
        if are_opposite(source.literal(atom), other.literal(atom)) {
            take_literal(source, atom, out);
            return;
        }
    }
}

/// Takes a literal against each pair of the action that is not contradicted yet.
fn oppose_pairs(pairs: &Pairs, act: u32, source: &Cube, out: &mut Cube)
    requires over { ArePairsOver (length source.now) pairs.now }
    requires long { length out.old ≡ length source.now }
    ensures { TakesFrom source.now out.old out.new }
{
    for i in 0..pairs.len() {
        let pair = pairs.get(i);
        if pair.act == act && !out.contradicts(&pair.cond) {
            take_opposite(source, &pair.cond, out);
        }
    }
}

impl<'a> Origin<'a> {
    /// Literals of the image of the source under the entries because of which the goal is Yes on it.
    fn goal_literals(&self, alloc: Global, entries: &Outcome) -> Result<Cube, NoMemory>
        requires { IsTrue (list_all (is_entry_within (length self.now.source.now)) entries.now) }
        ensures { IfOk result (λ c. CubeLiesIn (image self.now.source.now entries.now) c) }
    {
        let atoms = self.source.len() as u32;
        let mut image = Cube::new(alloc, atoms)?;
        image_of(self.source, entries, &mut image);
        let mut wanted = Cube::new(alloc, atoms)?;
        explain(&self.task.goal, &image, true, &mut wanted);
        Ok(wanted)
    }

    /// Takes why the image of the source under the entries meets the target.
    fn explain_target(
        &self,
        alloc: Global,
        entries: &Outcome,
        target: Target,
        out: &mut Cube,
    ) -> Result<(), NoMemory>
        requires within { IsTrue (list_all (is_entry_within (length self.now.source.now)) entries.now) }
        requires long { length out.old ≡ length self.now.source.now }
        ensures { TakesFrom self.now.source.now out.old out.new }
    {
        match target {
            Target::Goal => {
                let wanted = self.goal_literals(alloc, entries)?;
                regress(entries, self.source, &wanted, out);
            }
            Target::Rule(other) => {
                if other < self.rules.len() {
                    regress(entries, self.source, &self.rules.get(other).cond, out);
                }
            }
        }
        Ok(())
    }

    /// Takes why the image under each outcome meets its target.
    fn explain_each(
        &self,
        alloc: Global,
        outcomes: &Outcomes,
        targets: &TargetList,
        out: &mut Cube,
    ) -> Result<(), NoMemory>
        requires within { IsTrue (list_all (list_all (is_entry_within (length self.now.source.now))) outcomes.now) }
        requires long { length out.old ≡ length self.now.source.now }
        ensures { TakesFrom self.now.source.now out.old out.new }
    {
        for i in 0..targets.len() {
            if i < outcomes.len() {
                self.explain_target(alloc, outcomes.get(i), *targets.get(i), out)?;
            }
        }
        Ok(())
    }

    /// Takes why the targets are met by the action.
    fn explain_targets(
        &self,
        alloc: Global,
        act: &Act,
        targets: &Targets,
        out: &mut Cube,
    ) -> Result<(), NoMemory>
        requires within { IsTrue (list_all (list_all (is_entry_within (length self.now.source.now))) act.now.outcomes) }
        requires long { length out.old ≡ length self.now.source.now }
        ensures { TakesFrom self.now.source.now out.old out.new }
    {
        match targets {
            Targets::One { outcome, target } => {
                let outcome = *outcome as usize;
                if outcome >= act.outcomes.len() {
                    return Ok(());
                }
                self.explain_target(alloc, act.outcomes.get(outcome), *target, out)
            }
            Targets::All(targets) => self.explain_each(alloc, &act.outcomes, targets, out),
        }
    }

    /// Literals of the source because of which the action is applicable, its targets are met, and it is barred by no
    /// pair. Takes time in the size of the precondition times its depth; for each target in the number of atoms or the
    /// size of the goal times its depth, and for each of its literals in the size of the outcome times the depth of its
    /// conditions; in the number of all pairs; and for each pair of the action in the number of atoms.
    pub(crate) fn regressed(
        &self,
        alloc: Global,
        pairs: &Pairs,
        act: u32,
        targets: &Targets,
    ) -> Result<Cube, NoMemory>
        requires there { act < length self.now.task.now.acts }
        requires over { ArePairsOver (length self.now.task.now.atoms) pairs.now }
        ensures long { IfOk result (λ c. length c ≡ length self.now.task.now.atoms) }
        ensures lies { IfOk result (λ c. CubeLiesIn self.now.source.now c) }
    {
        let action = self.task.acts.get(act as usize);
        let mut out = Cube::new(alloc, self.source.len() as u32)?;
        explain(&action.pre, self.source, true, &mut out);
        self.explain_targets(alloc, action, targets, &mut out)?;
        oppose_pairs(pairs, act, self.source, &mut out);
        Ok(out)
    }
}

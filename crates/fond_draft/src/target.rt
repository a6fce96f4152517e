//! The targets of an action in a state.

ghost use Rattle.fond_draft.specs.Targets.{AreTargets, HasTargets, IsCovered, LeadsOn};
ghost use Rattle.fond_rules.specs.Select.{AreOver};
ghost use Rattle.fond_task.specs.Steps.{next_state};
ghost use Rattle.fond_task.specs.Truth.{is_true};
ghost use Rattle.fond_task.specs.declared.task.Act.{Act};
ghost use Rattle.fond_task.specs.declared.task.Entry.{Entry};
ghost use Rattle.std.specs.Prelude.{◌≡◌, ◌<◌, List, true, false, length, slice_get, Some, Contains, IfOk, MatchOption};

use fond_rules::rules::Rules;
use fond_state::state::State;
use fond_task::rule::{Target, TargetList, Targets};
use fond_task::step::apply_into;
use fond_task::task::Task;
use fond_task::truth::is_goal;
use fond_text::fault::NoMemory;
use std::alloc::Global;

/// The target that leads on from the state, if it is a goal or a rule holds in it.
fn target_of(t: &Task, rules: &Rules, state: &State) -> Option<Target>
    requires over { AreOver (length t.now.atoms) rules.now }
    requires long { length state.now ≡ length t.now.atoms }
    ensures { MatchOption result (¬ IsCovered t.now rules.now state.now) (LeadsOn t.now rules.now state.now) }
{
    if is_goal(t, state) {
        return Some(Target::Goal);
    }
    let Some(number) = rules.select(state) else {
        return None;
    };
    Some(Target::Rule(number))
}

/// The first outcome of a fair action that leads to a goal or to a state in which a rule holds, with its target. `next` is
/// overwritten.
fn first_target(t: &Task, rules: &Rules, act: u32, state: &State, next: &mut State) -> Targets
    requires over { AreOver (length t.now.atoms) rules.now }
    requires there { act < length t.now.acts }
    requires long { length state.now ≡ length t.now.atoms }
    requires next_long { length next.old ≡ length t.now.atoms }
    requires applicable { (a : Act) → slice_get t.now.acts act ≡ Some a → is_true state.now a.pre ≡ true }
    requires some { (a : Act) → slice_get t.now.acts act ≡ Some a → (entries : List Entry) × Contains a.outcomes entries × IsCovered t.now rules.now (next_state state.now entries) }
    ensures same_length { length next.new ≡ length next.old }
    ensures targets { (a : Act) → slice_get t.now.acts act ≡ Some a → a.unfair ≡ false → AreTargets t.now rules.now state.now a result }
{
    for outcome in 0..t.acts.get(act as usize).outcomes.len() {
        apply_into(t, state, act, outcome as u32, next);
        if let Some(target) = target_of(t, rules, next) {
            return Targets::One {
                outcome: outcome as u32,
                target,
            };
        }
    }
    unreachable!()
}

/// A target for each outcome of an unfair action. `next` is overwritten.
fn all_targets(
    alloc: Global,
    t: &Task,
    rules: &Rules,
    act: u32,
    state: &State,
    next: &mut State,
) -> Result<Targets, NoMemory>
    requires over { AreOver (length t.now.atoms) rules.now }
    requires there { act < length t.now.acts }
    requires long { length state.now ≡ length t.now.atoms }
    requires next_long { length next.old ≡ length t.now.atoms }
    requires applicable { (a : Act) → slice_get t.now.acts act ≡ Some a → is_true state.now a.pre ≡ true }
    requires each { (a : Act) (entries : List Entry) → slice_get t.now.acts act ≡ Some a → Contains a.outcomes entries → IsCovered t.now rules.now (next_state state.now entries) }
    ensures same_length { length next.new ≡ length next.old }
    ensures targets { (a : Act) → slice_get t.now.acts act ≡ Some a → a.unfair ≡ true → IfOk result (AreTargets t.now rules.now state.now a) }
{
    let mut targets = TargetList::new(alloc);
    for outcome in 0..t.acts.get(act as usize).outcomes.len() {
        apply_into(t, state, act, outcome as u32, next);
        let Some(target) = target_of(t, rules, next) else {
            unreachable!()
        };
        targets.push(target)?;
    }
    Ok(Targets::All(targets))
}

/// The targets of an action that has some in a state. Takes time in the number of outcomes times that of the atoms. `next`
/// is overwritten.
pub fn targets_of(
    alloc: Global,
    t: &Task,
    rules: &Rules,
    act: u32,
    state: &State,
    next: &mut State,
) -> Result<Targets, NoMemory>
    requires over { AreOver (length t.now.atoms) rules.now }
    requires there { act < length t.now.acts }
    requires long { length state.now ≡ length t.now.atoms }
    requires next_long { length next.old ≡ length t.now.atoms }
    requires applicable { (a : Act) → slice_get t.now.acts act ≡ Some a → is_true state.now a.pre ≡ true }
    requires has { (a : Act) → slice_get t.now.acts act ≡ Some a → HasTargets t.now rules.now state.now a }
    ensures same_length { length next.new ≡ length next.old }
    ensures targets { (a : Act) → slice_get t.now.acts act ≡ Some a → IfOk result (AreTargets t.now rules.now state.now a) }
{
    if t.acts.get(act as usize).unfair {
        all_targets(alloc, t, rules, act, state, next)
    } else {
        Ok(first_target(t, rules, act, state, next))
    }
}

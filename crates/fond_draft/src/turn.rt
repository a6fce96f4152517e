//! Whether a rule can be made of a state and an action now.

ghost use Rattle.fond_draft.specs.Drafts.{IsDraft};
ghost use Rattle.fond_draft.specs.Plans.{IsReady};
ghost use Rattle.fond_draft.specs.Targets.{HasTargets, IsCovered};
ghost use Rattle.fond_draft.specs.Turns.{IsTurn};
ghost use Rattle.fond_rules.specs.Select.{AreOver};
ghost use Rattle.fond_rules.specs.Targets.{AllContradict};
ghost use Rattle.fond_state.specs.Cubes.{full_cube};
ghost use Rattle.fond_task.specs.Steps.{next_state};
ghost use Rattle.fond_task.specs.declared.task.Act.{Act};
ghost use Rattle.fond_task.specs.declared.task.Entry.{Entry};
ghost use Rattle.std.specs.Prelude.{◌≡◌, ◌<◌, List, true, false, None, length, slice_get, Some, Contains, Decides, IfOk, IfSome};

use crate::draft::Draft;
use fond_explicit::answer::Pick;
use fond_rules::rules::Rules;
use fond_state::cube::Cube;
use fond_state::state::State;
use fond_task::step::apply_into;
use fond_task::task::Task;
use fond_task::truth::is_goal;
use fond_text::fault::NoMemory;
use std::alloc::Global;

/// Whether the state is a goal, or a rule holds in it.
fn is_covered(t: &Task, rules: &Rules, state: &State) -> bool
    requires over { AreOver (length t.now.atoms) rules.now }
    requires long { length state.now ≡ length t.now.atoms }
    ensures { Decides result (IsCovered t.now rules.now state.now) }
{
    if is_goal(t, state) {
        return true;
    }
    rules.select(state).is_some()
}

/// Whether some outcome of the action leads to a goal or to a state in which a rule holds. `next` is overwritten.
fn is_some_covered(t: &Task, rules: &Rules, turn: &Pick, next: &mut State) -> bool
    requires over { AreOver (length t.now.atoms) rules.now }
    requires turn { IsTurn t.now turn.now }
    requires next_long { length next.old ≡ length t.now.atoms }
    ensures same_length { length next.new ≡ length next.old }
    ensures covered { result ≡ true → (a : Act) → slice_get t.now.acts turn.now.act ≡ Some a → (entries : List Entry) × Contains a.outcomes entries × IsCovered t.now rules.now (next_state turn.now.state entries) }
    ensures none { result ≡ false → (a : Act) (entries : List Entry) → slice_get t.now.acts turn.now.act ≡ Some a → Contains a.outcomes entries → ¬ IsCovered t.now rules.now (next_state turn.now.state entries) }
{
    for outcome in 0..t.acts.get(turn.act as usize).outcomes.len() {
        apply_into(t, &turn.state, turn.act, outcome as u32, next);
        if is_covered(t, rules, next) {
            return true;
        }
    }
    false
}

/// The first outcome of the action that leads to a state which is no goal and in which no rule holds. `next` is that state
/// then, and is overwritten otherwise.
pub fn first_open(t: &Task, rules: &Rules, turn: &Pick, next: &mut State) -> Option<u32>
    requires over { AreOver (length t.now.atoms) rules.now }
    requires turn { IsTurn t.now turn.now }
    requires next_long { length next.old ≡ length t.now.atoms }
    ensures same_length { length next.new ≡ length next.old }
    ensures open { IfSome result (λ outcome. (a : Act) → slice_get t.now.acts turn.now.act ≡ Some a → (entries : List Entry) × (slice_get a.outcomes outcome ≡ Some entries) × (next.new ≡ next_state turn.now.state entries)) }
    ensures not_covered { IfSome result (λ outcome. ¬ IsCovered t.now rules.now next.new) }
    ensures covered { result ≡ None → (a : Act) (entries : List Entry) → slice_get t.now.acts turn.now.act ≡ Some a → Contains a.outcomes entries → IsCovered t.now rules.now (next_state turn.now.state entries) }
{
    for outcome in 0..t.acts.get(turn.act as usize).outcomes.len() {
        apply_into(t, &turn.state, turn.act, outcome as u32, next);
        if !is_covered(t, rules, next) {
            return Some(outcome as u32);
        }
    }
    None
}

/// Whether the action has targets: some outcome leads to a goal or to a state in which a rule holds, or each outcome does if the
/// action is unfair. `next` is overwritten.
fn has_targets(t: &Task, rules: &Rules, turn: &Pick, next: &mut State) -> bool
    requires over { AreOver (length t.now.atoms) rules.now }
    requires turn { IsTurn t.now turn.now }
    requires next_long { length next.old ≡ length t.now.atoms }
    ensures same_length { length next.new ≡ length next.old }
    ensures has { result ≡ true → (a : Act) → slice_get t.now.acts turn.now.act ≡ Some a → HasTargets t.now rules.now turn.now.state a }
    ensures none { result ≡ false → (a : Act) → slice_get t.now.acts turn.now.act ≡ Some a → ¬ HasTargets t.now rules.now turn.now.state a }
{
    if t.acts.get(turn.act as usize).unfair {
        return first_open(t, rules, turn, next).is_none();
    }
    is_some_covered(t, rules, turn, next)
}

/// Whether no pair bars the action in the state.
fn is_free(alloc: Global, t: &Task, draft: &Draft, turn: &Pick) -> Result<bool, NoMemory>
    requires draft { IsDraft t.now draft.now }
    requires turn { IsTurn t.now turn.now }
    ensures { IfOk result (λ free. Decides free (AllContradict draft.now.pairs turn.now.act (full_cube turn.now.state))) }
{
    let cube = Cube::full(alloc, &turn.state)?;
    Ok(draft.pairs.all_contradict(turn.act, &cube))
}

/// Whether a rule for the action can be made that holds in the state: the action has targets there, and no pair bars it. Takes
/// the time of a search of the rules for each outcome, and that of the pairs of the action. `next` is overwritten.
pub fn is_ready(
    alloc: Global,
    t: &Task,
    draft: &Draft,
    turn: &Pick,
    next: &mut State,
) -> Result<bool, NoMemory>
    requires draft { IsDraft t.now draft.now }
    requires turn { IsTurn t.now turn.now }
    requires next_long { length next.old ≡ length t.now.atoms }
    ensures same_length { length next.new ≡ length next.old }
    ensures ready { IfOk result (λ ready. ready ≡ true → IsReady t.now draft.now.rules turn.now) }
    ensures free { IfOk result (λ ready. ready ≡ true → AllContradict draft.now.pairs turn.now.act (full_cube turn.now.state)) }
    ensures not_ready { IfOk result (λ ready. ready ≡ false → IsReady t.now draft.now.rules turn.now → ¬ AllContradict draft.now.pairs turn.now.act (full_cube turn.now.state)) }
{
    if !has_targets(t, &draft.rules, turn, next) {
        return Ok(false);
    }
    let free = is_free(alloc, t, draft, turn)?;
    Ok(free)
}

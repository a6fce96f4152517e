//! Rules for the states of a plan.

ghost use Rattle.fond_draft.specs.Drafts.{IsDraft, IsRuledIn};
ghost use Rattle.fond_draft.specs.Places.{ArePlacesBelow, HavePlaced};
ghost use Rattle.fond_draft.specs.Plans.{IsPlan, IsReady};
ghost use Rattle.fond_draft.specs.Targets.{HasRule};
ghost use Rattle.fond_explicit.specs.Answers.{ChoiceView};
ghost use Rattle.fond_rules.specs.Select.{AreOver};
ghost use Rattle.fond_rules.specs.Targets.{AllContradict};
ghost use Rattle.fond_state.specs.Cubes.{full_cube};
ghost use Rattle.std.specs.Prelude.{◌≡◌, ◌<◌, List, Bool, length, slice_get, Some, Contains, IfOk, OnOk};

use crate::below::below;
use crate::draft::Draft;
use crate::order::{Place, in_order};
use crate::plan::Plan;
use crate::target::targets_of;
use fond_explicit::answer::Pick;
use fond_regress::condition::lean_condition;
use fond_rules::rules::Rules;
use fond_state::state::State;
use fond_task::rule::Rule;
use fond_task::task::Task;
use fond_text::fault::NoMemory;
use std::alloc::Global;

/// Adds a lean rule for a choice, which holds in its state. Reports `NoMemory` past 2^32 - 2 rules. `next` is
/// overwritten.
pub fn add_rule(
    alloc: Global,
    t: &Task,
    draft: &mut Draft,
    pick: &Pick,
    next: &mut State,
) -> Result<(), NoMemory>
    requires draft { IsDraft t.now draft.old }
    requires ready { IsReady t.now draft.old.rules pick.now }
    requires unbarred { AllContradict draft.old.pairs pick.now.act (full_cube pick.now.state) }
    requires next_long { length next.old ≡ length t.now.atoms }
    ensures same_length { length next.new ≡ length next.old }
    ensures ruled { OnOk result (IsRuledIn t.now pick.now.state draft.old draft.new) }
    ensures pairs { OnOk result (draft.new.pairs ≡ draft.old.pairs) }
{
    if draft.rules.len() >= u32::MAX - 1 {
        return Err(NoMemory);
    }
    let act = pick.act;
    let targets = targets_of(alloc, t, &draft.rules, act, &pick.state, next)?;
    let cond = lean_condition(
        alloc,
        t,
        &draft.pairs,
        &draft.rules,
        &pick.state,
        act,
        &targets,
    )?;
    draft.push_rule(Rule { cond, act, targets })?;
    Ok(())
}

/// Adds a rule for the choice of this number, unless a rule holds in its state. `next` is overwritten.
fn place(
    alloc: Global,
    t: &Task,
    draft: &mut Draft,
    plan: &Plan,
    number: usize,
    next: &mut State,
) -> Result<(), NoMemory>
    requires draft { IsDraft t.now draft.old }
    requires plan { IsPlan t.now plan.now }
    requires there { number < length plan.now.choices }
    requires ready { (choice : ChoiceView) → slice_get plan.now.choices number ≡ Some choice → IsReady t.now draft.old.rules choice }
    requires next_long { length next.old ≡ length t.now.atoms }
    ensures same_length { length next.new ≡ length next.old }
    ensures ruled { (choice : ChoiceView) → slice_get plan.now.choices number ≡ Some choice → OnOk result (IsRuledIn t.now choice.state draft.old draft.new) }
    ensures pairs { OnOk result (draft.new.pairs ≡ draft.old.pairs) }
{
    let pick = plan.choices.get(number);
    if draft.rules.select(&pick.state).is_some() {
        return Ok(());
    }
    add_rule(alloc, t, draft, pick, next)
}

/// Adds rules for the choices at the places, one after the other, unless a rule holds in the state. `next` is overwritten.
fn place_all(
    alloc: Global,
    t: &Task,
    draft: &mut Draft,
    plan: &Plan,
    places: &[Place],
    next: &mut State,
) -> Result<(), NoMemory>
    requires draft { IsDraft t.now draft.old }
    requires plan { IsPlan t.now plan.now }
    requires places { ArePlacesBelow t.now draft.old.rules plan.now places.now }
    requires next_long { length next.old ≡ length t.now.atoms }
    ensures draft { OnOk result (IsDraft t.now draft.new) }
    ensures kept { OnOk result ((state : List Bool) → HasRule draft.old.rules state → HasRule draft.new.rules state) }
    ensures placed { OnOk result (HavePlaced plan.now.choices places.now (length places.now) draft.new.rules) }
    ensures pairs { OnOk result (draft.new.pairs ≡ draft.old.pairs) }
{
    for entry in places {
        place(alloc, t, draft, plan, entry.number, next)?;
    }
    Ok(())
}

/// The places of the choice of this number and of those below it, by rising ranks.
fn places_below(
    alloc: Global,
    t: &Task,
    rules: &Rules,
    plan: &Plan,
    number: usize,
) -> Result<Vec<Place>, NoMemory>
    requires plan { IsPlan t.now plan.now }
    requires over { AreOver (length t.now.atoms) rules.now }
    requires there { number < length plan.now.choices }
    ensures places { IfOk result (λ places. ArePlacesBelow t.now rules.now plan.now places.items) }
    ensures has { IfOk result (λ places. (choice : ChoiceView) → slice_get plan.now.choices number ≡ Some choice → Contains places.items (record { rank = choice.rank; number = number })) }
{
    let states = below(alloc, t, rules, plan, number)?;
    let places = in_order(alloc, t, plan, &states)?;
    Ok(places)
}

/// Adds rules until one holds in the state of the choice of this number: for this choice and those below it in whose states
/// no rule holds yet, in the order of their ranks, so that each target is the goal or a rule before. Takes time in the number
/// of these choices and of their outcomes times that of atoms, and for each rule that of `lean_condition`.
pub fn make_rules(
    alloc: Global,
    t: &Task,
    draft: &mut Draft,
    plan: &Plan,
    number: usize,
) -> Result<(), NoMemory>
    requires draft { IsDraft t.now draft.old }
    requires plan { IsPlan t.now plan.now }
    requires there { number < length plan.now.choices }
    ensures ruled { (choice : ChoiceView) → slice_get plan.now.choices number ≡ Some choice → OnOk result (IsRuledIn t.now choice.state draft.old draft.new) }
    ensures pairs { OnOk result (draft.new.pairs ≡ draft.old.pairs) }
{
    let places = places_below(alloc, t, &draft.rules, plan, number)?;
    let mut next = t.init.copy(alloc)?;
    place_all(alloc, t, draft, plan, places.as_slice(), &mut next)?;
    Ok(())
}

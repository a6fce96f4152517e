//! The cover in which each reached state has an item of its own.

ghost use Rattle.fond_covering.specs.Coverings.{IsSureCovering};
ghost use Rattle.fond_covering.specs.Full.{AreFullItems, AreNextNumbers, IsFullItem, IsFullWay};
ghost use Rattle.fond_task.specs.Policies.{IsNext};
ghost use Rattle.fond_policy.specs.Parts.{AreSureRules};
ghost use Rattle.fond_policy.specs.Walks.{HasAllRuled, HasUnruled, IsClosed, IsRuled, IsWalk};
ghost use Rattle.fond_rules.specs.Belongs.{BelongTo};
ghost use Rattle.fond_task.specs.Truth.{is_true};
ghost use Rattle.fond_task.specs.declared.task.Act.{Act};
ghost use Rattle.std.specs.Prelude.{◌≡◌, ◌<◌, ◌^◌, List, Bool, true, Some, None, length, slice_get, Contains, IfOk, IfSome};

use crate::covering::Covering;
use fond_policy::item::{Item, ItemNumbers, Way};
use fond_policy::items::Items;
use fond_policy::walk::walk_states;
use fond_rules::pairs::Pairs;
use fond_rules::rules::Rules;
use fond_state::cube::Cube;
use fond_state::state::State;
use fond_store::store::Store;
use fond_task::step::apply_into;
use fond_task::task::Task;
use fond_task::truth::is_goal;
use fond_text::fault::NoMemory;
use fond_text::list::List;
use std::alloc::Global;

/// The number of a state that is kept.
fn number_of(states: &Store, state: &State) -> u32
    requires { Contains states.now state.now }
    ensures { slice_get states.now result ≡ Some state.now }
{
    match states.find(state) {
        Some(number) => number,
        None => unreachable!(),
    }
}

/// The numbers of the states to which the outcomes of the action lead from a state, in order. `next` is overwritten.
fn next_numbers(
    alloc: Global,
    t: &Task,
    act: u32,
    state: &State,
    next: &mut State,
    states: &Store,
) -> Result<ItemNumbers, NoMemory>
    requires there { act < length t.now.acts }
    requires long { length state.now ≡ length t.now.atoms }
    requires next_long { length next.old ≡ length t.now.atoms }
    requires applicable { (a : Act) → slice_get t.now.acts act ≡ Some a → is_true state.now a.pre ≡ true }
    requires all { (after : List Bool) → IsNext t.now state.now act after → Contains states.now after }
    ensures same_length { length next.new ≡ length next.old }
    ensures numbers { IfOk result (λ numbers. (a : Act) → slice_get t.now.acts act ≡ Some a → AreNextNumbers states.now state.now a numbers) }
{
    let mut numbers = List::new(alloc);
    for outcome in 0..t.acts.get(act as usize).outcomes.len() {
        apply_into(t, state, act, outcome as u32, next);
        numbers.push(number_of(states, next))?;
    }
    Ok(numbers)
}

/// How the policy goes on from a state. `next` is overwritten.
fn full_way(
    alloc: Global,
    t: &Task,
    pairs: &Pairs,
    rules: &Rules,
    state: &State,
    next: &mut State,
    states: &Store,
) -> Result<Way, NoMemory>
    requires belong { BelongTo t.now rules.now }
    requires sure { AreSureRules t.now pairs.now rules.now }
    requires long { length state.now ≡ length t.now.atoms }
    requires next_long { length next.old ≡ length t.now.atoms }
    requires closed { IsClosed t.now rules.now states.now state.now }
    requires ruled { IsRuled t.now rules.now state.now }
    ensures same_length { length next.new ≡ length next.old }
    ensures way { IfOk result (IsFullWay t.now rules.now states.now state.now) }
{
    if is_goal(t, state) {
        return Ok(Way::Goal);
    }
    let Some(rule) = rules.select(state) else {
        unreachable!()
    };
    let items = next_numbers(alloc, t, rules.get(rule).act, state, next, states)?;
    Ok(Way::Rule { rule, items })
}

/// The item of the state of this number. `next` is overwritten.
fn full_item(
    alloc: Global,
    t: &Task,
    pairs: &Pairs,
    rules: &Rules,
    state: &State,
    next: &mut State,
    states: &Store,
) -> Result<Item, NoMemory>
    requires belong { BelongTo t.now rules.now }
    requires sure { AreSureRules t.now pairs.now rules.now }
    requires long { length state.now ≡ length t.now.atoms }
    requires next_long { length next.old ≡ length t.now.atoms }
    requires closed { IsClosed t.now rules.now states.now state.now }
    requires ruled { IsRuled t.now rules.now state.now }
    ensures same_length { length next.new ≡ length next.old }
    ensures item { IfOk result (IsFullItem t.now rules.now states.now state.now) }
{
    let way = full_way(alloc, t, pairs, rules, state, next, states)?;
    let cube = Cube::full(alloc, state)?;
    Ok(Item { cube, way })
}

/// The items of the states, which are all that the rules reach.
fn full_items(
    alloc: Global,
    t: &Task,
    pairs: &Pairs,
    rules: &Rules,
    states: &Store,
) -> Result<Items, NoMemory>
    requires belong { BelongTo t.now rules.now }
    requires sure { AreSureRules t.now pairs.now rules.now }
    requires ruled { HasAllRuled t.now rules.now }
    requires walk { IsWalk t.now rules.now states.now (length states.now) }
    ensures few { IfOk result (λ items. length items < 2 ^ 32) }
    ensures counted { IfOk result (λ items. length items ≡ length states.now) }
    ensures full { IfOk result (AreFullItems t.now rules.now states.now) }
{
    let mut items = Items::new(alloc);
    let mut next = t.init.copy(alloc)?;
    for number in 0..states.len() {
        let state = states.get(number);
        let item = full_item(alloc, t, pairs, rules, state, &mut next, states)?;
        items.push(item)?;
    }
    Ok(items)
}

/// The cover by the full cubes of the states, which are all that the rules reach.
fn covering_of(
    alloc: Global,
    t: &Task,
    pairs: &Pairs,
    rules: &Rules,
    states: &Store,
) -> Result<Covering, NoMemory>
    requires belong { BelongTo t.now rules.now }
    requires sure { AreSureRules t.now pairs.now rules.now }
    requires ruled { HasAllRuled t.now rules.now }
    requires walk { IsWalk t.now rules.now states.now (length states.now) }
    ensures { IfOk result (λ covering. IsSureCovering t.now rules.now covering.items covering.start) }
{
    let items = full_items(alloc, t, pairs, rules, states)?;
    let start = number_of(states, &t.init);
    Ok(Covering { items, start })
}

/// The cover whose items are the full cubes of the states that the rules reach, in the order of a walk, or nothing if no rule holds
/// in one of them that is no goal. Takes time and memory in their number times that of the atoms; memory is said to have run out
/// after 2^32 - 1 states.
pub(crate) fn full_covering(
    alloc: Global,
    t: &Task,
    pairs: &Pairs,
    rules: &Rules,
) -> Result<Option<Covering>, NoMemory>
    requires belong { BelongTo t.now rules.now }
    requires sure { AreSureRules t.now pairs.now rules.now }
    ensures found { IfOk result (λ found. IfSome found (λ covering. IsSureCovering t.now rules.now covering.items covering.start)) }
    ensures none { IfOk result (λ found. found ≡ None → HasUnruled t.now rules.now) }
{
    let (states, ruled) = walk_states(alloc, t, pairs, rules)?;
    if !ruled {
        return Ok(None);
    }
    let covering = covering_of(alloc, t, pairs, rules, &states)?;
    Ok(Some(covering))
}

//! The breadth-first walk through the states that a policy reaches.

ghost use Rattle.fond_policy.specs.Parts.{AreSureRules};
ghost use Rattle.fond_policy.specs.Walks.{Grows, Expands, IsWalk, IsWalked, IsNumbered, IsWholeWalk, HasAllRuled, HasUnruled, first_unruled};
ghost use Rattle.fond_task.specs.Policies.{IsNext};
ghost use Rattle.fond_rules.specs.Belongs.{BelongTo};
ghost use Rattle.fond_task.specs.Truth.{is_true};
ghost use Rattle.fond_task.specs.declared.task.Act.{Act};
ghost use Rattle.std.specs.Prelude.{◌≡◌, ◌<◌, ◌∷◌, [], ℕ, List, Bool, true, length, slice_get, Some, Contains, MatchBool, IfOk, IfSome, OnOk};

use fond_rules::pairs::Pairs;
use fond_rules::rules::Rules;
use fond_rules::selector::Selector;
use fond_state::state::State;
use fond_store::store::Store;
use fond_task::step::apply_into;
use fond_task::task::Task;
use fond_task::truth::is_goal;
use fond_text::fault::NoMemory;
use std::alloc::Global;

/// How a walk ends.
#[derive(Drop)]
pub enum Walked {
    /// More states than the bound are reached.
    More,
    /// So many states are reached. One that is no goal and in which no rule holds, if there is one.
    All { count: u32, unruled: Option<State> },
}

/// Adds the state to the states, unless it is one of them. Memory is said to have run out after 2^32 - 1 states.
fn add(alloc: Global, state: &State, states: &mut Store) -> Result<(), NoMemory>
    ensures has { OnOk result (Contains states.new state.now) }
    ensures grows { OnOk result (Grows (λ added. added ≡ state.now) states.old states.new) }
{
    if states.find(state).is_some() {
        return Ok(());
    }
    if states.len() == u32::MAX {
        return Err(NoMemory);
    }
    states.add(state.copy(alloc)?)?;
    Ok(())
}

/// Adds the states to which the action may lead from a state. `next` is overwritten.
fn add_successors(
    alloc: Global,
    t: &Task,
    act: u32,
    state: &State,
    next: &mut State,
    states: &mut Store,
) -> Result<(), NoMemory>
    requires there { act < length t.now.acts }
    requires long { length state.now ≡ length t.now.atoms }
    requires next_long { length next.old ≡ length t.now.atoms }
    requires applicable { (a : Act) → slice_get t.now.acts act ≡ Some a → is_true state.now a.pre ≡ true }
    ensures same_length { length next.new ≡ length next.old }
    ensures grows { OnOk result (Grows (IsNext t.now state.now act) states.old states.new) }
    ensures all { OnOk result ((after : List Bool) → IsNext t.now state.now act after → Contains states.new after) }
{
    for outcome in 0..t.acts.get(act as usize).outcomes.len() {
        apply_into(t, state, act, outcome as u32, next);
        add(alloc, next, states)?;
    }
    Ok(())
}

/// Adds the states to which the rules lead from a state that is no goal. Returns false if it is no goal and no rule holds
/// in it. `next` is overwritten. The selector is that of the rules.
fn visit(
    alloc: Global,
    t: &Task,
    pairs: &Pairs,
    rules: &Rules,
    selector: &mut Selector,
    state: &State,
    next: &mut State,
    states: &mut Store,
) -> Result<bool, NoMemory>
    requires of { selector.old ≡ rules.now }
    requires belong { BelongTo t.now rules.now }
    requires sure { AreSureRules t.now pairs.now rules.now }
    requires long { length state.now ≡ length t.now.atoms }
    requires next_long { length next.old ≡ length t.now.atoms }
    ensures of { selector.new ≡ rules.now }
    ensures same_length { length next.new ≡ length next.old }
    ensures visits { IfOk result (Expands t.now rules.now state.now states.old states.new) }
{
    if is_goal(t, state) {
        return Ok(true);
    }
    selector.heed(state);
    let Some(rule) = selector.select(state) else {
        return Ok(false);
    };
    add_successors(alloc, t, rules.get(rule).act, state, next, states)?;
    Ok(true)
}

/// The number of the first state that is found, after one more.
fn first_of(unruled: Option<u32>, ruled: bool, at: u32) -> Option<u32>
    ensures { result ≡ first_unruled ruled at unruled }
{
    match unruled {
        Some(first) => Some(first),
        None if ruled => None,
        None => Some(at),
    }
}

/// A copy of the state of this number, if there is a number.
fn copy_numbered(
    alloc: Global,
    states: &Store,
    number: Option<u32>,
) -> Result<Option<State>, NoMemory>
    requires { IfSome number (λ n. n < length states.now) }
    ensures { IfOk result (IsNumbered states.now number) }
{
    match number {
        Some(number) => Ok(Some(states.get(number).copy(alloc)?)),
        None => Ok(None),
    }
}

/// One state alone.
pub fn one_state(alloc: Global, state: &State) -> Result<Store, NoMemory>
    ensures { IfOk result (λ states. states ≡ state.now ∷ []) }
{
    let mut states = Store::new(alloc);
    states.add(state.copy(alloc)?)?;
    Ok(states)
}

/// The two states that a walk overwrites: the one that it visits, and one to which the rules lead from there.
#[derive(Drop)]
struct Scratch {
    state: State,
    next: State,
}

/// The scratch of a walk that has not begun: its states are the initial one.
fn scratch_of(alloc: Global, t: &Task) -> Result<Scratch, NoMemory>
    ensures { IfOk result (λ scratch. (scratch.state ≡ t.now.init) × (scratch.next ≡ t.now.init)) }
{
    Ok(Scratch {
        state: t.init.copy(alloc)?,
        next: t.init.copy(alloc)?,
    })
}

/// Walks on from the initial state, which is the only one of the states, as `walk` does. The states that are reached are
/// added to the states. `scratch` is overwritten.
fn walk_on(
    alloc: Global,
    t: &Task,
    pairs: &Pairs,
    rules: &Rules,
    bound: u64,
    scratch: &mut Scratch,
    states: &mut Store,
) -> Result<Walked, NoMemory>
    requires belong { BelongTo t.now rules.now }
    requires sure { AreSureRules t.now pairs.now rules.now }
    requires long { length scratch.old.state ≡ length t.now.atoms }
    requires next_long { length scratch.old.next ≡ length t.now.atoms }
    requires first { states.old ≡ t.now.init ∷ [] }
    ensures walked { IfOk result (IsWalked t.now rules.now bound) }
    ensures whole { IfOk result (IsWholeWalk t.now rules.now states.new) }
{
    let mut selector = Selector::new(alloc, rules);
    let mut unruled = None;
    let mut at = 0;
    while at < states.len() {
        if u64::from(states.len()) > bound {
            return Ok(Walked::More);
        }
        scratch.state.copy_from(states.get(at));
        let ruled = visit(
            alloc,
            t,
            pairs,
            rules,
            &mut selector,
            &scratch.state,
            &mut scratch.next,
            states,
        )?;
        unruled = first_of(unruled, ruled, at);
        at += 1;
    }
    if u64::from(states.len()) > bound {
        return Ok(Walked::More);
    }
    Ok(Walked::All {
        count: states.len(),
        unruled: copy_numbered(alloc, states, unruled)?,
    })
}

/// Walks on as `walk_on` does, with a scratch of its own.
fn walk_from(
    alloc: Global,
    t: &Task,
    pairs: &Pairs,
    rules: &Rules,
    bound: u64,
    states: &mut Store,
) -> Result<Walked, NoMemory>
    requires belong { BelongTo t.now rules.now }
    requires sure { AreSureRules t.now pairs.now rules.now }
    requires first { states.old ≡ t.now.init ∷ [] }
    ensures walked { IfOk result (IsWalked t.now rules.now bound) }
    ensures whole { IfOk result (IsWholeWalk t.now rules.now states.new) }
{
    let mut scratch = scratch_of(alloc, t)?;
    walk_on(alloc, t, pairs, rules, bound, &mut scratch, states)
}

/// Walks through the states that the rules reach, until they are more than the bound. Selects the rule of each state
/// once. Takes memory for the states that are reached, at most 256 more than the bound.
pub fn walk(
    alloc: Global,
    t: &Task,
    pairs: &Pairs,
    rules: &Rules,
    bound: u64,
) -> Result<Walked, NoMemory>
    requires belong { BelongTo t.now rules.now }
    requires sure { AreSureRules t.now pairs.now rules.now }
    ensures { IfOk result (IsWalked t.now rules.now bound) }
{
    let mut states = one_state(alloc, &t.init)?;
    walk_from(alloc, t, pairs, rules, bound, &mut states)
}

/// The states that the rules reach, in the order of a breadth-first walk from the initial state, and whether a rule holds in each
/// of them that is no goal. Selects the rule of each state once. Takes memory for the states; memory is said to have run out after
/// 2^32 - 1 of them.
pub fn walk_states(
    alloc: Global,
    t: &Task,
    pairs: &Pairs,
    rules: &Rules,
) -> Result<(Store, bool), NoMemory>
    requires belong { BelongTo t.now rules.now }
    requires sure { AreSureRules t.now pairs.now rules.now }
    ensures states { IfOk result (λ r. IsWalk t.now rules.now r.0 (length r.0)) }
    ensures ruled { IfOk result (λ r. MatchBool r.1 (HasAllRuled t.now rules.now) (HasUnruled t.now rules.now)) }
{
    let mut states = one_state(alloc, &t.init)?;
    match walk_from(alloc, t, pairs, rules, u64::MAX, &mut states)? {
        Walked::All { unruled, .. } => Ok((states, unruled.is_none())),
        Walked::More => Err(NoMemory),
    }
}

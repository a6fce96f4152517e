//! The successors of the initial state by a ground action.

ghost use Rattle.fond_ground.specs.Grounds.{IsGroundOf};
ghost use Rattle.fond_succ.specs.Steps.{once};
ghost use Rattle.fond_succ.specs.Successors.{AreSuccessors};
ghost use Rattle.fond_task.specs.Steps.{next_state};
ghost use Rattle.fond_task.specs.Texts.{state_text};
ghost use Rattle.fond_task.specs.Truth.{is_true};
ghost use Rattle.fond_task.specs.declared.task.Act.{Act};
ghost use Rattle.fond_text.specs.Text.{Adds};
ghost use Rattle.std.specs.List.{flat_map};
ghost use Rattle.std.specs.Prelude.{◌≡◌, ◌↔◌, ◌<◌, ℕ, true, map, length, slice_get, Some, IfOk, IfSome, IfNone, OnOk, OnErr};

use fond_ast::task::LiftedTask;
use fond_store::store::Store;
use fond_task::step::apply_into;
use fond_task::task::Task;
use fond_task::text::put_state;
use fond_task::truth::applicable;
use fond_text::atom::GroundAction;
use fond_text::fault::NoMemory;
use fond_text::text::Text;
use std::alloc::Global;

/// Whether two ground actions are the same.
fn is_same_action(action: &GroundAction, other: &GroundAction) -> bool
    ensures { result ≡ true ↔ action.now ≡ other.now }
{
    action.schema == other.schema && action.objects.as_slice() == other.objects.as_slice()
}

/// The number of an action in a ground task, if it is kept. Takes time in the number of actions.
fn act_number(game: &Task, action: &GroundAction) -> Option<u32>
    ensures found { IfSome result (λ number. (act : Act) × (slice_get game.now.acts number ≡ Some act) × (act.ground ≡ action.now)) }
    ensures none { IfNone result ((number : ℕ) (act : Act) → slice_get game.now.acts number ≡ Some act → ¬ act.ground ≡ action.now) }
{
    for i in 0..game.acts.len() {
        if is_same_action(&game.acts.get(i).ground, action) {
            return Some(i as u32);
        }
    }
    None
}

/// The states to which the outcomes of an action lead from the initial state, each once, in the order of the first outcome
/// that does. States are compared by a hash, so the time is that of building them.
fn next_states(alloc: Global, game: &Task, number: u32) -> Result<Store, NoMemory>
    requires there { number < length game.now.acts }
    requires applicable { (a : Act) → slice_get game.now.acts number ≡ Some a → is_true game.now.init a.pre ≡ true }
    ensures { (a : Act) → slice_get game.now.acts number ≡ Some a → IfOk result (λ states. states ≡ once (map (next_state game.now.init) a.outcomes)) }
{
    let mut states = Store::new(alloc);
    for k in 0..game.acts.get(number as usize).outcomes.len() {
        let mut next = game.init.copy(alloc)?;
        apply_into(game, &game.init, number, k as u32, &mut next);
        states.add(next)?;
    }
    Ok(states)
}

/// Adds the texts of states, in order.
fn put_states(game: &Task, states: &Store, text: &mut Text)
    ensures { Adds text.old text.new (flat_map (state_text game.now) states.now) }
{
    for i in 0..states.len() {
        put_state(game, states.get(i), text);
    }
}

/// Adds the texts of the successors of the initial state by an action of the ground task, or nothing if memory runs out.
fn put_next_states(alloc: Global, game: &Task, number: u32, text: &mut Text) -> Result<(), NoMemory>
    requires there { number < length game.now.acts }
    requires applicable { (a : Act) → slice_get game.now.acts number ≡ Some a → is_true game.now.init a.pre ≡ true }
    ensures ok { (a : Act) → slice_get game.now.acts number ≡ Some a → OnOk result (Adds text.old text.new (flat_map (state_text game.now) (once (map (next_state game.now.init) a.outcomes)))) }
    ensures err { OnErr result (text.new ≡ text.old) }
{
    let states = next_states(alloc, game, number)?;
    put_states(game, &states, text);
    Ok(())
}

/// Whether a ground action is applicable in the initial state, and if so, adds the text of its successors: each state to which it
/// may lead, once, in the order of the first outcome that leads there. Takes time in the number of kept actions and in the size
/// of the states.
pub fn put_successors(
    alloc: Global,
    task: &LiftedTask,
    game: &Task,
    action: &GroundAction,
    text: &mut Text,
) -> Result<bool, NoMemory>
    requires { IsGroundOf task.now game.now }
    ensures ok { IfOk result (AreSuccessors task.now action.now text.old text.new) }
    ensures err { OnErr result (text.new ≡ text.old) }
{
    let Some(number) = act_number(game, action) else {
        return Ok(false);
    };
    if !applicable(game, &game.init, number) {
        return Ok(false);
    }
    put_next_states(alloc, game, number, text)?;
    Ok(true)
}

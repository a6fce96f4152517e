//! Plans: choices that win, found by their states.

ghost use Rattle.fond_draft.specs.Plans.{IsPlan};
ghost use Rattle.fond_explicit.specs.Answers.{AreWinning, ChoiceView};
ghost use Rattle.fond_text.specs.Lists.{AreDistinct};
ghost use Rattle.std.specs.Prelude.{◌≡◌, [], List, Bool, length, map, IfOk, OnOk};

use fond_explicit::answer::Choices;
use fond_store::store::Store;
use fond_task::task::Task;
use fond_text::fault::NoMemory;
use std::alloc::Global;

/// Choices that win, and their states, each under the number of its choice.
#[derive(Drop)]
pub struct Plan {
    pub choices: Choices,
    pub states: Store,
}

/// Adds the states of distinct choices to an empty store, each under the number of its choice. Reports `NoMemory` past 2^32 - 2
/// choices.
fn add_states(alloc: Global, choices: &Choices, states: &mut Store) -> Result<(), NoMemory>
    requires distinct { AreDistinct (map (λ (choice : ChoiceView). choice.state) choices.now) }
    requires empty { states.old ≡ [] }
    ensures { OnOk result (states.new ≡ map (λ (choice : ChoiceView). choice.state) choices.now) }
{
    for number in 0..choices.len() {
        if states.len() >= u32::MAX - 1 {
            return Err(NoMemory);
        }
        states.add(choices.get(number).state.copy(alloc)?)?;
    }
    Ok(())
}

/// The states of distinct choices, each under the number of its choice. Reports `NoMemory` past 2^32 - 2
/// choices.
fn states_of(alloc: Global, choices: &Choices) -> Result<Store, NoMemory>
    requires { AreDistinct (map (λ (choice : ChoiceView). choice.state) choices.now) }
    ensures { IfOk result (λ states. states ≡ map (λ (choice : ChoiceView). choice.state) choices.now) }
{
    let mut states = Store::new(alloc);
    add_states(alloc, choices, &mut states)?;
    Ok(states)
}

/// The plan of choices that win from some state. Reports `NoMemory` past 2^32 - 2 choices.
pub fn plan_of(alloc: Global, t: &Task, choices: Choices) -> Result<Plan, NoMemory>
    requires { (from : List Bool) × (length from ≡ length t.now.atoms) × AreWinning t.now from choices }
    ensures plan { IfOk result (IsPlan t.now) }
    ensures same { IfOk result (λ plan. plan.choices ≡ choices) }
{
    let states = states_of(alloc, &choices)?;
    Ok(Plan { choices, states })
}

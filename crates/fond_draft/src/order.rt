//! The choices of some states of a plan, in the order of their ranks.

ghost use Rattle.fond_draft.specs.Places.{AreInOrder, HavePlaces, IsPlace};
ghost use Rattle.fond_draft.specs.Plans.{IsPlan};
ghost use Rattle.std.specs.Prelude.{List, Bool, Contains, IfOk};

use crate::plan::Plan;
use fond_store::store::Store;
use fond_task::task::Task;
use fond_text::fault::NoMemory;
use std::alloc::Global;

/// The rank of a choice, and its number.
#[derive(Clone, Copy)]
pub struct Place {
    pub rank: u64,
    pub number: usize,
}

/// The places of the choices in these states.
fn places_of(alloc: Global, t: &Task, plan: &Plan, states: &Store) -> Result<Vec<Place>, NoMemory>
    requires plan { IsPlan t.now plan.now }
    requires listed { (state : List Bool) → Contains states.now state → Contains plan.now.states state }
    ensures each { IfOk result (λ places. (place : Place) → Contains places.items place → IsPlace plan.now.choices states.now place) }
    ensures all { IfOk result (λ places. HavePlaces plan.now.choices states.now places.items) }
{
    let mut places = Vec::new(alloc);
    for at in 0..states.len() {
        let Some(number) = plan.states.find(states.get(at)) else {
            unreachable!()
        };
        let number = number as usize;
        let rank = plan.choices.get(number).rank;
        places.push(Place { rank, number })?;
    }
    Ok(places)
}

/// The places of the choices in these states, by rising ranks.
pub fn in_order(
    alloc: Global,
    t: &Task,
    plan: &Plan,
    states: &Store,
) -> Result<Vec<Place>, NoMemory>
    requires plan { IsPlan t.now plan.now }
    requires listed { (state : List Bool) → Contains states.now state → Contains plan.now.states state }
    ensures { IfOk result (λ places. AreInOrder plan.now.choices states.now places.items) }
{
    let mut places = places_of(alloc, t, plan, states)?;
    places.sort_by_key(|place| place.rank)?;
    Ok(places)
}

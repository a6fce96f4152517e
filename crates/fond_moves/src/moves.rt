//! The actions of a task in plain vectors.

use crate::condition::{Condition, condition_of};
use crate::effect::{Effect, effect_of, is_plain};
use crate::index::size;
use fond_task::plan_step::PlanStep;
use fond_task::shared::Shared;
use fond_task::task::{Act, Entry, Outcome, Task};
use fond_text::fault::NoMemory;
use std::alloc::Global;

/// An action. Its outcomes have consecutive step numbers, from `first` on. Actions may own effects together.
#[derive(Drop)]
pub struct Move {
    pub unfair: bool,
    pub needs: Condition,
    pub effects: Shared<Vec<Effect>>,
    pub first: u32,
}

/// The actions, the steps by their numbers, and the goal.
#[derive(Drop)]
pub struct Moves {
    pub acts: Vec<Move>,
    pub steps: Vec<PlanStep>,
    pub goal: Condition,
    pub atoms: u32,
    pub width: u32,
}

/// The effects of outcomes.
fn effects_of(alloc: Global, outcomes: &[Outcome]) -> Result<Vec<Effect>, NoMemory> {
    let mut effects = Vec::new(alloc);
    for outcome in outcomes {
        effects.push(effect_of(alloc, outcome)?)?;
    }
    Ok(effects)
}

/// Whether two entries without conditions make the same change.
fn are_same(entry: &Entry, other: &Entry) -> bool {
    is_plain(entry) && is_plain(other) && entry.atom == other.atom && entry.add == other.add
}

/// Whether two outcomes are the same entries, all without conditions.
fn is_same_outcome(outcome: &Outcome, other: &Outcome) -> bool {
    if outcome.len() != other.len() {
        return false;
    }
    for i in 0..outcome.len() {
        if i < other.len() && !are_same(outcome.get(i), other.get(i)) {
            return false;
        }
    }
    true
}

/// Whether two actions have the same outcomes, without conditions. Mostly the first ones differ already.
fn has_same_outcomes(act: &Act, other: &Act) -> bool {
    if act.outcomes.len() != other.outcomes.len() {
        return false;
    }
    for i in 0..act.outcomes.len() {
        if i < other.outcomes.len()
            && !is_same_outcome(act.outcomes.get(i), other.outcomes.get(i))
        {
            return false;
        }
    }
    true
}

/// An action whose steps have numbers from `first` on, with these effects.
fn move_of(
    alloc: Global,
    act: &Act,
    effects: Shared<Vec<Effect>>,
    first: u32,
) -> Result<Move, NoMemory> {
    Ok(Move {
        unfair: act.unfair && effects.len() > 1,
        needs: condition_of(alloc, &act.pre)?,
        effects,
        first,
    })
}

impl Moves {
    /// Numbers the steps of an action with this many outcomes.
    fn number(&mut self, act: u32, outcomes: u32) -> Result<(), NoMemory> {
        for outcome in 0..outcomes {
            self.steps.push(PlanStep { act, outcome })?;
        }
        Ok(())
    }

    /// The effects of an action: those of the last one, if this is its act and has the same outcomes.
    fn effects(
        &self,
        alloc: Global,
        act: &Act,
        last: Option<&Act>,
    ) -> Result<Shared<Vec<Effect>>, NoMemory> {
        if let Some(other) = last {
            if let Some(one) = self.acts.last() {
                if has_same_outcomes(act, other) {
                    return one.effects.share();
                }
            }
        }
        Shared::new(alloc, effects_of(alloc, act.outcomes.as_slice())?)
    }

    /// Adds an action after the last one, whose act is given.
    fn add(&mut self, alloc: Global, act: &Act, last: Option<&Act>) -> Result<(), NoMemory> {
        let number = size(self.acts.len());
        let first = size(self.steps.len());
        self.number(number, size(act.outcomes.len()))?;
        let effects = self.effects(alloc, act, last)?;
        self.acts.push(move_of(alloc, act, effects, first)?)?;
        Ok(())
    }

    /// Adds all actions of a task.
    fn add_all(&mut self, alloc: Global, task: &Task) -> Result<(), NoMemory> {
        let mut last = None;
        for act in &task.acts {
            self.add(alloc, act, last)?;
            last = Some(act);
        }
        Ok(())
    }

    /// The actions of a task.
    pub fn new(alloc: Global, task: &Task) -> Result<Moves, NoMemory> {
        let atoms = size(task.atoms.len());
        let mut moves = Moves {
            acts: Vec::new(alloc),
            steps: Vec::new(alloc),
            goal: condition_of(alloc, &task.goal)?,
            atoms,
            width: atoms.saturating_add(63) / 64,
        };
        moves.add_all(alloc, task)?;
        Ok(moves)
    }

    /// The actions of a task, for several owners.
    pub fn shared(alloc: Global, task: &Task) -> Result<Shared<Moves>, NoMemory> {
        Shared::new(alloc, Moves::new(alloc, task)?)
    }

    /// The step of this number.
    pub fn step(&self, number: u32) -> PlanStep {
        let i = number as usize;
        if i < self.steps.len() {
            self.steps[i]
        } else {
            PlanStep { act: 0, outcome: 0 }
        }
    }

    /// The effect of a step.
    pub fn effect(&self, step: PlanStep) -> Option<&Effect> {
        self.acts
            .get(step.act as usize)?
            .effects
            .get(step.outcome as usize)
    }

    /// Makes `out` the state after a step.
    pub fn apply(&self, step: PlanStep, state: &[u64], out: &mut [u64]) {
        if let Some(effect) = self.effect(step) {
            effect.apply(state, out);
        }
    }

    /// How many outcomes the action has.
    pub fn outcomes(&self, act: u32) -> u32 {
        let i = act as usize;
        if i < self.acts.len() {
            size(self.acts[i].effects.len())
        } else {
            0
        }
    }

    /// Whether an opponent picks the outcome of the action.
    pub fn is_unfair(&self, act: u32) -> bool {
        let i = act as usize;
        i < self.acts.len() && self.acts[i].unfair
    }

    /// The number of the action's first step.
    pub fn first_step(&self, act: u32) -> u32 {
        let i = act as usize;
        if i < self.acts.len() {
            self.acts[i].first
        } else {
            0
        }
    }

    /// Whether the action applies in the state.
    pub fn applies(&self, act: u32, state: &[u64]) -> bool {
        let i = act as usize;
        i < self.acts.len() && self.acts[i].needs.holds(state)
    }
}

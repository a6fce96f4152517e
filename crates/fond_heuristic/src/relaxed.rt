//! Relaxed plans: from the goal back, the step by which each fact is reached most cheaply (Hoffmann and Nebel, *The FF
//! planning system*, 2001). The number of steps estimates the distance to the goal.

use crate::cost::{Costs, FAR};
use crate::net::{Gift, Net};
use fond_moves::boxes::boxed;
use fond_moves::index::{NONE, at, link_at, put, size};
use fond_text::fault::NoMemory;
use std::alloc::Global;

/// What is added if the goal is only hoped for.
const HOPE: u32 = 5_000;

/// A step of a relaxed plan, and the cost of what it is for.
#[derive(Clone, Copy, PartialEq, Eq, PartialOrd, Ord)]
pub struct Chosen {
    pub cost: u32,
    pub step: u32,
}

/// Estimates of states, and the relaxed plan of the last one.
#[derive(Drop)]
pub struct Estimate {
    pub costs: Costs,
    pub plan: Vec<Chosen>,
    /// The rounds in which facts and steps were last in the plan.
    facts: Vec<u32>,
    steps: Vec<u32>,
    round: u32,
    open: Vec<u32>,
}

impl Estimate {
    /// No estimate yet, for a net over this many steps.
    pub fn new(alloc: Global, net: &Net, steps: usize) -> Result<Box<Estimate>, NoMemory> {
        let facts = vec![in alloc; 0; net.users.len()]?;
        let steps = vec![in alloc; 0; steps]?;
        let costs = Costs::new(alloc, net)?;
        boxed(
            alloc,
            Estimate {
                costs,
                plan: Vec::new(alloc),
                facts,
                steps,
                round: 0,
                open: Vec::new(alloc),
            },
        )
    }

    /// Whether the step is in the last relaxed plan.
    pub fn prefers(&self, step: u32) -> bool {
        at(&self.steps, step) == self.round && self.round != 0
    }

    /// Forgets the last relaxed plan.
    pub fn forget(&mut self) {
        self.plan.clear();
        self.open.clear();
        self.round = self.round.wrapping_add(1).max(1);
    }

    /// The plan needs a fact.
    fn want(&mut self, fact: u32) -> Result<(), NoMemory> {
        if at(&self.facts, fact) != self.round {
            put(&mut self.facts, fact, self.round);
            self.open.push(fact)?;
        }
        Ok(())
    }

    /// The plan takes the step.
    fn choose(&mut self, gift: &Gift) -> Result<(), NoMemory> {
        if gift.step != NONE && at(&self.steps, gift.step) != self.round {
            put(&mut self.steps, gift.step, self.round);
            self.plan.push(Chosen {
                cost: self.costs.of(gift.fact),
                step: gift.step,
            })?;
        }
        Ok(())
    }

    /// The plan takes the step that gives a fact, and needs what that step needs.
    fn explain(&mut self, net: &Net, fact: u32) -> Result<(), NoMemory> {
        let best = self.costs.best(fact);
        let Some(gift) = net.gifts.get(best as usize) else {
            return Ok(());
        };
        self.choose(gift)?;
        let Some(operator) = net.operators.get(gift.operator as usize) else {
            return Ok(());
        };
        for i in 0..operator.needs {
            self.want(link_at(&net.needs, operator.first_need.saturating_add(i)))?;
        }
        Ok(())
    }

    /// Makes the relaxed plan.
    fn extract(&mut self, net: &Net) -> Result<(), NoMemory> {
        self.want(net.goal())?;
        for _ in 0..net.users.len() {
            let Some(fact) = self.open.pop() else {
                return Ok(());
            };
            self.explain(net, fact)?;
        }
        Ok(())
    }

    /// The estimate of a state if only what is sure counts, or if hopes count too, or `FAR` if the goal is out of reach.
    fn distance(&mut self, net: &Net, state: &[u64], hopeful: bool) -> Result<u32, NoMemory> {
        self.forget();
        if self.costs.work_out(net, state, hopeful)? == FAR {
            return Ok(FAR);
        }
        self.extract(net)?;
        Ok(size(self.plan.len()))
    }

    /// The estimate of a state, or `FAR` if the goal is out of reach in the relaxation. Takes the time of one or two passes
    /// over the net.
    pub fn of(&mut self, net: &Net, state: &[u64]) -> Result<u32, NoMemory> {
        let distance = self.distance(net, state, false)?;
        if distance != FAR || !net.has_hopeful {
            return Ok(distance);
        }
        let hoped = self.distance(net, state, true)?;
        if hoped == FAR {
            return Ok(FAR);
        }
        Ok(hoped.saturating_add(HOPE))
    }
}

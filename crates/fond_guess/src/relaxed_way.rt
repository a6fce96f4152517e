//! A relaxed plan for one fact: the steps by which it, and what they need, are reached most cheaply.

use fond_heuristic::cost::Costs;
use fond_heuristic::net::Net;
use fond_moves::index::{NONE, at, link_at, put};
use fond_text::fault::NoMemory;
use std::alloc::Global;

/// The facts and steps of such a plan.
#[derive(Drop)]
pub(crate) struct Way {
    /// The facts, each after one that needs it.
    pub(crate) facts: Vec<u32>,
    /// The rounds in which facts and steps were last in the plan.
    marks: Vec<u32>,
    steps: Vec<u32>,
    round: u32,
}

impl Way {
    /// No plan, for a net over this many steps.
    pub(crate) fn new(alloc: Global, net: &Net, steps: usize) -> Result<Way, NoMemory> {
        Ok(Way {
            facts: Vec::new(alloc),
            marks: vec![in alloc; 0; net.users.len()]?,
            steps: vec![in alloc; 0; steps]?,
            round: 0,
        })
    }

    /// Whether the step is in the plan.
    pub(crate) fn has(&self, step: u32) -> bool {
        at(&self.steps, step) == self.round && self.round != 0
    }

    /// The plan needs a fact.
    fn want(&mut self, fact: u32) -> Result<(), NoMemory> {
        if at(&self.marks, fact) != self.round {
            put(&mut self.marks, fact, self.round);
            self.facts.push(fact)?;
        }
        Ok(())
    }

    /// The plan takes the step that gives a fact, and needs what that step needs.
    fn explain(&mut self, net: &Net, costs: &Costs, fact: u32) -> Result<(), NoMemory> {
        let best = costs.best(fact);
        let Some(gift) = net.gifts.get(best as usize) else {
            return Ok(());
        };
        if gift.step != NONE {
            put(&mut self.steps, gift.step, self.round);
        }
        let Some(operator) = net.operators.get(gift.operator as usize) else {
            return Ok(());
        };
        for i in 0..operator.needs {
            self.want(link_at(&net.needs, operator.first_need.saturating_add(i)))?;
        }
        Ok(())
    }

    /// Makes the plan for a fact, by costs from a state on. For `NONE` it is empty.
    pub(crate) fn find(&mut self, net: &Net, costs: &Costs, fact: u32) -> Result<(), NoMemory> {
        self.facts.clear();
        self.round = self.round.wrapping_add(1).max(1);
        if fact != NONE {
            self.want(fact)?;
        }
        for i in 0..net.users.len() {
            let Some(fact) = self.facts.get(i) else {
                return Ok(());
            };
            let fact = *fact;
            self.explain(net, costs, fact)?;
        }
        Ok(())
    }
}

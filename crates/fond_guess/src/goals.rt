//! What a search counts beside its estimates: goals that do not hold, and landmarks that were not met yet on the way to a state
//! (Richter and Westphal, *The LAMA planner*, 2010). An estimate sums over goals, so a step that helps one goal may lose as much on
//! the others, and a search stays on a plateau; the number of goals that are left falls.

use crate::landmarks::Reach;
use crate::relaxed_way::Way;
use fond_heuristic::cost::{Costs, FAR};
use fond_heuristic::net::Net;
use fond_moves::boxes::boxed;
use fond_moves::index::{NONE, bit_of, has, link_at, put_bit, size};
use fond_text::fault::NoMemory;
use std::alloc::Global;

/// How many levels of a list each goal takes, for the cost of the nearest.
const LEVELS: u32 = 512;

/// What is counted, and what was met on the way to each state.
#[derive(Drop)]
pub(crate) struct Goals {
    /// The facts: first those that the goal needs, and then landmarks.
    facts: Vec<u32>,
    /// How many of these the goal needs.
    needs: usize,
    /// The words of each state, with a bit for each fact that was met.
    met: Vec<u64>,
    width: usize,
    /// The least rank of a state so far.
    pub(crate) best: u32,
    /// The relaxed plan for the nearest fact that is left.
    pub(crate) way: Way,
    reach: Reach,
}

/// What is left in a state: how many facts, and the one of these that costs least, with its cost.
#[derive(Clone, Copy)]
pub(crate) struct Left {
    pub(crate) count: u32,
    pub(crate) cost: u32,
    pub(crate) fact: u32,
}

impl Left {
    /// The rank of a state in which this is left.
    pub(crate) fn rank(self) -> u32 {
        self.count
            .saturating_mul(LEVELS)
            .saturating_add(self.cost.min(LEVELS - 1))
    }

    /// The greatest rank of a state in which so many facts are left.
    pub(crate) fn worst_rank(self) -> u32 {
        Left { cost: FAR, ..self }.rank()
    }
}

/// Whether the fact holds in the state.
fn holds(net: &Net, fact: u32, state: &[u64]) -> bool {
    match net.literals.get(fact as usize) {
        Some(literal) => has(state, literal.atom) == literal.sign,
        None => false,
    }
}

impl Goals {
    /// Nothing is counted, of a net over this many steps.
    pub(crate) fn new(alloc: Global, net: &Net, steps: usize) -> Result<Box<Goals>, NoMemory> {
        let way = Way::new(alloc, net, steps)?;
        boxed(
            alloc,
            Goals {
                facts: Vec::new(alloc),
                needs: 0,
                met: Vec::new(alloc),
                width: 0,
                best: NONE,
                way,
                reach: Reach::new(alloc),
            },
        )
    }

    /// Counts nothing any more.
    pub(crate) fn clear(&mut self) {
        self.facts.clear();
        self.met.clear();
        self.needs = 0;
        self.best = NONE;
    }

    /// The work done so far for landmarks.
    pub(crate) fn work(&self) -> u64 {
        self.reach.work
    }

    /// Whether more than one fact is counted.
    pub(crate) fn is_on(&self) -> bool {
        self.facts.len() > 1
    }

    /// Counts what the goal needs, by the costs from a state on from which it is reached.
    fn count_needs(&mut self, net: &Net, costs: &Costs) -> Result<(), NoMemory> {
        let gift = costs.best(net.goal());
        let Some(gift) = net.gifts.get(gift as usize) else {
            return Ok(());
        };
        let Some(operator) = net.operators.get(gift.operator as usize) else {
            return Ok(());
        };
        for i in 0..operator.needs {
            self.facts
                .push(link_at(&net.needs, operator.first_need.saturating_add(i)))?;
        }
        self.needs = self.facts.len();
        Ok(())
    }

    /// Whether the fact is counted.
    fn counts(&self, fact: u32) -> bool {
        for other in &self.facts {
            if *other == fact {
                return true;
            }
        }
        false
    }

    /// Counts from now on what the goal needs, if there is one way to meet it, by the costs from the first state on. Returns whether
    /// anything is to be counted.
    pub(crate) fn begin(&mut self, net: &Net, costs: &Costs) -> Result<bool, NoMemory> {
        self.clear();
        if net.has_one_way() {
            self.count_needs(net, costs)?;
        }
        Ok(self.is_on())
    }

    /// Counts the facts of the way to the goal without which the relaxation does not reach it, as far as the work allows.
    fn count_facts(&mut self, net: &Net, start: &[u64], work: u64) -> Result<(), NoMemory> {
        let end = self.reach.work.saturating_add(work);
        for i in 0..self.way.facts.len() {
            let fact = link_at(&self.way.facts, size(i));
            if self.reach.work >= end {
                return Ok(());
            }
            if fact == net.goal() || holds(net, fact, start) || self.counts(fact) {
                continue;
            }
            if !self.reach.without(net, start, fact)? {
                self.facts.push(fact)?;
            }
        }
        Ok(())
    }

    /// Counts landmarks too from now on, by the costs from the first state on. Returns whether there are any.
    pub(crate) fn add_landmarks(
        &mut self,
        net: &Net,
        costs: &Costs,
        start: &[u64],
        work: u64,
    ) -> Result<bool, NoMemory> {
        let before = self.facts.len();
        if before == 0 {
            return Ok(false);
        }
        self.way.find(net, costs, net.goal())?;
        self.reach.hopeful = false;
        self.reach.hopeful = !self.reach.without(net, start, NONE)?;
        self.count_facts(net, start, work)?;
        Ok(self.facts.len() > before)
    }

    /// No state was met yet.
    pub(crate) fn begin_again(&mut self) {
        self.met.clear();
        self.width = self.facts.len() / 64 + 1;
        self.best = NONE;
    }

    /// Whether the rank is less than all before.
    pub(crate) fn is_better(&mut self, rank: u32) -> bool {
        let better = rank < self.best;
        self.best = self.best.min(rank);
        better
    }

    /// Whether a counted fact was met on the way to a state.
    fn was_met(&self, state: u32, i: usize) -> bool {
        let start = (state as usize).saturating_mul(self.width);
        match self.met.get(start.saturating_add(i / 64)) {
            Some(word) => *word & bit_of(size(i)) != 0,
            None => false,
        }
    }

    /// Adds the words of a state, those of the one before at first.
    fn add_words(&mut self, from: u32) -> Result<(), NoMemory> {
        let start = (from as usize).saturating_mul(self.width);
        for i in 0..self.width {
            let word = match self.met.get(start.saturating_add(i)) {
                Some(word) if from != NONE => *word,
                _ => 0,
            };
            self.met.push(word)?;
        }
        Ok(())
    }

    /// Notes what was met on the way to a new state by way of another one.
    pub(crate) fn meet(&mut self, net: &Net, from: u32, state: &[u64]) -> Result<(), NoMemory> {
        let start = self.met.len();
        self.add_words(from)?;
        let base = size(start).saturating_mul(64);
        for i in 0..self.facts.len() {
            let fact = link_at(&self.facts, size(i));
            if holds(net, fact, state) {
                put_bit(&mut self.met, base.saturating_add(size(i)), true);
            }
        }
        Ok(())
    }

    /// Whether a counted fact is left in a state.
    fn is_left(&self, net: &Net, i: usize, number: u32, state: &[u64]) -> bool {
        if i < self.needs {
            !holds(net, link_at(&self.facts, size(i)), state)
        } else {
            !self.was_met(number, i)
        }
    }

    /// What is left in a state, by the costs from it on.
    pub(crate) fn left(&self, net: &Net, costs: &Costs, number: u32, state: &[u64]) -> Left {
        let mut left = Left {
            count: 0,
            cost: FAR,
            fact: NONE,
        };
        for i in 0..self.facts.len() {
            if self.is_left(net, i, number, state) {
                let fact = link_at(&self.facts, size(i));
                let cost = costs.of(fact);
                left.count = left.count.saturating_add(1);
                if cost < left.cost {
                    left.cost = cost;
                    left.fact = fact;
                }
            }
        }
        left
    }
}

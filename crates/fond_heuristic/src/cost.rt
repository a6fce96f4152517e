//! The additive heuristic: the cost of each fact if each need is paid for by itself (Bonet and Geffner, *Planning as
//! heuristic search*, 2001). Facts are settled in the order of their costs, which are kept in buckets.

use crate::net::{Counter, Net, Operator};
use fond_moves::index::{Literal, NONE, fill, has, link_at, put, size};
use fond_text::fault::NoMemory;
use std::alloc::Global;

/// The cost of a fact that is not reached.
pub const FAR: u32 = u32::MAX;

/// The greatest cost.
const MOST: u32 = 20_000;

/// How many facts and operators are cleared in the time of an update.
const CLEARED: u64 = 8;

/// A fact in a bucket, and the next one there.
#[derive(Clone, Copy)]
struct Waiting {
    fact: u32,
    next: u32,
}

/// The costs of the facts of a net from a state on.
#[derive(Drop)]
pub struct Costs {
    costs: Vec<u32>,
    by: Vec<u32>,
    counters: Vec<Counter>,
    buckets: Vec<u32>,
    waiting: Vec<Waiting>,
    pub work: u64,
}

/// The literals that hold in the state cost nothing, and the others are not reached.
fn reset_costs(costs: &mut [u32], literals: &[Literal], state: &[u64]) {
    for i in 0..costs.len().min(literals.len()) {
        let literal = literals[i];
        costs[i] = if has(state, literal.atom) == literal.sign {
            0
        } else {
            FAR
        };
    }
}

impl Costs {
    /// Costs for a net, not worked out yet.
    pub fn new(alloc: Global, net: &Net) -> Result<Costs, NoMemory> {
        let facts = net.users.len();
        Ok(Costs {
            costs: vec![in alloc; FAR; facts]?,
            by: vec![in alloc; NONE; facts]?,
            counters: vec![in alloc; Counter { left: 0, sum: 0 }; net.operators.len()]?,
            buckets: Vec::new(alloc),
            waiting: Vec::new(alloc),
            work: 0,
        })
    }

    /// The cost of the fact.
    pub fn of(&self, fact: u32) -> u32 {
        link_at(&self.costs, fact)
    }

    /// The gift by which the fact is reached most cheaply, or `NONE`.
    pub fn best(&self, fact: u32) -> u32 {
        link_at(&self.by, fact)
    }

    /// Puts a fact into the bucket of its cost.
    fn wait(&mut self, fact: u32, cost: u32) -> Result<(), NoMemory> {
        for _ in self.buckets.len()..(cost as usize).saturating_add(1) {
            self.buckets.push(NONE)?;
        }
        let number = size(self.waiting.len());
        let next = link_at(&self.buckets, cost);
        self.waiting.push(Waiting { fact, next })?;
        put(&mut self.buckets, cost, number);
        Ok(())
    }

    /// The fact can be had at this cost, by the gift.
    fn offer(&mut self, fact: u32, cost: u32, by: u32) -> Result<(), NoMemory> {
        if cost >= self.of(fact) {
            return Ok(());
        }
        put(&mut self.costs, fact, cost);
        put(&mut self.by, fact, by);
        self.wait(fact, cost)
    }

    /// All that the operator needs is reached, at this cost.
    fn fire(&mut self, net: &Net, operator: &Operator, sum: u32) -> Result<(), NoMemory> {
        let cost = sum.saturating_add(operator.price).min(MOST);
        for number in operator.first_gift..operator.end_gift {
            if let Some(fact) = net.given.get(number as usize) {
                self.offer(*fact, cost, number)?;
            }
        }
        Ok(())
    }

    /// Whether the operator waits for nothing.
    fn is_ready(&self, operator: u32) -> bool {
        match self.counters.get(operator as usize) {
            Some(counter) => counter.left == 0,
            None => false,
        }
    }

    /// One more fact that the operator needs is reached, at this cost. Returns whether it was the last.
    fn count(&mut self, operator: u32, cost: u32) -> Option<u32> {
        let counter = self.counters.get_mut(operator as usize)?;
        counter.left = counter.left.saturating_sub(1);
        counter.sum = counter.sum.saturating_add(cost);
        if counter.left == 0 {
            Some(counter.sum)
        } else {
            None
        }
    }

    /// The fact has its final cost.
    fn settle(&mut self, net: &Net, fact: u32, cost: u32) -> Result<(), NoMemory> {
        let Some(users) = net.users.get(fact as usize) else {
            return Ok(());
        };
        self.work = self.work.saturating_add(users.len() as u64);
        for number in users {
            if let Some(sum) = self.count(*number, cost) {
                if let Some(operator) = net.operators.get(*number as usize) {
                    self.fire(net, operator, sum)?;
                }
            }
        }
        Ok(())
    }

    /// Nothing is reached yet but the facts of the state.
    fn reset(&mut self, net: &Net, state: &[u64], hopeful: bool) -> Result<(), NoMemory> {
        let counters = if hopeful { &net.hoped } else { &net.sure };
        self.counters.clear();
        self.counters.extend_from_slice(counters)?;
        reset_costs(&mut self.costs, &net.literals, state);
        put(&mut self.costs, net.goal(), FAR);
        fill(&mut self.by, NONE);
        self.buckets.clear();
        self.waiting.clear();
        Ok(())
    }

    /// Reaches what needs no more than the facts of the state.
    fn begin(&mut self, net: &Net) -> Result<(), NoMemory> {
        for number in &net.free {
            if let Some(operator) = net.operators.get(*number as usize) {
                if self.is_ready(*number) {
                    self.fire(net, operator, 0)?;
                }
            }
        }
        for fact in 0..net.goal() {
            if self.of(fact) == 0 {
                self.settle(net, fact, 0)?;
            }
        }
        Ok(())
    }

    /// Whether the goal has its final cost once all facts below a cost have theirs. If there is one way to meet it, all that
    /// it needs has its final cost as soon as it has any.
    fn is_done(&self, net: &Net, cost: u32, one_way: bool) -> bool {
        let goal = self.of(net.goal());
        goal <= cost || (one_way && goal != FAR)
    }

    /// Settles the facts of a bucket, those too that come into it meanwhile, until the goal has its final cost.
    fn empty_bucket(&mut self, net: &Net, cost: u32, one_way: bool) -> Result<(), NoMemory> {
        for _ in 0..u32::MAX {
            if self.is_done(net, cost, one_way) {
                return Ok(());
            }
            let first = link_at(&self.buckets, cost);
            let Some(waiting) = self.waiting.get(first as usize) else {
                return Ok(());
            };
            let fact = waiting.fact;
            let next = waiting.next;
            put(&mut self.buckets, cost, next);
            if self.of(fact) == cost {
                self.settle(net, fact, cost)?;
            }
        }
        Ok(())
    }

    /// Works out the costs from a state on, until the goal has its cost. Returns that cost. What is only hoped for counts if
    /// `hopeful`. Takes time in the number of facts and operators, and in the needs of operators that are met.
    pub fn work_out(&mut self, net: &Net, state: &[u64], hopeful: bool) -> Result<u32, NoMemory> {
        self.reset(net, state, hopeful)?;
        let one_way = net.has_one_way();
        let cleared = net.operators.len().saturating_add(net.users.len());
        self.work = self.work.saturating_add(cleared as u64 / CLEARED);
        self.begin(net)?;
        for cost in 0..MOST + 1 {
            if cost as usize >= self.buckets.len() || self.is_done(net, cost, one_way) {
                return Ok(self.of(net.goal()));
            }
            self.empty_bucket(net, cost, one_way)?;
        }
        Ok(self.of(net.goal()))
    }
}

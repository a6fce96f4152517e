//! Landmarks of the relaxation: facts without which it does not reach the goal, so that they hold at some time on each way to it
//! (Hoffmann, Porteous and Sebastia, *Ordered landmarks in planning*, 2004).

use fond_heuristic::net::Net;
use fond_moves::index::{NONE, at, fill, has, link_at, put, size};
use fond_text::fault::NoMemory;
use std::alloc::Global;

/// What is reached in the relaxation without a fact.
#[derive(Drop)]
pub(crate) struct Reach {
    /// How many needs of each operator are not reached yet.
    missing: Vec<u32>,
    /// 1 for each fact that is reached, and for the one that is left out.
    reached: Vec<u32>,
    open: Vec<u32>,
    /// What is only hoped for counts.
    pub(crate) hopeful: bool,
    pub(crate) work: u64,
}

impl Reach {
    /// Nothing is reached.
    pub(crate) fn new(alloc: Global) -> Reach {
        Reach {
            missing: Vec::new(alloc),
            reached: Vec::new(alloc),
            open: Vec::new(alloc),
            hopeful: false,
            work: 0,
        }
    }

    /// A fact is reached.
    fn add(&mut self, fact: u32) -> Result<(), NoMemory> {
        if at(&self.reached, fact) == 0 {
            put(&mut self.reached, fact, 1);
            self.open.push(fact)?;
        }
        Ok(())
    }

    /// The operator gives what it gives.
    fn fire(&mut self, net: &Net, operator: u32) -> Result<(), NoMemory> {
        let Some(operator) = net.operators.get(operator as usize) else {
            return Ok(());
        };
        for gift in operator.first_gift..operator.end_gift {
            self.add(link_at(&net.given, gift))?;
        }
        Ok(())
    }

    /// A fact is there for the operators that need it.
    fn settle(&mut self, net: &Net, fact: u32) -> Result<(), NoMemory> {
        let Some(users) = net.users.get(fact as usize) else {
            return Ok(());
        };
        self.work = self.work.saturating_add(users.len() as u64);
        for operator in users {
            let missing = link_at(&self.missing, *operator).saturating_sub(1);
            put(&mut self.missing, *operator, missing);
            if missing == 0 {
                self.fire(net, *operator)?;
            }
        }
        Ok(())
    }

    /// No operator has any of its needs.
    fn count(&mut self, net: &Net) -> Result<(), NoMemory> {
        let counters = if self.hopeful { &net.hoped } else { &net.sure };
        self.missing.clear();
        for counter in counters {
            self.missing.push(counter.left)?;
        }
        Ok(())
    }

    /// Nothing is reached, and no fact is left out.
    fn clear(&mut self, net: &Net) -> Result<(), NoMemory> {
        self.open.clear();
        fill(&mut self.reached, 0);
        for _ in self.reached.len()..net.users.len() {
            self.reached.push(0)?;
        }
        Ok(())
    }

    /// Reaches the facts of a state, and what needs none.
    fn begin(&mut self, net: &Net, state: &[u64]) -> Result<(), NoMemory> {
        for (number, literal) in net.literals.iter().enumerate() {
            if has(state, literal.atom) == literal.sign {
                self.add(size(number))?;
            }
        }
        for operator in &net.free {
            if link_at(&self.missing, *operator) == 0 {
                self.fire(net, *operator)?;
            }
        }
        Ok(())
    }

    /// Whether the relaxation reaches the goal from a state without a fact. Takes the time of a pass over the net.
    pub(crate) fn without(
        &mut self,
        net: &Net,
        state: &[u64],
        fact: u32,
    ) -> Result<bool, NoMemory> {
        self.count(net)?;
        self.clear(net)?;
        self.work = self.work.saturating_add(
            net.operators.len().saturating_add(net.users.len()) as u64 / 8,
        );
        put(&mut self.reached, fact, 1);
        self.begin(net, state)?;
        for i in 0..net.users.len() {
            let Some(fact) = self.open.get(i) else {
                return Ok(false);
            };
            let fact = *fact;
            if fact == net.goal() {
                return Ok(true);
            }
            self.settle(net, fact)?;
        }
        Ok(at(&self.reached, net.goal()) == 1)
    }
}

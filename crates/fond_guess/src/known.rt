//! What a search knows: the task, the rules and pairs of a policy, the cubes that are dead, and the responses of the
//! opponent.

use fond_deadends::cubes::{CubeSet, Masks};
use fond_deadends::facts::Facts;
use fond_deadends::states::StateSet;
use fond_heuristic::bar::Givers;
use fond_heuristic::net::Net;
use fond_moves::applicable::ActIndex;
use fond_moves::boxes::boxed;
use fond_moves::condition::all_hold;
use fond_moves::index::{NONE, copy_words, fill, link_at, put, size};
use fond_moves::moves::Moves;
use fond_moves::weight::Weights;
use fond_task::plan_step::PlanStep;
use fond_task::shared::Shared;
use fond_task::task::Task;
use fond_text::fault::NoMemory;
use std::alloc::Global;

/// The most targets of a rule that are aimed at.
const MOST_AIMS: usize = 24;

/// A cube in which an action is barred, and the next one of the action.
#[derive(Drop)]
struct Bar {
    masks: Masks,
    next: u32,
}

/// The cubes in which actions are barred, in a list for each action.
#[derive(Drop)]
pub(crate) struct Bars {
    firsts: Vec<u32>,
    bars: Vec<Bar>,
}

/// The outcomes that the opponent picks in some states, each by the state and the action after it.
#[derive(Drop)]
pub(crate) struct Responses {
    places: StateSet,
    outcomes: Vec<u32>,
    key: Vec<u64>,
}

/// What a search knows. The large parts are in boxes, since the time that the proof of a body takes grows with the fields
/// of the values that it owns.
#[derive(Drop)]
pub(crate) struct Known {
    pub(crate) moves: Shared<Moves>,
    pub(crate) index: Box<ActIndex>,
    pub(crate) net: Box<Net>,
    pub(crate) weights: Box<Weights>,
    givers: Box<Givers>,
    pub(crate) rules: Box<CubeSet>,
    /// The rules that are targets of each rule.
    targets: Vec<Vec<u32>>,
    pub(crate) dead: Box<CubeSet>,
    pub(crate) bars: Box<Bars>,
    pub(crate) responses: Box<Responses>,
}

impl Bars {
    /// No cubes for this many actions.
    fn new(alloc: Global, acts: usize) -> Result<Box<Bars>, NoMemory> {
        let firsts = vec![in alloc; NONE; acts]?;
        let bars = Vec::new(alloc);
        boxed(alloc, Bars { firsts, bars })
    }

    /// Drops all.
    fn clear(&mut self) {
        self.bars.clear();
        fill(&mut self.firsts, NONE);
    }

    /// Whether the action is barred in the state.
    fn holds(&self, act: u32, state: &[u64]) -> bool {
        let mut number = link_at(&self.firsts, act);
        for _ in 0..self.bars.len() {
            let Some(bar) = self.bars.get(number as usize) else {
                return false;
            };
            if all_hold(&bar.masks, state) {
                return true;
            }
            number = bar.next;
        }
        false
    }

    /// Bars the action in the states of a cube.
    pub(crate) fn add(&mut self, act: u32, masks: Masks) -> Result<(), NoMemory> {
        let number = size(self.bars.len());
        let next = link_at(&self.firsts, act);
        self.bars.push(Bar { masks, next })?;
        put(&mut self.firsts, act, number);
        Ok(())
    }
}

impl Responses {
    /// No responses, in states of this many words.
    fn new(alloc: Global, width: u32) -> Result<Box<Responses>, NoMemory> {
        let width = width.saturating_add(1);
        let places = StateSet::new(alloc, width)?;
        let key = vec![in alloc; 0; width as usize]?;
        let outcomes = Vec::new(alloc);
        boxed(
            alloc,
            Responses {
                places,
                outcomes,
                key,
            },
        )
    }

    /// Makes the key of a state and an action.
    fn set_key(&mut self, act: u32, state: &[u64]) {
        copy_words(&mut self.key, state);
        if let Some(word) = self.key.last_mut() {
            *word = act as u64;
        }
    }

    /// The outcome that is picked, or `NONE` if none was set.
    pub(crate) fn get(&mut self, act: u32, state: &[u64]) -> u32 {
        self.set_key(act, state);
        match self.places.find(&self.key) {
            Some(number) => link_at(&self.outcomes, number),
            None => NONE,
        }
    }

    /// Sets the outcome that is picked.
    pub(crate) fn set(&mut self, act: u32, state: &[u64], outcome: u32) -> Result<(), NoMemory> {
        self.set_key(act, state);
        let (number, is_new) = self.places.add(&self.key)?;
        if is_new {
            self.outcomes.push(outcome)?;
        }
        put(&mut self.outcomes, number, outcome);
        Ok(())
    }
}

impl Known {
    /// What is known at first of a task with these moves.
    pub(crate) fn new(
        alloc: Global,
        task: &Task,
        moves: Shared<Moves>,
    ) -> Result<Box<Known>, NoMemory> {
        let index = ActIndex::new(alloc, &moves)?;
        let net = Net::new(alloc, task, &moves)?;
        let weights = Weights::new(alloc, task, moves.atoms)?;
        let givers = Givers::new(alloc, task, &moves)?;
        let rules = CubeSet::new(alloc, moves.atoms, moves.width)?;
        let dead = CubeSet::new(alloc, moves.atoms, moves.width)?;
        let bars = Bars::new(alloc, moves.acts.len())?;
        let responses = Responses::new(alloc, moves.width)?;
        boxed(
            alloc,
            Known {
                moves,
                index,
                net,
                weights,
                givers,
                rules,
                targets: Vec::new(alloc),
                dead,
                bars,
                responses,
            },
        )
    }

    /// What searches for dead cubes go by.
    pub(crate) fn facts(&self) -> Facts<'_> {
        Facts {
            moves: &self.moves,
            weights: &self.weights,
            net: &self.net,
            together: self.givers.together(),
            dead: &self.dead,
        }
    }

    /// Drops the rules and pairs.
    pub(crate) fn forget_rules(&mut self) {
        self.rules.clear();
        self.targets.clear();
        self.bars.clear();
    }

    /// Adds a rule, which has no targets yet.
    pub(crate) fn add_rule(&mut self, masks: Masks) -> Result<(), NoMemory> {
        self.targets.push(Vec::new(*masks.allocator()))?;
        self.rules.add(masks)
    }

    /// Adds a target to the last rule.
    pub(crate) fn add_target(&mut self, rule: u32) -> Result<(), NoMemory> {
        if let Some(targets) = self.targets.last_mut() {
            targets.push(rule)?;
        }
        Ok(())
    }

    /// From now on, searches aim at the condition of a rule instead of the goal, if some condition of the task needs a literal of
    /// it. Returns whether one does.
    fn aim_at(&mut self, rule: u32) -> Result<bool, NoMemory> {
        self.net.aim(self.rules.masks(rule))
    }

    /// From now on, searches aim at the conditions of the first rule that holds in a state and of its targets instead of the
    /// goal. Returns whether there is such a rule.
    pub(crate) fn aim_around(&mut self, state: &[u64]) -> Result<bool, NoMemory> {
        let rule = self.rules.first(state);
        let mut aims = self.aim_at(rule)?;
        for i in 0..MOST_AIMS {
            let Some(target) = self.target(rule, i) else {
                return Ok(aims);
            };
            aims |= self.aim_at(target)?;
        }
        Ok(aims)
    }

    /// A target of a rule.
    fn target(&self, rule: u32, i: usize) -> Option<u32> {
        let target = self.targets.get(rule as usize)?.get(i)?;
        Some(*target)
    }

    /// The states of a cube are dead.
    pub(crate) fn kill(&mut self, masks: Masks) -> Result<(), NoMemory> {
        self.givers.bar(&self.moves, &mut self.net, &masks)?;
        self.dead.add(masks)
    }

    /// Whether a plan may end in the state.
    pub(crate) fn is_settled(&self, state: &[u64]) -> bool {
        self.moves.goal.holds(state) || self.rules.holds(state)
    }

    /// Whether the action is to be passed over in the state: it is barred, or some outcome of it leads into a dead cube.
    /// `next` is overwritten.
    pub(crate) fn is_excluded(&self, act: u32, state: &[u64], next: &mut [u64]) -> bool {
        if self.bars.holds(act, state) {
            return true;
        }
        if self.dead.is_empty() {
            return false;
        }
        for outcome in 0..self.moves.outcomes(act) {
            self.moves.apply(PlanStep { act, outcome }, state, next);
            if self.dead.holds(next) {
                return true;
            }
        }
        false
    }
}

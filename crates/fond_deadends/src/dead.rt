//! Dead cubes: partial states on which the value of the goal is No, and that no action surely leaves.
//!
//! From what is known of a state, each literal is dropped that some possible action may take away, until nothing changes.
//! An action does nothing if some outcome of it leads from what is left into a cube that is dead already; an unfair one also
//! if some outcome takes nothing away, and else only its least harmful outcome counts. If the value of the goal is still No,
//! what is left is dead.
//!
//! Of its literals, only those are kept that are reasons: why the goal is false, and why the actions that would take a
//! reason away do not apply, or do no harm. Then each literal is dropped that the others have no need of, and at last
//! ranges of them with all that falls with these, as long as what is left is dead.

use crate::facts::Facts;
use fond_moves::boxes::boxed;
use fond_moves::index::{Literal, NONE, has, size};
use fond_moves::moves::Move;
use fond_moves::part::Part;
use fond_task::form::Kleene;
use fond_text::fault::NoMemory;
use std::alloc::Global;

/// The most looks at an action for one cube.
const LOOKS: u64 = 20_000_000;

/// The most looks at an action to drop ranges of literals.
const SPARE: u64 = 300_000;

/// A search for a dead cube. Its buffers serve one search after the other.
#[derive(Drop)]
pub struct Prover {
    /// What is left of what was assumed.
    part: Part,
    image: Part,
    /// The best dead cube so far.
    pub best: Part,
    /// The literals of the best cube, in the order in which they are tried.
    literals: Vec<Literal>,
    /// The literals that are assumed next.
    trial: Vec<Literal>,
    /// The action that took a literal of the last trial away that was not stable. It is looked at first: the next literal is often
    /// needed because of the next action.
    taker: u32,
    /// How many looks at an action are left, and how many were taken for all cubes.
    left: u64,
    pub work: u64,
}

impl Prover {
    /// A search that has not begun.
    pub fn new(alloc: Global, width: u32) -> Result<Box<Prover>, NoMemory> {
        let part = Part::new(alloc, width)?;
        let image = Part::new(alloc, width)?;
        let best = Part::new(alloc, width)?;
        boxed(
            alloc,
            Prover {
                part,
                image,
                best,
                literals: Vec::new(alloc),
                trial: Vec::new(alloc),
                taker: 0,
                left: 0,
                work: 0,
            },
        )
    }

    /// A dead cube into which some outcome leads from what is left.
    fn blocked(&mut self, facts: &Facts, one: &Move) -> Option<u32> {
        if facts.dead.is_empty() {
            return None;
        }
        for effect in one.effects.iter() {
            effect.image(&self.part, &mut self.image);
            let cube = facts.dead.cover(&self.image);
            if cube.is_some() {
                return cube;
            }
        }
        None
    }

    /// The outcome that takes the fewest literals away, with their number, and whether all take none away.
    fn least_harmful(&self, one: &Move) -> (u32, u32, bool) {
        let mut best = 0;
        let mut least = NONE;
        let mut harmless = true;
        let effects = one.effects.as_slice();
        for i in 0..effects.len() {
            let count = effects[i].count_lost(&self.part);
            harmless &= count == 0;
            if count < least {
                least = count;
                best = size(i);
            }
        }
        (best, least, harmless)
    }

    /// Drops what the outcomes of an action may take away, or what one of them may.
    fn lose(&mut self, one: &Move, only: u32) {
        let effects = one.effects.as_slice();
        for i in 0..effects.len() {
            if !one.unfair || size(i) == only {
                effects[i].forget_lost(&mut self.part);
            }
        }
    }

    /// Drops what an action may take away. Returns whether anything was dropped.
    fn press(&mut self, facts: &Facts, act: u32) -> bool {
        self.left = self.left.saturating_sub(1);
        self.work = self.work.saturating_add(1);
        let Some(one) = facts.moves.acts.get(act as usize) else {
            return false;
        };
        if one.needs.value(&self.part) == Kleene::No {
            return false;
        }
        let (best, least, harmless) = self.least_harmful(one);
        if harmless || (one.unfair && least == 0) || self.blocked(facts, one).is_some() {
            return false;
        }
        self.lose(one, best);
        true
    }

    /// Looks at each action once. Returns whether anything was dropped.
    fn round(&mut self, facts: &Facts) -> bool {
        let mut dropped = false;
        for act in 0..size(facts.moves.acts.len()) {
            dropped |= self.press(facts, act);
        }
        dropped
    }

    /// Drops literals until no action takes any away. Returns whether what is left is dead.
    fn settle(&mut self, facts: &Facts) -> bool {
        for _ in 0..u64::MAX {
            if facts.moves.goal.value(&self.part) != Kleene::No || self.left == 0 {
                return false;
            }
            if !self.round(facts) {
                return true;
            }
        }
        false
    }

    /// Makes what is left the literals of the trial.
    fn assume_trial(&mut self) {
        self.part.clear();
        for literal in &self.trial {
            self.part.put(*literal);
        }
    }

    /// Assumes the literals of the trial and settles. If what is left is dead, it is the best cube.
    fn try_trial(&mut self, facts: &Facts) -> bool {
        self.assume_trial();
        if !self.settle(facts) {
            return false;
        }
        self.best.copy_from(&self.part);
        true
    }

    /// Adds to what is left the literals of the best cube because of which an action takes nothing of that away.
    fn explain_harmless(&mut self, facts: &Facts, one: &Move) {
        std::mem::swap(&mut self.part, &mut self.best);
        let blocked = self.blocked(facts, one);
        std::mem::swap(&mut self.part, &mut self.best);
        if let Some(cube) = blocked {
            facts.dead.mention(cube, &self.best, &mut self.part);
        }
        for effect in one.effects.iter() {
            effect.mention(&self.best, &mut self.part);
        }
    }

    /// Adds to what is left literals of the best cube because of which an action takes nothing away. Returns whether any
    /// were missing.
    fn explain_act(&mut self, facts: &Facts, act: u32) -> bool {
        self.left = self.left.saturating_sub(1);
        self.work = self.work.saturating_add(1);
        let Some(one) = facts.moves.acts.get(act as usize) else {
            return false;
        };
        if one.needs.value(&self.part) == Kleene::No {
            return false;
        }
        let (_, least, harmless) = self.least_harmful(one);
        if harmless || (one.unfair && least == 0) || self.blocked(facts, one).is_some() {
            return false;
        }
        let before = self.part.count();
        if one.needs.value(&self.best) == Kleene::No {
            one.needs.refute(&self.best, facts.weights, &mut self.part);
        } else {
            self.explain_harmless(facts, one);
        }
        if self.part.count() == before {
            self.part.copy_from(&self.best);
        }
        true
    }

    /// Looks at each action once. Returns whether literals were added.
    fn explain_round(&mut self, facts: &Facts) -> bool {
        let mut added = false;
        for act in 0..size(facts.moves.acts.len()) {
            added |= self.explain_act(facts, act);
        }
        added
    }

    /// Makes the trial the literals of what is left.
    fn assume_part(&mut self, atoms: u32) -> Result<(), NoMemory> {
        self.trial.clear();
        for atom in 0..atoms {
            if let Some(sign) = self.part.literal(atom) {
                self.trial.push(Literal { atom, sign })?;
            }
        }
        Ok(())
    }

    /// Replaces the best cube by one of few of its literals: a reason why the goal is false, and for each action that would
    /// take some of the literals away, a reason why it does not.
    fn explain(&mut self, facts: &Facts) -> Result<(), NoMemory> {
        self.part.clear();
        facts
            .moves
            .goal
            .refute(&self.best, facts.weights, &mut self.part);
        for _ in 0..self.best.count().saturating_add(1) {
            if self.left == 0 {
                return Ok(());
            }
            if !self.explain_round(facts) {
                self.assume_part(facts.moves.atoms)?;
                self.try_trial(facts);
                return Ok(());
            }
        }
        Ok(())
    }

    /// Makes the literals those of the best cube of this sign.
    fn list(&mut self, atoms: u32, sign: bool) -> Result<(), NoMemory> {
        for atom in 0..atoms {
            let literal = Literal { atom, sign };
            if self.best.has(literal) {
                self.literals.push(literal)?;
            }
        }
        Ok(())
    }

    /// Makes the trial the literals without those of a range.
    fn cut(&mut self, from: usize, to: usize) -> Result<(), NoMemory> {
        self.trial.clear();
        for (i, literal) in self.literals.iter().enumerate() {
            if i < from || i >= to {
                self.trial.push(*literal)?;
            }
        }
        Ok(())
    }

    /// Drops those literals that the best cube has no more. Returns how many are left of the first ones.
    fn shrink(&mut self, first: usize) -> Result<usize, NoMemory> {
        self.trial.clear();
        let mut kept = 0;
        for (i, literal) in self.literals.iter().enumerate() {
            if self.best.has(*literal) {
                self.trial.push(*literal)?;
                if i < first {
                    kept = self.trial.len();
                }
            }
        }
        self.literals.clear();
        self.literals.extend_from_slice(&self.trial)?;
        Ok(kept)
    }

    /// Tries to drop each range of this length in turn.
    fn drop_ranges(&mut self, facts: &Facts, length: usize) -> Result<(), NoMemory> {
        let mut from = 0;
        for _ in 0..u32::MAX {
            if from >= self.literals.len() || self.left == 0 {
                return Ok(());
            }
            let to = from.saturating_add(length);
            self.cut(from, to)?;
            from = if self.try_trial(facts) {
                self.shrink(from)?
            } else {
                to
            };
        }
        Ok(())
    }

    /// Makes the literals those of the best cube, the negative ones first.
    fn list_best(&mut self, atoms: u32) -> Result<(), NoMemory> {
        self.literals.clear();
        self.list(atoms, false)?;
        self.list(atoms, true)
    }

    /// Whether one of the actions in a range takes a literal of what is left away. The first one that does is the taker.
    fn is_taken(&mut self, facts: &Facts, from: u32, to: u32) -> bool {
        for act in from..to {
            if self.press(facts, act) {
                self.taker = act;
                return true;
            }
        }
        false
    }

    /// Whether no action takes any literal of the trial away, and the goal is false on it.
    fn is_stable(&mut self, facts: &Facts) -> bool {
        self.assume_trial();
        if facts.moves.goal.value(&self.part) != Kleene::No {
            return false;
        }
        let acts = size(facts.moves.acts.len());
        let first = self.taker;
        !self.is_taken(facts, first, acts) && !self.is_taken(facts, 0, first)
    }

    /// Drops each literal in turn of which the others have no need.
    fn drop_each(&mut self, facts: &Facts) -> Result<(), NoMemory> {
        self.list_best(facts.moves.atoms)?;
        let mut from = 0;
        for _ in 0..self.literals.len() {
            if self.left == 0 {
                return Ok(());
            }
            self.cut(from, from.saturating_add(1))?;
            if self.is_stable(facts) {
                self.best.copy_from(&self.part);
                from = self.shrink(from)?;
            } else {
                from = from.saturating_add(1);
            }
        }
        Ok(())
    }

    /// Drops ranges of literals, shorter and shorter ones, with all that falls with them.
    fn generalise(&mut self, facts: &Facts) -> Result<(), NoMemory> {
        self.left = self.left.min(SPARE);
        self.list_best(facts.moves.atoms)?;
        let mut length = self.literals.len();
        for _ in 0..64 {
            if length == 0 {
                return Ok(());
            }
            self.drop_ranges(facts, length.saturating_add(1) / 2)?;
            length /= 2;
        }
        Ok(())
    }

    /// Looks for a dead cube around the state, and makes it the best one. Takes time in the number of actions for each
    /// literal that is dropped, up to a limit.
    pub fn find(&mut self, facts: &Facts, state: &[u64]) -> Result<bool, NoMemory> {
        self.left = LOOKS;
        self.trial.clear();
        for atom in 0..facts.moves.atoms {
            let sign = has(state, atom);
            self.trial.push(Literal { atom, sign })?;
        }
        let found = self.try_trial(facts);
        if found {
            self.explain(facts)?;
            self.drop_each(facts)?;
            self.generalise(facts)?;
        }
        Ok(found)
    }
}

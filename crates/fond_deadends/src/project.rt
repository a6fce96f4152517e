//! Layers of cubes over few atoms, found by counterexamples.
//!
//! If no goal is reachable even by what actions do to some of the atoms, the cubes over these to which actions lead from a state
//! are a layer. At first there are no atoms, and the goal may hold. Whenever it may hold on a cube, the actions that led there are
//! followed from the state itself, whether they apply or not. What prevents them is a flaw: atoms of a precondition that is false,
//! of a dead cube that would have been met, or of the goal that is false at last. The cheapest one is added with a group of
//! which at most one atom is true, and the cubes are made anew. If an outcome on the way leads into a cube that is dead by itself,
//! that cube comes first: without it, more and more atoms would be added in vain.
//!
//! A layer that was found is made smaller: the search is repeated with atoms of the layer alone, which are added one by one, and
//! then runs of atoms that are not needed are dropped. Often a tenth of the cubes is left.
//!
//! This is counterexample-guided abstraction refinement (Clarke et al., *Counterexample-guided abstraction refinement for symbolic
//! model checking*, 2003; for planning, Seipp and Helmert, *Counterexample-guided Cartesian abstraction refinement*, 2013), with a
//! projection as the abstraction.

use crate::agenda::first_bit;
use crate::dead::Prover;
use crate::facts::Facts;
use crate::groups::{Choice, Groups, mark};
use crate::layers::{Stage, know_all};
use crate::space::{Space, Spread, meet_words, read_key};
use fond_moves::applicable::sure_masks;
use fond_moves::boxes::boxed;
use fond_moves::condition::{Condition, Mask};
use fond_moves::effect::Effect;
use fond_moves::index::{NONE, clear_words, copy_words, has, put_bit, raise_bits, size, word_at};
use fond_moves::moves::Move;
use fond_moves::part::Part;
use fond_text::fault::NoMemory;
use std::alloc::Global;

/// The most cubes of a layer.
const CUBES: u32 = 60_000;

/// How many states of one way the prover is asked about.
const ASKS: u32 = 40;

/// A search for layers over few atoms. Its buffers serve one search after the other.
#[derive(Drop)]
pub struct Projector {
    groups: Option<Box<Groups>>,
    space: Box<Space>,
    trace: Box<Trace>,
    /// The state around which a layer is sought, and the atoms of the cubes, which stay if it is sought again.
    root: Vec<u64>,
    known: Vec<u64>,
    /// The atoms of a layer that was found, or those without one of them.
    trial: Vec<u64>,
    /// Whether atoms are added alone, and only those of the trial.
    narrow: bool,
}

/// Steps that are followed from a state.
#[derive(Drop)]
struct Trace {
    steps: Vec<u32>,
    /// The state after some of them, of which all atoms are known, and one after that.
    whole: Part,
    next: Vec<u64>,
    /// The atoms because of which the steps lead to no goal, and such reasons for one condition.
    flaws: Vec<u64>,
    reasons: Part,
    /// How often the prover is still asked about a state.
    asks: u32,
}

impl Trace {
    /// No steps.
    fn new(alloc: Global, atoms: u32, width: u32) -> Result<Box<Trace>, NoMemory> {
        let trace = Trace {
            steps: Vec::new(alloc),
            whole: Part::new(alloc, width)?,
            next: vec![in alloc; 0; width as usize]?,
            flaws: vec![in alloc; 0; width as usize]?,
            reasons: Part::new(alloc, width)?,
            asks: 0,
        };
        let mut trace = boxed(alloc, trace)?;
        know_all(&mut trace.whole.care, atoms);
        Ok(trace)
    }

    /// Makes the steps those that led to a cube, the last one first.
    fn trace_back(&mut self, space: &Space, last: u32) -> Result<(), NoMemory> {
        let mut cube = last;
        self.steps.clear();
        for _ in 0..space.cubes.len() {
            let Some(origin) = space.origins.get(cube as usize) else {
                return Ok(());
            };
            if origin.cube == NONE {
                return Ok(());
            }
            self.steps.push(origin.step)?;
            cube = origin.cube;
        }
        Ok(())
    }

    /// Adds atoms because of which a condition is false in the state.
    fn blame(&mut self, facts: &Facts, condition: &Condition) {
        let mut found = 0;
        for mask in sure_masks(condition) {
            let wrong = (word_at(&self.whole.value, mask.word) ^ mask.value) & mask.care;
            raise_bits(&mut self.flaws, mask.word, wrong);
            found |= wrong;
        }
        if found == 0 {
            self.reasons.clear();
            condition.refute(&self.whole, facts.weights, &mut self.reasons);
            join_words(&mut self.flaws, &self.reasons.care);
        }
    }

    /// Adds the atoms that a dead cube asks for, before an effect that leads into it.
    fn blame_cube(&mut self, effect: &Effect, masks: &[Mask]) {
        self.reasons.clear();
        for mask in masks {
            match effect.needed_before(mask) {
                Some(bits) => raise_bits(&mut self.flaws, mask.word, bits),
                None => {
                    raise_bits(&mut self.flaws, mask.word, mask.care);
                    effect.mention(&self.whole, &mut self.reasons);
                }
            }
        }
        join_words(&mut self.flaws, &self.reasons.care);
    }

    /// Adds the atoms because of which outcomes lead into dead cubes. Returns whether one leads into a cube that is dead by itself,
    /// which is not known yet.
    fn blame_dead(
        &mut self,
        facts: &Facts,
        prover: &mut Prover,
        one: &Move,
    ) -> Result<bool, NoMemory> {
        for effect in one.effects.iter() {
            effect.apply(&self.whole.value, &mut self.next);
            let cube = facts.dead.first(&self.next);
            if cube != NONE {
                self.blame_cube(effect, facts.dead.masks(cube));
            } else if one.effects.len() > 1 && self.asks > 0 {
                self.asks = self.asks.saturating_sub(1);
                if prover.find(facts, &self.next)? {
                    return Ok(true);
                }
            }
        }
        Ok(false)
    }

    /// Takes a step, whether it applies or not. Returns whether a dead cube was found instead.
    fn take(&mut self, facts: &Facts, prover: &mut Prover, number: u32) -> Result<bool, NoMemory> {
        let step = facts.moves.step(number);
        let Some(one) = facts.moves.acts.get(step.act as usize) else {
            return Ok(false);
        };
        if !one.needs.holds(&self.whole.value) {
            self.blame(facts, &one.needs);
        }
        if self.blame_dead(facts, prover, one)? {
            return Ok(true);
        }
        if let Some(effect) = one.effects.get(step.outcome as usize) {
            effect.apply(&self.whole.value, &mut self.next);
            copy_words(&mut self.whole.value, &self.next);
        }
        Ok(false)
    }

    /// Makes the flaws the atoms because of which the steps do not lead from the state to the goal. Returns whether a dead cube was
    /// found instead.
    fn follow(
        &mut self,
        facts: &Facts,
        prover: &mut Prover,
        root: &[u64],
    ) -> Result<bool, NoMemory> {
        clear_words(&mut self.flaws);
        self.asks = ASKS;
        copy_words(&mut self.whole.value, root);
        for _ in 0..self.steps.len() {
            if let Some(step) = self.steps.pop() {
                if self.take(facts, prover, step)? {
                    return Ok(true);
                }
            }
        }
        if !facts.moves.goal.holds(&self.whole.value) {
            self.blame(facts, &facts.moves.goal);
        }
        Ok(false)
    }

    /// The cheapest flaw that is not known, with a group unless it is to be alone.
    fn choose(&mut self, groups: &Groups, known: &[u64], alone: bool) -> Option<Choice> {
        drop_words(&mut self.flaws, known);
        let mut best = None;
        for _ in 0..u32::MAX {
            let Some(atom) = first_bit(&self.flaws) else {
                return best;
            };
            put_bit(&mut self.flaws, atom, false);
            best = if alone {
                groups.cheaper_alone(atom, best)
            } else {
                groups.cheaper(atom, known, best)
            };
        }
        best
    }
}

/// Adds the bits of others.
fn join_words(words: &mut [u64], others: &[u64]) {
    for i in 0..words.len().min(others.len()) {
        words[i] |= others[i];
    }
}

/// Clears the bits of others.
fn drop_words(words: &mut [u64], others: &[u64]) {
    for i in 0..words.len().min(others.len()) {
        words[i] &= !others[i];
    }
}

impl Projector {
    /// A search that has not begun.
    pub fn new(alloc: Global, atoms: u32, width: u32) -> Result<Box<Projector>, NoMemory> {
        let space = Space::new(alloc, width)?;
        let trace = Trace::new(alloc, atoms, width)?;
        let root = vec![in alloc; 0; width as usize]?;
        let known = vec![in alloc; 0; width as usize]?;
        let trial = vec![in alloc; 0; width as usize]?;
        boxed(
            alloc,
            Projector {
                groups: None,
                space,
                trace,
                root,
                known,
                trial,
                narrow: false,
            },
        )
    }

    /// How much was done in all searches.
    pub fn work(&self) -> u64 {
        self.space.work
    }

    /// Begins with a state. The atoms stay if it is that of the last search.
    fn begin(&mut self, alloc: Global, facts: &Facts, state: &[u64]) -> Result<(), NoMemory> {
        if self.groups.is_none() {
            self.groups = Some(Groups::new(alloc, facts)?);
        }
        if self.root.as_slice() != state {
            copy_words(&mut self.root, state);
            clear_words(&mut self.known);
            if let Some(groups) = &self.groups {
                groups.list_never(state, &mut self.space.never);
            }
        }
        Ok(())
    }

    /// Adds a flaw of the way to a cube on which the goal may hold, unless a dead cube is found or the way has none.
    fn refine(&mut self, facts: &Facts, prover: &mut Prover, leak: u32) -> Result<Stage, NoMemory> {
        self.trace.trace_back(&self.space, leak)?;
        let before = prover.work;
        let is_dead = self.trace.follow(facts, prover, &self.root)?;
        let done = prover.work.saturating_sub(before);
        self.space.left = self.space.left.saturating_sub(done);
        if is_dead {
            return Ok(Stage::Cube);
        }
        if self.narrow {
            meet_words(&mut self.trace.flaws, &self.trial);
        }
        Ok(if self.add_flaw() {
            Stage::Open
        } else {
            Stage::Failed
        })
    }

    /// Adds the cheapest flaw that is not known, with a group unless it is to be alone. Returns whether there is one.
    fn add_flaw(&mut self) -> bool {
        let Some(groups) = &self.groups else {
            return false;
        };
        let Some(choice) = self.trace.choose(groups, &self.known, self.narrow) else {
            return false;
        };
        put_bit(&mut self.known, choice.atom, true);
        mark(&mut self.known, groups.members(choice.group));
        true
    }

    /// Adds atoms until the cubes over them are a layer, of at most so many.
    fn search(&mut self, facts: &Facts, prover: &mut Prover, most: u32) -> Result<Stage, NoMemory> {
        for _ in 0..facts.moves.atoms.saturating_add(1) {
            match self.space.spread(facts, &self.root, &self.known, most)? {
                Spread::Closed => return Ok(Stage::Layer),
                Spread::Spent => return Ok(Stage::Failed),
                Spread::Leak(leak) => {
                    let stage = self.refine(facts, prover, leak)?;
                    if stage != Stage::Open {
                        return Ok(stage);
                    }
                }
            }
        }
        Ok(Stage::Failed)
    }

    /// Searches once more among the atoms of a layer, and adds these one by one. Keeps all if that fails. Returns how many cubes are
    /// left of so many.
    fn search_within(
        &mut self,
        facts: &Facts,
        prover: &mut Prover,
        cubes: u32,
    ) -> Result<u32, NoMemory> {
        copy_words(&mut self.trial, &self.known);
        clear_words(&mut self.known);
        self.narrow = true;
        let stage = self.search(facts, prover, cubes)?;
        self.narrow = false;
        if stage == Stage::Layer {
            return Ok(self.space.cubes.len());
        }
        copy_words(&mut self.known, &self.trial);
        Ok(cubes)
    }

    /// Keeps the atoms of the trial alone, if the cubes over these are a layer. Returns how many cubes are left of so many.
    fn try_trial(&mut self, facts: &Facts, cubes: u32) -> Result<u32, NoMemory> {
        if self.trial.as_slice() == self.known.as_slice() {
            return Ok(cubes);
        }
        let spread = self.space.spread(facts, &self.root, &self.trial, cubes)?;
        if spread != Spread::Closed {
            return Ok(cubes);
        }
        copy_words(&mut self.known, &self.trial);
        Ok(self.space.cubes.len())
    }

    /// Makes the trial the atoms without the first ones from one on, so many. Returns the atom after these.
    fn cut(&mut self, atoms: u32, from: u32, length: u32) -> u32 {
        copy_words(&mut self.trial, &self.known);
        let mut count: u32 = 0;
        for atom in from..atoms {
            if count >= length {
                return atom;
            }
            if has(&self.known, atom) {
                put_bit(&mut self.trial, atom, false);
                count = count.saturating_add(1);
            }
        }
        atoms
    }

    /// Drops each run of atoms of this length that is not needed. Returns how many cubes are left of so many.
    fn drop_runs(&mut self, facts: &Facts, length: u32, cubes: u32) -> Result<u32, NoMemory> {
        let mut most = cubes;
        let mut from = 0;
        for _ in 0..facts.moves.atoms {
            if from >= facts.moves.atoms || self.space.left == 0 {
                return Ok(most);
            }
            from = self.cut(facts.moves.atoms, from, length);
            most = self.try_trial(facts, most)?;
        }
        Ok(most)
    }

    /// Drops atoms that are not needed, shorter and shorter runs of them. Returns how many cubes are left of so many.
    fn drop_atoms(&mut self, facts: &Facts, cubes: u32) -> Result<u32, NoMemory> {
        let mut most = cubes;
        let mut length = facts.moves.atoms;
        for _ in 0..32 {
            if length == 0 {
                return Ok(most);
            }
            most = self.drop_runs(facts, length.saturating_add(1) / 2, most)?;
            length /= 2;
        }
        Ok(most)
    }

    /// Makes the atoms of a layer fewer, as long as work is left, and the cubes those over them.
    fn reduce(&mut self, facts: &Facts, prover: &mut Prover) -> Result<Stage, NoMemory> {
        let cubes = self.space.cubes.len();
        let half = self.space.left / 2;
        self.space.left = half;
        let most = self.search_within(facts, prover, cubes)?;
        self.space.left = self.space.left.saturating_add(half);
        let most = self.drop_atoms(facts, most)?;
        self.space.left = u64::MAX;
        let spread = self.space.spread(facts, &self.root, &self.known, most)?;
        Ok(if spread == Spread::Closed {
            Stage::Layer
        } else {
            Stage::Failed
        })
    }

    /// Looks for a layer of at most so many cubes around the state, and does not much more than five times this work. A cube that is
    /// dead by itself comes first: it is the prover's.
    pub fn find(
        &mut self,
        alloc: Global,
        facts: &Facts,
        prover: &mut Prover,
        state: &[u64],
        cubes: u32,
        work: u64,
    ) -> Result<Stage, NoMemory> {
        self.begin(alloc, facts, state)?;
        self.space.left = work;
        let stage = self.search(facts, prover, cubes.min(CUBES))?;
        if stage != Stage::Layer {
            return Ok(stage);
        }
        self.space.left = work.saturating_mul(4);
        self.reduce(facts, prover)
    }

    /// The number of cubes.
    pub fn len(&self) -> u32 {
        self.space.cubes.len()
    }

    /// Makes the partial state a cube, if it has no literals outside the words of the cubes' atoms.
    pub fn load(&self, cube: u32, part: &mut Part) {
        read_key(part, &self.space.masks, self.space.cubes.get(cube));
    }
}

//! The cubes over some atoms to which actions may lead from a state.
//!
//! An action that is sure not to apply, since it needs an atom that is never true, is not followed. That atom is one of them then, so
//! that the cubes tell why.

use crate::facts::Facts;
use crate::states::StateSet;
use fond_moves::applicable::sure_masks;
use fond_moves::boxes::boxed;
use fond_moves::condition::Mask;
use fond_moves::index::{NONE, at, copy_words, has, put_bit, size, word_at};
use fond_moves::moves::Move;
use fond_moves::part::Part;
use fond_task::form::Kleene;
use fond_text::fault::NoMemory;
use std::alloc::Global;

/// The work of a look at an action, and that of an outcome beside the words of a state.
const LOOK: u64 = 1;

const IMAGE: u64 = 4;

/// Where a cube was entered from, and by which step. The first one was not.
#[derive(Clone, Copy)]
pub(crate) struct Origin {
    pub(crate) cube: u32,
    pub(crate) step: u32,
}

/// What became of the cubes.
#[derive(Clone, Copy, PartialEq, Eq)]
pub(crate) enum Spread {
    /// No action leads out of them, and the goal is false on each.
    Closed,
    /// The goal may hold on this one.
    Leak(u32),
    /// They are too many, or the work is done.
    Spent,
}

/// Cubes, each with its known atoms and their values in the words in which some atoms are.
#[derive(Drop)]
pub(crate) struct Space {
    /// The atoms by words, and all words of them.
    pub(crate) masks: Vec<Mask>,
    known: Vec<u64>,
    /// The actions that may change one of the atoms and may apply.
    acts: Vec<u32>,
    /// The atoms that are never true.
    pub(crate) never: Vec<u64>,
    pub(crate) cubes: Box<StateSet>,
    pub(crate) origins: Vec<Origin>,
    key: Vec<u64>,
    /// The cube that is looked at, and an image of it.
    part: Part,
    image: Part,
    leak: Option<u32>,
    /// How much work may still be done, and how much was done.
    pub(crate) left: u64,
    pub(crate) work: u64,
}

/// Whether an action may change one of the atoms.
fn touches(one: &Move, masks: &[Mask]) -> bool {
    for effect in one.effects.iter() {
        for mask in masks {
            if effect.needed_before(mask) != Some(mask.care) {
                return true;
            }
        }
    }
    false
}

/// Keeps the bits that others have too.
pub(crate) fn meet_words(words: &mut [u64], others: &[u64]) {
    for i in 0..words.len().min(others.len()) {
        words[i] &= others[i];
    }
}

/// The first atom that the masks need to be true, of those in the words.
fn first_common(masks: &[Mask], words: &[u64]) -> Option<u32> {
    for mask in masks {
        let bits = mask.value & word_at(words, mask.word);
        if bits != 0 {
            return Some(
                mask.word
                    .saturating_mul(64)
                    .saturating_add(bits.trailing_zeros()),
            );
        }
    }
    None
}

/// Makes a partial state the cube of a key, if it has no literals outside the words of the atoms.
pub(crate) fn read_key(part: &mut Part, masks: &[Mask], key: &[u64]) {
    for (i, mask) in masks.iter().enumerate() {
        let place = size(i).saturating_mul(2);
        part.forget_bits(mask.word, u64::MAX);
        part.put_bits(
            mask.word,
            word_at(key, place),
            word_at(key, place.saturating_add(1)),
        );
    }
}

impl Space {
    /// No cubes, over no atoms.
    pub(crate) fn new(alloc: Global, width: u32) -> Result<Box<Space>, NoMemory> {
        let space = Space {
            masks: Vec::new(alloc),
            known: vec![in alloc; 0; width as usize]?,
            acts: Vec::new(alloc),
            never: vec![in alloc; 0; width as usize]?,
            cubes: boxed(alloc, StateSet::new(alloc, 0)?)?,
            origins: Vec::new(alloc),
            key: Vec::new(alloc),
            part: Part::new(alloc, width)?,
            image: Part::new(alloc, width)?,
            leak: None,
            left: 0,
            work: 0,
        };
        boxed(alloc, space)
    }

    /// Counts work.
    fn spend(&mut self, amount: u64) {
        self.left = self.left.saturating_sub(amount);
        self.work = self.work.saturating_add(amount);
    }

    /// Makes the masks those of the atoms, and the image the literals of the state over them.
    fn project(&mut self, root: &[u64]) -> Result<(), NoMemory> {
        self.masks.clear();
        self.part.clear();
        self.image.clear();
        for i in 0..self.known.len() {
            let word = size(i);
            let care = self.known[i];
            if care != 0 {
                let value = word_at(root, word) & care;
                self.masks.push(Mask { word, care, value })?;
                self.image.put_bits(word, care, value);
            }
        }
        Ok(())
    }

    /// Lists the actions that may change one of the atoms and may apply. An action that needs an atom that is never true
    /// does not: that atom becomes one of them. Returns whether there are more atoms then.
    fn list_acts(&mut self, facts: &Facts) -> Result<bool, NoMemory> {
        let mut grew = false;
        self.acts.clear();
        self.spend(facts.moves.steps.len() as u64);
        for (act, one) in facts.moves.acts.iter().enumerate() {
            if touches(one, &self.masks) {
                match first_common(sure_masks(&one.needs), &self.never) {
                    Some(atom) => {
                        grew |= !has(&self.known, atom);
                        put_bit(&mut self.known, atom, true);
                    }
                    None => self.acts.push(size(act))?,
                }
            }
        }
        Ok(grew)
    }

    /// Makes the atoms these and those that are never true because of which actions do not apply that may change any.
    fn choose_atoms(&mut self, facts: &Facts, root: &[u64], known: &[u64]) -> Result<(), NoMemory> {
        copy_words(&mut self.known, known);
        for _ in 0..facts.moves.atoms {
            self.project(root)?;
            if !self.list_acts(facts)? {
                return Ok(());
            }
        }
        Ok(())
    }

    /// Makes the key that of the image, cut back to the atoms.
    fn set_key(&mut self) -> Result<(), NoMemory> {
        self.key.clear();
        for mask in &self.masks {
            self.key
                .push(word_at(&self.image.care, mask.word) & mask.care)?;
            self.key
                .push(word_at(&self.image.value, mask.word) & mask.care)?;
        }
        Ok(())
    }

    /// Whether the goal is false on the image, cut back to the atoms.
    fn is_closed(&mut self, facts: &Facts) -> bool {
        meet_words(&mut self.image.care, &self.known);
        meet_words(&mut self.image.value, &self.known);
        facts.moves.goal.value(&self.image) == Kleene::No
    }

    /// Enters the image.
    fn enter(&mut self, facts: &Facts, origin: Origin) -> Result<(), NoMemory> {
        self.set_key()?;
        let (number, is_new) = self.cubes.add(&self.key)?;
        if !is_new {
            return Ok(());
        }
        self.origins.push(origin)?;
        self.spend(IMAGE);
        if !self.is_closed(facts) && self.leak.is_none() {
            self.leak = Some(number);
        }
        Ok(())
    }

    /// Whether some outcome leads from the cube that is looked at into one that is dead already.
    fn meets_dead(&mut self, facts: &Facts, one: &Move) -> bool {
        if facts.dead.is_empty() {
            return false;
        }
        for effect in one.effects.iter() {
            effect.image(&self.part, &mut self.image);
            if facts.dead.cover(&self.image).is_some() {
                return true;
            }
        }
        false
    }

    /// Enters the cubes into which all outcomes lead.
    fn enter_all(&mut self, facts: &Facts, one: &Move, cube: u32) -> Result<(), NoMemory> {
        for (i, effect) in one.effects.iter().enumerate() {
            effect.image(&self.part, &mut self.image);
            let step = one.first.saturating_add(size(i));
            self.enter(facts, Origin { cube, step })?;
        }
        Ok(())
    }

    /// The outcome that the opponent picks: one into a cube on which the goal is false. None if some outcome leads into a cube that
    /// is entered already.
    fn response(&mut self, facts: &Facts, one: &Move) -> Result<Option<usize>, NoMemory> {
        let mut best = None;
        for (i, effect) in one.effects.iter().enumerate() {
            effect.image(&self.part, &mut self.image);
            self.set_key()?;
            if self.cubes.find(&self.key).is_some() {
                return Ok(None);
            }
            if best.is_none() && self.is_closed(facts) {
                best = Some(i);
            }
        }
        Ok(Some(best.unwrap_or(0)))
    }

    /// Enters the cube into which the outcome leads that the opponent picks.
    fn enter_one(&mut self, facts: &Facts, one: &Move, cube: u32) -> Result<(), NoMemory> {
        let Some(i) = self.response(facts, one)? else {
            return Ok(());
        };
        if let Some(effect) = one.effects.get(i) {
            effect.image(&self.part, &mut self.image);
            let step = one.first.saturating_add(size(i));
            self.enter(facts, Origin { cube, step })?;
        }
        Ok(())
    }

    /// Follows an action from the cube that is looked at.
    fn follow(&mut self, facts: &Facts, act: u32, cube: u32) -> Result<(), NoMemory> {
        self.spend(LOOK);
        let Some(one) = facts.moves.acts.get(act as usize) else {
            return Ok(());
        };
        if one.needs.value(&self.part) == Kleene::No {
            return Ok(());
        }
        let cost = IMAGE.saturating_add(facts.moves.width as u64);
        self.spend(cost.saturating_mul(one.effects.len() as u64));
        if self.meets_dead(facts, one) {
            return Ok(());
        }
        if one.unfair {
            self.enter_one(facts, one, cube)
        } else {
            self.enter_all(facts, one, cube)
        }
    }

    /// Follows all actions that may change an atom from a cube, as long as no goal may hold.
    fn expand(&mut self, facts: &Facts, cube: u32) -> Result<(), NoMemory> {
        read_key(&mut self.part, &self.masks, self.cubes.get(cube));
        for i in 0..self.acts.len() {
            if self.leak.is_some() {
                return Ok(());
            }
            let act = at(&self.acts, size(i));
            self.follow(facts, act, cube)?;
        }
        Ok(())
    }

    /// Enters the cube over these atoms that holds in a state, and all to which actions may lead from it: at most this many.
    pub(crate) fn spread(
        &mut self,
        facts: &Facts,
        root: &[u64],
        known: &[u64],
        most: u32,
    ) -> Result<Spread, NoMemory> {
        self.begin(facts, root, known)?;
        for cube in 0..most.saturating_add(1) {
            if let Some(leak) = self.leak {
                return Ok(Spread::Leak(leak));
            }
            if cube >= self.cubes.len() {
                return Ok(Spread::Closed);
            }
            if self.left == 0 || self.cubes.len() > most {
                return Ok(Spread::Spent);
            }
            self.expand(facts, cube)?;
        }
        Ok(Spread::Spent)
    }

    /// Enters the first cube.
    fn begin(&mut self, facts: &Facts, root: &[u64], known: &[u64]) -> Result<(), NoMemory> {
        self.choose_atoms(facts, root, known)?;
        self.cubes.reset(size(self.masks.len()).saturating_mul(2))?;
        self.origins.clear();
        self.leak = None;
        self.enter(
            facts,
            Origin {
                cube: NONE,
                step: 0,
            },
        )
    }
}

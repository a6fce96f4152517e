//! What dead cubes say about actions: one that would surely lead into a dead cube, if it were not for a single literal,
//! needs the opposite of that literal in the relaxation.

use crate::net::Net;
use crate::together::Together;
use fond_moves::applicable::sure_masks;
use fond_moves::boxes::boxed;
use fond_moves::condition::Mask;
use fond_moves::effect::Effect;
use fond_moves::index::{Literal, bit_of, size};
use fond_moves::lists::empty_lists;
use fond_moves::moves::{Move, Moves};
use fond_task::plan_step::PlanStep;
use fond_task::task::Task;
use fond_text::fault::NoMemory;
use std::alloc::Global;

/// The most words of a cube times the steps that give one of its literals, for one cube and for all.
const MOST: u64 = 8_000_000;

const MOST_FOR_ALL: u64 = 400_000_000;

/// The steps that surely give each literal: two lists for each atom, the negative literal first.
#[derive(Drop)]
pub struct Givers {
    together: Box<Together>,
    steps: Vec<Vec<u32>>,
    found: Vec<u32>,
    /// The words times steps that may still be looked at.
    left: u64,
}

/// What else is needed for an effect to lead into a cube.
#[derive(Clone, Copy, PartialEq, Eq)]
enum Gap {
    /// It leads there in no state, or more than one literal is needed.
    Wide,
    /// It always leads there.
    Nothing,
    /// It leads there if this literal holds before.
    One(Literal),
}

/// The literals of a mask that must hold before an effect for those of the mask to hold after it, if the precondition does
/// not give them; or nothing if they cannot hold.
fn needed(mask: &Mask, effect: &Effect, needs: &[Mask], together: &Together) -> Option<u64> {
    let mut rest = effect.needed_before(mask)?;
    for need in needs {
        if need.word == mask.word {
            if rest & need.care & (need.value ^ mask.value) != 0 {
                return None;
            }
            rest &= !need.care;
        }
    }
    for need in needs {
        let excluded = excluded_by(need, mask.word, together);
        if rest & excluded & mask.value != 0 {
            return None;
        }
        rest &= !excluded;
    }
    Some(rest)
}

/// The atoms of a word that are false where the literals of a mask hold.
fn excluded_by(need: &Mask, word: u32, together: &Together) -> u64 {
    let mut excluded = 0;
    let mut bits = need.value;
    for _ in 0..64 {
        if bits == 0 {
            return excluded;
        }
        let bit = bits.trailing_zeros();
        bits &= bits.wrapping_sub(1);
        excluded |= together.excluded(need.word.saturating_mul(64).saturating_add(bit), word);
    }
    excluded
}

/// The gap that these bits of a mask make, besides another one.
fn widen(gap: Gap, mask: &Mask, bits: u64) -> Gap {
    if bits == 0 {
        return gap;
    }
    if gap != Gap::Nothing || bits & bits.wrapping_sub(1) != 0 {
        return Gap::Wide;
    }
    let bit = bits.trailing_zeros();
    Gap::One(Literal {
        atom: mask.word.saturating_mul(64).saturating_add(bit),
        sign: mask.value & bit_of(bit) != 0,
    })
}

/// The gap between an effect of an action and a cube.
fn gap_of(one: &Move, effect: &Effect, cube: &[Mask], together: &Together) -> Gap {
    let mut gap = Gap::Nothing;
    for mask in cube {
        match needed(mask, effect, sure_masks(&one.needs), together) {
            Some(bits) => gap = widen(gap, mask, bits),
            None => return Gap::Wide,
        }
        if gap == Gap::Wide {
            return gap;
        }
    }
    gap
}

impl Givers {
    /// Adds a step to the lists of the literals that it gives.
    fn add(&mut self, moves: &Moves, number: u32, step: PlanStep) -> Result<(), NoMemory> {
        let Some(effect) = moves.effect(step) else {
            return Ok(());
        };
        effect.list_gifts(number, &mut self.steps)
    }

    /// Adds all steps.
    fn add_all(&mut self, moves: &Moves) -> Result<(), NoMemory> {
        for (number, step) in moves.steps.iter().enumerate() {
            self.add(moves, size(number), *step)?;
        }
        Ok(())
    }

    /// The lists of all steps of a task.
    pub fn new(alloc: Global, task: &Task, moves: &Moves) -> Result<Box<Givers>, NoMemory> {
        let mut givers = Givers {
            together: Together::new(alloc, task, moves)?,
            steps: empty_lists(alloc, moves.atoms.saturating_mul(2))?,
            found: Vec::new(alloc),
            left: MOST_FOR_ALL,
        };
        givers.add_all(moves)?;
        boxed(alloc, givers)
    }

    /// Which atoms may be true together.
    pub fn together(&self) -> &Together {
        &self.together
    }

    /// Adds the steps that give a literal of the mask to those found.
    fn find_mask(&mut self, mask: &Mask) -> Result<(), NoMemory> {
        let mut bits = mask.care;
        for _ in 0..64 {
            if bits == 0 {
                return Ok(());
            }
            let bit = bits.trailing_zeros();
            bits &= bits.wrapping_sub(1);
            let atom = mask.word.saturating_mul(64).saturating_add(bit);
            let sign = mask.value & bit_of(bit) != 0;
            let place = atom.saturating_mul(2).saturating_add(sign as u32);
            if let Some(steps) = self.steps.get(place as usize) {
                self.found.extend_from_slice(steps)?;
            }
        }
        Ok(())
    }

    /// Finds the steps that give a literal of the cube, each once; none if they are too many.
    fn find(&mut self, cube: &[Mask]) -> Result<(), NoMemory> {
        self.found.clear();
        for mask in cube {
            self.find_mask(mask)?;
        }
        self.found.sort()?;
        self.found.dedup();
        let looks = (self.found.len() as u64).saturating_mul(cube.len() as u64);
        if looks > self.left.min(MOST) {
            self.found.clear();
            return Ok(());
        }
        self.left = self.left.saturating_sub(looks);
        Ok(())
    }

    /// Strengthens the actions of the net of which an outcome would lead into the cube but for one literal.
    pub fn bar(&mut self, moves: &Moves, net: &mut Net, cube: &[Mask]) -> Result<(), NoMemory> {
        self.find(cube)?;
        for number in &self.found {
            let step = moves.step(*number);
            let Some(one) = moves.acts.get(step.act as usize) else {
                continue;
            };
            let Some(effect) = one.effects.get(step.outcome as usize) else {
                continue;
            };
            match gap_of(one, effect, cube, &self.together) {
                Gap::Wide => {}
                Gap::Nothing => net.close_act(step.act),
                Gap::One(literal) => net.strengthen(step.act, literal)?,
            }
        }
        Ok(())
    }
}

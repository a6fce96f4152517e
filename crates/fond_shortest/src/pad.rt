//! A cube in the making, around a state, and words that are overwritten.

use fond_covering::regress::regress;
use fond_covering::sketch::outcome_of;
use fond_deadends::cubes::{Masks, masks_of};
use fond_moves::boxes::boxed;
use fond_moves::condition::{Condition, Mask};
use fond_moves::effect::Effect;
use fond_moves::index::{clear_words, copy_words, put_bit, raise_bits, size, word_at};
use fond_moves::moves::Moves;
use fond_moves::part::Part;
use fond_moves::weight::Weights;
use fond_task::plan_step::PlanStep;
use fond_task::task::Task;
use fond_text::fault::NoMemory;
use std::alloc::Global;

/// A state of which all is known, a cube around it, an image of this, a next state, the atoms that are asked for in it, and those that an
/// outcome may change, which are none between two calls.
#[derive(Drop)]
pub(crate) struct Pad {
    pub(crate) whole: Part,
    pub(crate) part: Part,
    pub(crate) image: Part,
    pub(crate) next: Vec<u64>,
    asked: Vec<u64>,
    touched: Vec<u64>,
}

impl Pad {
    /// Words of states of this many atoms and words.
    pub(crate) fn new(alloc: Global, atoms: u32, width: u32) -> Result<Box<Pad>, NoMemory> {
        let mut whole = Part::new(alloc, width)?;
        for atom in 0..atoms {
            put_bit(&mut whole.care, atom, true);
        }
        let part = Part::new(alloc, width)?;
        let image = Part::new(alloc, width)?;
        let next = vec![in alloc; 0; width as usize]?;
        let asked = vec![in alloc; 0; width as usize]?;
        let touched = vec![in alloc; 0; width as usize]?;
        let pad = Pad {
            whole,
            part,
            image,
            next,
            asked,
            touched,
        };
        boxed(alloc, pad)
    }

    /// Begins with a state and a cube in which it lies.
    pub(crate) fn begin(&mut self, state: &[u64], cube: &[Mask]) {
        copy_words(&mut self.whole.value, state);
        self.part.clear();
        for mask in cube {
            self.part.put_bits(mask.word, mask.care, mask.value);
        }
    }

    /// Makes the next state the one after a step from the state.
    pub(crate) fn step(&mut self, moves: &Moves, step: PlanStep) {
        moves.apply(step, &self.whole.value, &mut self.next);
    }

    /// Makes the image that of the cube under an effect.
    pub(crate) fn enter(&mut self, effect: &Effect) {
        effect.image(&self.part, &mut self.image);
    }

    /// Adds why a condition is false in the state.
    pub(crate) fn refute(&mut self, needs: &Condition, weights: &Weights) {
        needs.refute(&self.whole, weights, &mut self.part);
    }

    /// Adds what has to be known before a step, which leads from the state to the next one, for the literals of a cube to hold after it.
    pub(crate) fn ask(&mut self, t: &Task, step: PlanStep, cube: &[Mask]) {
        clear_words(&mut self.asked);
        for mask in cube {
            raise_bits(&mut self.asked, mask.word, mask.care);
        }
        if let Some(outcome) = outcome_of(t, step) {
            regress(
                outcome,
                &self.whole.value,
                &self.next,
                &self.asked,
                &mut self.touched,
                &mut self.part.care,
            );
        }
        self.settle();
    }

    /// Gives the known atoms of the cube their values in the state.
    pub(crate) fn settle(&mut self) {
        for (i, value) in self.part.value.iter_mut().enumerate() {
            let word = size(i);
            *value = word_at(&self.whole.value, word) & word_at(&self.part.care, word);
        }
    }

    /// The cube.
    pub(crate) fn cube(&self, alloc: Global) -> Result<Masks, NoMemory> {
        masks_of(alloc, &self.part)
    }
}

//! The local aim of a search. A state without a rule that an action leads to is often near to the rule of the action, or to
//! one of its targets, while the goal is far: a plan that ends in one of these needs few new rules.

use fond_moves::boxes::boxed;
use fond_moves::index::copy_words;
use fond_text::fault::NoMemory;
use std::alloc::Global;

/// What is known of an aim.
#[derive(Clone, Copy, PartialEq, Eq)]
enum Stage {
    /// There is none.
    Nowhere,
    /// A state was left, and it is not known yet for which one.
    Left,
    /// The state from which searches aim at the rules around the one that was left is known too.
    Entered,
}

/// The state that was left, and the one that it was left for.
#[derive(Drop)]
pub(crate) struct Aim {
    pub(crate) left: Vec<u64>,
    entered: Vec<u64>,
    stage: Stage,
}

impl Aim {
    /// No aim.
    pub(crate) fn new(alloc: Global, width: u32) -> Result<Box<Aim>, NoMemory> {
        let left = vec![in alloc; 0; width as usize]?;
        let entered = vec![in alloc; 0; width as usize]?;
        boxed(
            alloc,
            Aim {
                left,
                entered,
                stage: Stage::Nowhere,
            },
        )
    }

    /// Forgets the aim.
    pub(crate) fn forget(&mut self) {
        self.stage = Stage::Nowhere;
    }

    /// A state is left for the one from which the next search begins.
    pub(crate) fn leave(&mut self, state: &[u64]) {
        copy_words(&mut self.left, state);
        self.stage = Stage::Left;
    }

    /// Whether a search from the state has an aim: it is the one that was entered.
    pub(crate) fn enter(&mut self, state: &[u64]) -> bool {
        if self.stage == Stage::Left {
            copy_words(&mut self.entered, state);
            self.stage = Stage::Entered;
        }
        self.stage == Stage::Entered && self.entered.as_slice() == state
    }
}

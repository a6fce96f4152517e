//! Keeping equal moves of a state once. A parameter that an action does not use makes one action for each object, and all of
//! them lead to the same states. A table has a slot for each hash of the targets, with the move that was kept last; what it
//! proposes is compared, so no contract speaks of the table, and it is not cleared between states.

ghost use Rattle.fond_explicit.specs.Openings.{IsMoveKept};
ghost use Rattle.std.specs.Prelude.{OnOk};

use fond_fixpoint::moves::Moves;
use fond_text::fault::NoMemory;
use std::alloc::Global;

/// The number of slots, a power of two.
const SLOTS: usize = 4096;

/// For each slot the number of the last move that was kept with this hash, or 0 if there is none.
#[derive(Drop)]
pub(crate) struct Recent {
    slots: Vec<u32>,
}

/// The slot of a move: the first bits of a hash. Takes a few steps for each target, far fewer than it took to find its state.
fn slot_of(unfair: bool, targets: &[u32]) -> usize {
    let mut hash = unfair as u64;
    for target in targets {
        hash = (hash.rotate_left(5) ^ *target as u64).wrapping_mul(0x517c_c1b7_2722_0a95);
    }
    (hash >> 52) as usize
}

impl Recent {
    /// No moves.
    pub(crate) fn new(alloc: Global) -> Result<Recent, NoMemory> {
        Ok(Recent {
            slots: vec![in alloc; 0; SLOTS]?,
        })
    }

    /// Adds a move, unless the table has one that differs from it only in the action, which then stays. Takes time in the
    /// number of targets, and no memory but that of the move.
    pub(crate) fn keep(
        &mut self,
        moves: &mut Moves,
        source: u32,
        act: u32,
        unfair: bool,
        targets: &[u32],
    ) -> Result<(), NoMemory>
        ensures { OnOk result (IsMoveKept moves.old moves.new (record { source = source; act = act; unfair = unfair; targets = targets.now })) }
    {
        let slot = slot_of(unfair, targets);
        if let Some(number) = self.slots.get(slot) {
            if moves.is_like(*number, source, unfair, targets) {
                return Ok(());
            }
        }
        let number = moves.len();
        moves.push(source, act, unfair, targets)?;
        if let Some(entry) = self.slots.get_mut(slot) {
            *entry = number;
        }
        Ok(())
    }
}

//! The moves that lead to each node, in flat lists.

ghost use Rattle.std.specs.Prelude.{◌≡◌, length};

use crate::moves::Moves;
use fond_text::fault::NoMemory;
use std::alloc::Global;

/// For each node, the numbers of the moves of which it is a target, as often as it is one. They only guide the search for
/// ranks: what is found is tested, so no clause says that they are all there. The numbers of a node are a range of the list of
/// all numbers, which ends where that of the next node begins.
#[derive(Drop)]
pub struct Preds {
    starts: Vec<u32>,
    numbers: Vec<u32>,
}

/// Counts the targets of a move, each at its node.
fn count(counts: &mut [u32], targets: &[u32]) {
    for node in targets {
        if let Some(count) = counts.get_mut(*node as usize) {
            *count = count.saturating_add(1);
        }
    }
}

/// Makes the count of each node the end of its range. Returns the end of the last one.
fn add_up(counts: &mut [u32]) -> u32 {
    let mut end = 0u32;
    for count in counts.iter_mut() {
        end = end.saturating_add(*count);
        *count = end;
    }
    end
}

/// Puts the number of a move at the front of what is filled of the range of each of its targets.
fn enter(starts: &mut [u32], numbers: &mut [u32], targets: &[u32], number: u32) {
    for node in targets {
        if let Some(start) = starts.get_mut(*node as usize) {
            *start = start.saturating_sub(1);
            if let Some(place) = numbers.get_mut(*start as usize) {
                *place = number;
            }
        }
    }
}

impl Preds {
    /// The numbers for this many nodes. Takes time in the number of nodes and of targets, and 4 bytes for each of them.
    pub fn of(alloc: Global, nodes: usize, moves: &Moves) -> Result<Preds, NoMemory> {
        let mut starts = vec![in alloc; 0; nodes.saturating_add(1)]?;
        for number in 0..moves.len() {
            count(&mut starts, moves.targets(number));
        }
        let mut numbers = vec![in alloc; 0; add_up(&mut starts) as usize]?;
        for number in (0..moves.len()).rev() {
            enter(&mut starts, &mut numbers, moves.targets(number), number);
        }
        Ok(Preds { starts, numbers })
    }

    /// The moves that lead to a node. A node past the last one has none.
    pub fn get(&self, node: u32) -> &[u32] {
        let node = node as usize;
        match (self.starts.get(node), self.starts.get(node + 1)) {
            (Some(start), Some(end)) => self
                .numbers
                .get(*start as usize..*end as usize)
                .unwrap_or(&[]),
            _ => &[],
        }
    }
}

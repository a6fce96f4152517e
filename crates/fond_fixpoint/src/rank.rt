//! The ranks of a round: the search from the goals backwards over the moves.

ghost use Rattle.fond_fixpoint.specs.Fates.{fate_of, is_open, wins, AreWithin};
ghost use Rattle.fond_fixpoint.specs.Moves.{move_at};
ghost use Rattle.fond_fixpoint.specs.Rounds.{IsRound, IsSearch, IsSpent};
ghost use Rattle.std.specs.Prelude.{◌≡◌, ◌+◌, ◌<◌, ◌≤◌, ◌^◌, ℕ, List, Bool, true, length, IsTrue, OnOk, IfOk, vec_len};

use crate::earn::{are_kept, first_winner, may_rank};
use crate::fate::Fate;
use crate::moves::Moves;
use crate::preds::Preds;
use fond_text::fault::NoMemory;
use std::alloc::Global;

/// Ranks the source of a move that wins above all nodes that have a rank, and puts it into the queue.
fn rank(
    moves: &Moves,
    fates: &mut [Fate],
    queue: &mut Vec<u32>,
    number: u32,
) -> Result<(), NoMemory>
    requires there { number < length moves.now }
    requires within { AreWithin (length fates.old) moves.now }
    requires open { is_open (fate_of fates.old (move_at moves.now number).source) ≡ true }
    requires wins { wins fates.old (move_at moves.now number) ≡ true }
    ensures search { OnOk result (IsSearch moves.now fates.old fates.new (vec_len queue.old) (vec_len queue.new)) }
    ensures longer { OnOk result (vec_len queue.new ≡ vec_len queue.old + 1) }
{
    let rank = queue.len() as u64 + 1;
    let node = moves.source(number);
    queue.push(node)?;
    fates[node as usize] = Fate::Ranked { rank, by: number };
    Ok(())
}

/// Counts one target of a move as won. Whether it was the last for which the move waits.
fn count_down(need: &mut [u32], number: u32) -> bool
    ensures { IsTrue result → number < length need.old }
{
    match need.get_mut(number as usize) {
        Some(left) if *left > 0 => {
            *left -= 1;
            *left == 0
        }
        _ => false,
    }
}

/// Counts one target of a move as won, and ranks its source if the move wins now.
fn meet(
    moves: &Moves,
    fates: &mut [Fate],
    queue: &mut Vec<u32>,
    need: &mut [u32],
    number: u32,
) -> Result<(), NoMemory>
    requires needs { length need.old ≡ length moves.now }
    requires within { AreWithin (length fates.old) moves.now }
    ensures { OnOk result (IsSearch moves.now fates.old fates.new (vec_len queue.old) (vec_len queue.new)) }
{
    if count_down(need, number) && may_rank(moves, fates, number) {
        rank(moves, fates, queue, number)?;
    }
    Ok(())
}

/// Counts a node as won for each of these moves, and ranks the sources of those that win now.
fn meet_all(
    moves: &Moves,
    fates: &mut [Fate],
    queue: &mut Vec<u32>,
    need: &mut [u32],
    numbers: &[u32],
) -> Result<(), NoMemory>
    requires needs { length need.old ≡ length moves.now }
    requires within { AreWithin (length fates.old) moves.now }
    ensures { OnOk result (IsSearch moves.now fates.old fates.new (vec_len queue.old) (vec_len queue.new)) }
{
    for number in numbers {
        meet(moves, fates, queue, need, *number)?;
    }
    Ok(())
}

/// Counts the nodes of the queue from an index on as won, those too that are put into it meanwhile. Takes time in the
/// number of moves that lead to them and of the targets of those that win.
fn spread(
    moves: &Moves,
    preds: &Preds,
    fates: &mut [Fate],
    queue: &mut Vec<u32>,
    need: &mut [u32],
    from: usize,
) -> Result<(), NoMemory>
    requires needs { length need.old ≡ length moves.now }
    requires within { AreWithin (length fates.old) moves.now }
    requires from { from ≤ vec_len queue.old }
    ensures { OnOk result (IsSearch moves.now fates.old fates.new (vec_len queue.old) (vec_len queue.new)) }
{
    let mut head = from;
    while head < queue.len() {
        let node = queue[head];
        head += 1;
        meet_all(moves, fates, queue, need, preds.get(node))?;
    }
    Ok(())
}

/// The goals.
fn goal_nodes(alloc: Global, fates: &[Fate]) -> Result<Vec<u32>, NoMemory>
    requires { length fates.now < 2 ^ 32 }
{
    let mut nodes = Vec::new(alloc);
    for (node, fate) in fates.iter().enumerate() {
        if *fate == Fate::Goal {
            nodes.push(node as u32)?;
        }
    }
    Ok(nodes)
}

/// How many targets have to be won before a move with these targets wins: each one if it is unfair, one if it is fair and
/// no target has fallen, and more than there are if one has.
fn needed(fates: &[Fate], is_unfair: bool, targets: &[u32]) -> u32 {
    if is_unfair {
        targets.len().min(u32::MAX as usize) as u32
    } else if are_kept(fates, targets) {
        1
    } else {
        u32::MAX
    }
}

/// For each move how many targets have to be won before it wins.
fn needs(alloc: Global, moves: &Moves, fates: &[Fate]) -> Result<Vec<u32>, NoMemory>
    ensures { IfOk result (λ need. vec_len need ≡ length moves.now) }
{
    let mut need = Vec::new(alloc);
    for number in 0..moves.len() {
        need.push(needed(fates, moves.is_unfair(number), moves.targets(number)))?;
    }
    Ok(need)
}

/// Ranks all nodes that can be ranked in a round. Counters tell when a move may win, so that each of its targets is looked
/// at a few times; the search ends only when no move out of an open node wins. Takes time in the number of nodes and of
/// the targets of all moves.
pub(crate) fn rank_all(
    alloc: Global,
    moves: &Moves,
    preds: &Preds,
    fates: &mut [Fate],
) -> Result<(), NoMemory>
    requires few { length fates.old < 2 ^ 32 }
    requires within { AreWithin (length fates.old) moves.now }
    ensures keeps { OnOk result ((goals : List Bool) (round : ℕ) → IsRound goals moves.now round 1 fates.old → (bound : ℕ) × IsRound goals moves.now round bound fates.new) }
    ensures spent { OnOk result (IsSpent moves.now fates.new) }
{
    let mut queue = goal_nodes(alloc, fates)?;
    let mut need = needs(alloc, moves, fates)?;
    spread(moves, preds, fates, &mut queue, &mut need, 0)?;
    'winners: while let Some(number) = first_winner(moves, fates) {
        let head = queue.len();
        rank(moves, fates, &mut queue, number)?;
        spread(moves, preds, fates, &mut queue, &mut need, head)?;
    }
    Ok(())
}

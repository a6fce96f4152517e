//! Nodes that fall in later rounds without a search for ranks: those all of whose moves lead to nodes that fell before.
//!
//! In a chain in which each node falls because of the next one, this takes the time of one round in place of one for each
//! node. What falls is proposed by counters, and is kept only if a test over all nodes and moves finds it right.

ghost use Rattle.fond_fixpoint.specs.Cascades.{is_ruined, IsSettledMore, AreRuined, IsCascade};
ghost use Rattle.fond_fixpoint.specs.Fates.{fate_of};
ghost use Rattle.fond_fixpoint.specs.Moves.{move_at};
ghost use Rattle.fond_fixpoint.specs.Rounds.{IsRound};
ghost use Rattle.fond_fixpoint.specs.declared.fate.Fate.TheVariants.{Fallen};
ghost use Rattle.std.specs.Prelude.{◌≡◌, ◌<◌, ◌≤◌, ◌^◌, ℕ, List, Bool, true, length, IsTrue, IfOk};

use crate::fate::{Fate, fate_of, fell_before, is_kept, is_open};
use crate::moves::Moves;
use crate::preds::Preds;
use fond_text::fault::NoMemory;
use std::alloc::Global;

/// For each move whether it is ruined, and for each node how many moves out of it are not.
#[derive(Drop)]
struct Ruins {
    ruined: Vec<bool>,
    live: Vec<u32>,
}

/// Whether some target of the move fell before this round.
fn is_ruined(moves: &Moves, fates: &[Fate], number: u32, round: u32) -> bool
    requires { number < length moves.now }
    ensures { result ≡ is_ruined round fates.now (move_at moves.now number) }
{
    moves
        .targets(number)
        .iter()
        .any(|node| fell_before(fate_of(fates, *node), round))
}

/// Counts a move out of a node.
fn count_up(live: &mut [u32], node: u32) {
    match live.get_mut(node as usize) {
        Some(count) => *count = count.saturating_add(1),
        None => {}
    }
}

/// Counts a move out of a node as ruined. Whether it was the last one that was not.
fn count_off(live: &mut [u32], node: u32) -> bool {
    match live.get_mut(node as usize) {
        Some(count) if *count > 0 => {
            *count -= 1;
            *count == 0
        }
        _ => false,
    }
}

/// The moves that are ruined before this round.
fn first_ruins(
    alloc: Global,
    moves: &Moves,
    fates: &[Fate],
    round: u32,
) -> Result<Ruins, NoMemory> {
    let mut ruined = Vec::new(alloc);
    let mut live = vec![in alloc; 0; fates.len()]?;
    for number in 0..moves.len() {
        let is_over = is_ruined(moves, fates, number, round);
        if !is_over {
            count_up(&mut live, moves.source(number));
        }
        ruined.push(is_over)?;
    }
    Ok(Ruins { ruined, live })
}

/// The open nodes without a move that is not ruined.
fn stranded(alloc: Global, fates: &[Fate], live: &[u32]) -> Result<Vec<u32>, NoMemory>
    requires { length fates.now < 2 ^ 32 }
{
    let mut nodes = Vec::new(alloc);
    for (node, fate) in fates.iter().enumerate() {
        if is_open(*fate) && live.get(node) == Some(&0) {
            nodes.push(node as u32)?;
        }
    }
    Ok(nodes)
}

/// Marks a move as ruined. If it was the last one out of an open node that was not, the node is put into the list.
fn ruin(
    moves: &Moves,
    fates: &[Fate],
    ruins: &mut Ruins,
    number: u32,
    next: &mut Vec<u32>,
) -> Result<(), NoMemory> {
    if number >= moves.len() || ruins.ruined.get(number as usize) != Some(&false) {
        return Ok(());
    }
    ruins.ruined[number as usize] = true;
    let source = moves.source(number);
    if count_off(&mut ruins.live, source) && is_open(fate_of(fates, source)) {
        next.push(source)?;
    }
    Ok(())
}

/// Marks the moves that lead to a node as ruined.
fn ruin_all(
    moves: &Moves,
    fates: &[Fate],
    ruins: &mut Ruins,
    numbers: &[u32],
    next: &mut Vec<u32>,
) -> Result<(), NoMemory> {
    for number in numbers {
        ruin(moves, fates, ruins, *number, next)?;
    }
    Ok(())
}

/// Lets nodes fall in a round, and finds those that fall in the next one.
fn fall(
    alloc: Global,
    moves: &Moves,
    preds: &Preds,
    fates: &mut [Fate],
    ruins: &mut Ruins,
    nodes: &[u32],
    round: u32,
) -> Result<Vec<u32>, NoMemory> {
    let mut next = Vec::new(alloc);
    for node in nodes {
        if let Some(fate) = fates.get_mut(*node as usize) {
            *fate = Fate::Fallen(round);
        }
        ruin_all(moves, fates, ruins, preds.get(*node), &mut next)?;
    }
    Ok(next)
}

/// Lets nodes fall, round after round, as long as there are some all of whose moves are ruined. Returns the round after the
/// last one.
fn propose(
    alloc: Global,
    moves: &Moves,
    preds: &Preds,
    fates: &mut [Fate],
    round: u32,
) -> Result<u32, NoMemory>
    requires { length fates.old < 2 ^ 32 }
{
    let mut ruins = first_ruins(alloc, moves, fates, round)?;
    let mut nodes = stranded(alloc, fates, &ruins.live)?;
    let mut after = round;
    for _ in 0..fates.len() {
        if nodes.is_empty() || after == u32::MAX {
            return Ok(after);
        }
        nodes = fall(alloc, moves, preds, fates, &mut ruins, &nodes, after)?;
        after += 1;
    }
    Ok(after)
}

/// Whether a fate is as it was, or that of an open node that fell from one round to another.
fn is_settled_more(old: Fate, new: Fate, round: u32, after: u32) -> bool
    ensures { IsTrue result → IsSettledMore round after old new }
{
    match (old, new) {
        (Fate::Open, Fate::Fallen(fell)) => round <= fell && fell < after,
        _ => old == new,
    }
}

/// Whether each fate is as it was, or that of an open node that fell from one round to another.
fn are_settled_more(old: &[Fate], new: &[Fate], round: u32, after: u32) -> bool
    requires { length new.now ≡ length old.now }
    ensures { IsTrue result → (node : ℕ) → node < length old.now → IsSettledMore round after (fate_of old.now node) (fate_of new.now node) }
{
    for node in 0..old.len() {
        if !is_settled_more(old[node], new[node], round, after) {
            return false;
        }
    }
    true
}

/// Whether a move was ruined before its source fell, if that was in this round or later.
fn was_ruined(moves: &Moves, fates: &[Fate], number: u32, round: u32) -> bool
    requires { number < length moves.now }
    ensures { IsTrue result → (fell : ℕ) → fate_of fates.now (move_at moves.now number).source ≡ Fallen fell → round ≤ fell → is_ruined fell fates.now (move_at moves.now number) ≡ true }
{
    match fate_of(fates, moves.source(number)) {
        Fate::Fallen(fell) => fell < round || is_ruined(moves, fates, number, fell),
        _ => true,
    }
}

/// Whether each move out of a node that fell in this round or later was ruined before.
fn were_ruined(moves: &Moves, fates: &[Fate], round: u32) -> bool
    ensures { IsTrue result → AreRuined moves.now round fates.now }
{
    for number in 0..moves.len() {
        if !was_ruined(moves, fates, number, round) {
            return false;
        }
    }
    true
}

/// Whether nodes fell rightly from one round to another, and no more rounds are counted than nodes fell.
fn is_cascade(moves: &Moves, old: &[Fate], new: &[Fate], round: u32, after: u32) -> bool
    ensures { IsTrue result → IsCascade moves.now round after old.now new.now }
{
    if new.len() != old.len() || after < round {
        return false;
    }
    let kept = new.iter().filter(|fate| is_kept(**fate)).count();
    if after as usize > old.len() || kept > old.len() - after as usize {
        return false;
    }
    are_settled_more(old, new, round, after) && were_ruined(moves, new, round)
}

/// Lets nodes fall in this round and later ones as long as there are some all of whose moves are ruined. Returns the next
/// round. Takes time in the number of nodes and of the targets of all moves.
pub(crate) fn cascade(
    alloc: Global,
    moves: &Moves,
    preds: &Preds,
    fates: &mut [Fate],
    round: u32,
) -> Result<u32, NoMemory>
    requires { length fates.old < 2 ^ 32 }
    ensures later { IfOk result (λ after. round ≤ after) }
    ensures keeps { IfOk result (λ after. (goals : List Bool) → IsRound goals moves.now round 0 fates.old → IsRound goals moves.now after 0 fates.new) }
{
    let mut proposed = Vec::from_slice(alloc, fates)?;
    let after = propose(alloc, moves, preds, &mut proposed, round)?;
    if !is_cascade(moves, fates, &proposed, round, after) {
        return Ok(round);
    }
    fates.copy_from_slice(&proposed);
    Ok(after)
}

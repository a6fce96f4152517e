//! The nested fixpoint over a graph: rounds of ranks and falls.
//!
//! In each round the nodes that have not fallen are ranked backwards from the goals, and those that get no rank fall.
//! Nodes that fall only because of these fall in rounds of their own, without a new search for ranks. The search ends when
//! all are ranked. It is the algorithm for strong cyclic planning of Cimatti, Pistore, Roveri and
//! Traverso (2003), with moves whose outcome an opponent picks, and it keeps in which round a node fell.

ghost use Rattle.fond_fixpoint.specs.Fates.{is_open, AreSettled, AreWithin};
ghost use Rattle.fond_fixpoint.specs.Rounds.{dropped, IsRound};
ghost use Rattle.fond_fixpoint.specs.Begun.{begun};
ghost use Rattle.std.specs.List.{list_any};
ghost use Rattle.std.specs.Prelude.{◌≡◌, ◌<◌, ◌^◌, length, map, IfOk, OnOk};

use crate::cascade::cascade;
use crate::fate::{Fate, is_open};
use crate::moves::Moves;
use crate::preds::Preds;
use crate::rank::rank_all;
use fond_text::fault::NoMemory;
use std::alloc::Global;

/// The fate of a node at the beginning.
fn begun(is_goal: bool) -> Fate
    ensures { result ≡ begun is_goal }
{
    if is_goal { Fate::Goal } else { Fate::Open }
}

/// The fate of a node after a round.
fn dropped(fate: Fate, round: u32) -> Fate
    ensures { result ≡ dropped round fate }
{
    match fate {
        Fate::Open => Fate::Fallen(round),
        Fate::Goal => Fate::Goal,
        Fate::Ranked { .. } => Fate::Open,
        Fate::Fallen(before) => Fate::Fallen(before),
    }
}

/// Ends a round: what is open falls, and what has a rank is open again.
fn drop_open(fates: &mut [Fate], round: u32)
    ensures { fates.new ≡ map (dropped round) fates.old }
{
    for fate in fates.iter_mut() {
        *fate = dropped(*fate, round);
    }
}

/// Whether some node is open.
fn has_open(fates: &[Fate]) -> bool
    ensures { result ≡ list_any is_open fates.now }
{
    fates.iter().any(|fate| is_open(*fate))
}

/// Makes fates settled, round by round.
fn settle_all(
    alloc: Global,
    goals: &[bool],
    moves: &Moves,
    preds: &Preds,
    fates: &mut [Fate],
) -> Result<(), NoMemory>
    requires few { length goals.now < 2 ^ 32 }
    requires within { AreWithin (length goals.now) moves.now }
    requires begun { IsRound goals.now moves.now 0 1 fates.old }
    ensures { OnOk result (AreSettled goals.now moves.now fates.new) }
{
    let mut round = 0;
    rank_all(alloc, moves, preds, fates)?;
    'rounds: while has_open(fates) {
        drop_open(fates, round);
        round = cascade(alloc, moves, preds, fates, round + 1)?;
        rank_all(alloc, moves, preds, fates)?;
    }
    Ok(())
}

/// The fates of the nodes of a graph. `goals` says for each node whether it is a goal. Takes, for each time that ranks are
/// searched for, time in the number of nodes and of the targets of all moves.
pub fn settle(
    alloc: Global,
    goals: &[bool],
    moves: &Moves,
    preds: &Preds,
) -> Result<Vec<Fate>, NoMemory>
    requires few { length goals.now < 2 ^ 32 }
    requires within { AreWithin (length goals.now) moves.now }
    ensures { IfOk result (λ fates. AreSettled goals.now moves.now fates.items) }
{
    let mut fates: Vec<Fate> = goals.iter().map(|is_goal| begun(*is_goal)).collect(alloc)?;
    settle_all(alloc, goals, moves, preds, &mut fates)?;
    Ok(fates)
}

//! Whether moves win.

ghost use Rattle.fond_fixpoint.specs.Fates.{fate_of, is_kept, is_open, is_won, wins};
ghost use Rattle.fond_fixpoint.specs.Moves.{move_at};
ghost use Rattle.fond_fixpoint.specs.Rounds.{IsSpent};
ghost use Rattle.std.specs.Prelude.{◌≡◌, ◌<◌, ℕ, true, ◌&&◌, length, IfNone, IfSome};
ghost use Rattle.std.specs.List.{list_all, list_any};

use crate::fate::{Fate, fate_of, is_kept, is_open, is_won};
use crate::moves::Moves;

/// Whether all these nodes are won.
fn are_won(fates: &[Fate], nodes: &[u32]) -> bool
    ensures { result ≡ list_all (λ node. is_won (fate_of fates.now node)) nodes.now }
{
    nodes.iter().all(|node| is_won(fate_of(fates, *node)))
}

/// Whether some of these nodes is won.
fn has_won(fates: &[Fate], nodes: &[u32]) -> bool
    ensures { result ≡ list_any (λ node. is_won (fate_of fates.now node)) nodes.now }
{
    nodes.iter().any(|node| is_won(fate_of(fates, *node)))
}

/// Whether none of these nodes has fallen.
pub(crate) fn are_kept(fates: &[Fate], nodes: &[u32]) -> bool
    ensures { result ≡ list_all (λ node. is_kept (fate_of fates.now node)) nodes.now }
{
    nodes.iter().all(|node| is_kept(fate_of(fates, *node)))
}

/// Whether none of these nodes has fallen and some is won.
fn may_win(fates: &[Fate], nodes: &[u32]) -> bool
    ensures { result ≡ (list_all (λ node. is_kept (fate_of fates.now node)) nodes.now && list_any (λ node. is_won (fate_of fates.now node)) nodes.now) }
{
    are_kept(fates, nodes) && has_won(fates, nodes)
}

/// Whether the move of this number wins. Takes time in the number of its targets.
pub(crate) fn wins(moves: &Moves, fates: &[Fate], number: u32) -> bool
    requires { number < length moves.now }
    ensures { result ≡ wins fates.now (move_at moves.now number) }
{
    let targets = moves.targets(number);
    if moves.is_unfair(number) {
        are_won(fates, targets)
    } else {
        may_win(fates, targets)
    }
}

/// Whether the move of this number wins and its source is open.
pub(crate) fn may_rank(moves: &Moves, fates: &[Fate], number: u32) -> bool
    requires { number < length moves.now }
    ensures { result ≡ (is_open (fate_of fates.now (move_at moves.now number).source) && wins fates.now (move_at moves.now number)) }
{
    is_open(fate_of(fates, moves.source(number))) && wins(moves, fates, number)
}

/// The number of the first move that wins and whose source is open, if there is one. Takes time in the number of targets
/// of all moves.
pub(crate) fn first_winner(moves: &Moves, fates: &[Fate]) -> Option<u32>
    ensures there { IfSome result (λ number. number < length moves.now) }
    ensures open { IfSome result (λ number. is_open (fate_of fates.now (move_at moves.now number).source) ≡ true) }
    ensures wins { IfSome result (λ number. wins fates.now (move_at moves.now number) ≡ true) }
    ensures spent { IfNone result (IsSpent moves.now fates.now) }
{
    for number in 0..moves.len() {
        if may_rank(moves, fates, number) {
            return Some(number);
        }
    }
    None
}

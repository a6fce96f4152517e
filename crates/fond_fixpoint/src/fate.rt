//! The fates of nodes.

ghost use Rattle.fond_fixpoint.specs.Fates.{fate_of, is_open, is_won, is_kept, fell_before};
ghost use Rattle.std.specs.Prelude.{◌≡◌};

/// What becomes of a node: it is not decided yet, or a goal, or won with a rank by the move of a number, or lost since a
/// round.
#[derive(Clone, Copy, PartialEq, Eq)]
pub enum Fate {
    Open,
    Goal,
    Ranked { rank: u64, by: u32 },
    Fallen(u32),
}

/// Whether the fate is not decided yet.
pub(crate) fn is_open(fate: Fate) -> bool
    ensures { result ≡ is_open fate }
{
    match fate {
        Fate::Open => true,
        _ => false,
    }
}

/// Whether the fate is that of a goal or of a node with a rank.
pub(crate) fn is_won(fate: Fate) -> bool
    ensures { result ≡ is_won fate }
{
    match fate {
        Fate::Goal | Fate::Ranked { .. } => true,
        _ => false,
    }
}

/// Whether the fate is that of a node that has not fallen.
pub fn is_kept(fate: Fate) -> bool
    ensures { result ≡ is_kept fate }
{
    match fate {
        Fate::Fallen(_) => false,
        _ => true,
    }
}

/// Whether the fate is that of a node that fell before a round.
pub(crate) fn fell_before(fate: Fate, round: u32) -> bool
    ensures { result ≡ fell_before round fate }
{
    match fate {
        Fate::Fallen(fell) => fell < round,
        _ => false,
    }
}

/// The fate of a node. A node past the last one is open.
pub fn fate_of(fates: &[Fate], node: u32) -> Fate
    ensures { result ≡ fate_of fates.now node }
{
    match fates.get(node as usize) {
        Some(fate) => *fate,
        None => Fate::Open,
    }
}

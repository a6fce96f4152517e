//! The choices of the states that have a rank.

ghost use Rattle.fond_fixpoint.specs.Fates.{RanksHold};
ghost use Rattle.fond_explicit.specs.Spaces.{AreRanks};
ghost use Rattle.fond_text.specs.Lists.{AreDistinct};
ghost use Rattle.std.specs.Prelude.{◌≡◌, ◌<◌, ◌+◌, length, IfOk, OnOk};

use crate::answer::{Choices, Pick};
use fond_fixpoint::fate::{Fate, fate_of};
use fond_fixpoint::moves::Moves;
use fond_store::store::Store;
use fond_text::fault::NoMemory;
use std::alloc::Global;

/// Adds the choice of the state of a node, if it has a rank.
fn choose_at(
    alloc: Global,
    states: &Store,
    moves: &Moves,
    fates: &[Fate],
    node: u32,
    choices: &mut Choices,
) -> Result<(), NoMemory>
    requires there { node < length states.now }
    requires distinct { AreDistinct states.now }
    requires ranks { RanksHold moves.now fates.now }
    ensures { OnOk result (AreRanks states.now moves.now fates.now node choices.old → AreRanks states.now moves.now fates.now (node + 1) choices.new) }
{
    let Fate::Ranked { rank, by } = fate_of(fates, node) else {
        return Ok(());
    };
    let state = states.get(node).copy(alloc)?;
    let act = moves.act(by);
    choices.push(Pick { state, act, rank })?;
    Ok(())
}

/// A choice for each state whose node has a rank: the action of the move that earned it. Takes time and memory in the
/// number of these states times that of the atoms.
pub(crate) fn choose(
    alloc: Global,
    states: &Store,
    moves: &Moves,
    fates: &[Fate],
) -> Result<Choices, NoMemory>
    requires distinct { AreDistinct states.now }
    requires ranks { RanksHold moves.now fates.now }
    ensures { IfOk result (AreRanks states.now moves.now fates.now (length states.now)) }
{
    let mut choices = Choices::new(alloc);
    for node in 0..states.len() {
        choose_at(alloc, states, moves, fates, node, &mut choices)?;
    }
    Ok(choices)
}

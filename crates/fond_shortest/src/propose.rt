//! Proposals of certificates of least rank. Nothing is claimed of them.

ghost use Rattle.std.specs.Prelude.{◌≡◌, length};

use crate::board::{Board, Side};
use crate::far::Far;
use crate::making::rules_from;
use crate::needed::Needed;
use crate::pile::Pile;
use crate::ranks::ranks_of;
use fond_best::belongs::do_rules_belong;
use fond_check::parts::first_bad_rule;
use fond_covering::cover::{cover_by_states, find_cover};
use fond_covering::covering::Covering;
use fond_covering::sketch::{cube_of, read};
use fond_deadends::cubes::{CubeSet, masks_of};
use fond_explicit::answer::Choices;
use fond_layers::layers::{Layer, Layers};
use fond_moves::condition::Mask;
use fond_moves::index::size;
use fond_moves::part::Part;
use fond_policy::best::BestCert;
use fond_rules::pad::Pad;
use fond_rules::pairs::Pairs;
use fond_rules::rules::Rules;
use fond_state::cube::Cube;
use fond_task::task::Task;
use fond_text::fault::NoMemory;
use std::alloc::Global;

/// Why no solution has a smaller rank: layers, and far lists beyond these.
#[derive(Drop)]
pub(crate) struct Bounds {
    pub(crate) layers: Layers,
    pub(crate) far: Layers,
}

/// A proposal, or the bounds alone if there is none.
#[derive(Drop)]
pub(crate) enum Proposal {
    Cert(BestCert),
    Nothing(Bounds),
}

/// On which side the initial state is.
fn first_side(alloc: Global, t: &Task, board: &Board) -> Result<Side, NoMemory> {
    let mut words = vec![in alloc; 0; board.moves.width as usize]?;
    read(&mut words, &t.init);
    Ok(board.side(&words))
}

/// Adds the cubes of a layer to a set.
fn add_layer(
    alloc: Global,
    set: &mut CubeSet,
    layer: &Layer,
    part: &mut Part,
) -> Result<(), NoMemory> {
    for cube in layer.as_slice() {
        part.clear();
        for atom in 0..size(cube.len()) {
            part.set(atom, cube.literal(atom));
        }
        set.add(masks_of(alloc, part)?)?;
    }
    Ok(())
}

/// The cubes of all layers.
fn set_of(alloc: Global, board: &Board, layers: &Layers) -> Result<Box<CubeSet>, NoMemory> {
    let mut set = CubeSet::new(alloc, board.moves.atoms, board.moves.width)?;
    let mut part = Part::new(alloc, board.moves.width)?;
    for number in 0..layers.len() {
        add_layer(alloc, &mut set, layers.get(number), &mut part)?;
    }
    Ok(set)
}

/// The cube with these literals, over as many atoms as there are.
fn cube_by(alloc: Global, board: &Board, masks: &[Mask]) -> Result<Cube, NoMemory> {
    let mut part = Part::new(alloc, board.moves.width)?;
    for mask in masks {
        part.put_bits(mask.word, mask.care, mask.value);
    }
    cube_of(alloc, &part.value, &part.care, board.moves.atoms)
}

/// The cubes of a pile.
fn layer_of(alloc: Global, board: &Board, pile: &Pile) -> Result<Layer, NoMemory> {
    let mut layer = Layer::new(alloc);
    for number in 0..pile.len() {
        layer.push(cube_by(alloc, board, pile.masks(number))?)?;
    }
    Ok(layer)
}

/// The lists of the cubes of piles, which are from the last one to the first.
fn lists_of(alloc: Global, board: &Board, piles: &[Pile]) -> Result<Layers, NoMemory> {
    let mut lists = Layers::new(alloc);
    for pile in piles.iter().rev() {
        let layer = layer_of(alloc, board, pile)?;
        if lists.len() >= u32::MAX - 1 || layer.len() > u32::MAX as usize {
            return Err(NoMemory);
        }
        lists.add_raw(layer)?;
    }
    Ok(lists)
}

/// Proposes why no solution has a smaller rank than the initial state on the board. The layers are those that lost states lie in; they are
/// left out if no far list needs them.
pub(crate) fn bounds_by(
    alloc: Global,
    t: &Task,
    board: &Board,
    layers: Layers,
) -> Result<Bounds, NoMemory> {
    let Side::Won(start) = first_side(alloc, t, board)? else {
        let far = Layers::new(alloc);
        return Ok(Bounds { layers, far });
    };
    let dead = set_of(alloc, board, &layers)?;
    let mut search = Far::new(alloc, t, board, &dead, board.level(start))?;
    if !search.search(alloc, start)? {
        return Err(NoMemory);
    }
    let mut needed = Needed::new(alloc, board, &dead)?;
    let piles = needed.of(alloc, search.piles, board.states.get(start))?;
    let far = lists_of(alloc, board, piles.as_slice())?;
    if needed.uses_layers {
        return Ok(Bounds { layers, far });
    }
    let layers = Layers::new(alloc);
    Ok(Bounds { layers, far })
}

/// Proposes rules of least rank, with short conditions if so wanted.
fn rules_by(
    alloc: Global,
    t: &Task,
    board: &Board,
    choices: &Choices,
    shortens: bool,
) -> Result<Option<Rules>, NoMemory> {
    match first_side(alloc, t, board)? {
        Side::Goal => Ok(Some(Rules::new(alloc))),
        Side::Won(start) => rules_from(alloc, t, board, choices, start, shortens),
        Side::Lost => Ok(None),
    }
}

/// Items that cover what rules reach, if there are some.
fn cover_of(alloc: Global, t: &Task, rules: &Rules) -> Result<Option<Covering>, NoMemory> {
    if !do_rules_belong(t, rules) {
        return Ok(None);
    }
    if let Some(covering) = find_cover(alloc, t, rules)? {
        return Ok(Some(covering));
    }
    let pairs = Pairs::new(alloc);
    let mut pad = Pad::new(alloc, t.atoms.len() as u32)?;
    match first_bad_rule(t, &pairs, rules, &mut pad) {
        Some(_) => Ok(None),
        None => cover_by_states(alloc, t, &pairs, rules),
    }
}

/// Proposes a certificate with these bounds, with short conditions of rules if so wanted.
pub(crate) fn propose(
    alloc: Global,
    t: &Task,
    board: &Board,
    choices: &Choices,
    bounds: Bounds,
    shortens: bool,
) -> Result<Proposal, NoMemory> {
    let Some(rules) = rules_by(alloc, t, board, choices, shortens)? else {
        return Ok(Proposal::Nothing(bounds));
    };
    let Some(covering) = cover_of(alloc, t, &rules)? else {
        return Ok(Proposal::Nothing(bounds));
    };
    let ranks = ranks_of(alloc, t, &rules, &covering.items)?;
    let Bounds { layers, far } = bounds;
    Ok(Proposal::Cert(BestCert {
        layers,
        rules,
        items: covering.items,
        ranks,
        start: covering.start,
        far,
    }))
}

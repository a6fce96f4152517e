//! The levels of a flat game. That of a goal is 1, and that of another node is one more than the least level of its successors if
//! chance picks among them, and than the greatest one if an opponent does. A node from which neither can be led to a goal has none.
//!
//! A breadth-first walk proposes them, and a test of each node tells whether they are right: time proportional to the edges. If they were
//! wrong, they would be found in rounds, a level at a time; no proof says that this does not happen.

ghost use Rattle.fond_games.specs.Levels.{AreLevels, AreLevelsTo, Falls, IsRound, first_level, kind_at, level_at};
ghost use Rattle.fond_games.specs.declared.kind.Kind.{Kind};
ghost use Rattle.std.specs.Prelude.{◌≡◌, ◌<◌, ◌^◌, Bool, true, false, length, map, IfOk, slice_set};

use crate::certified::are_right;
use crate::graph::{level_of, lower, successors, unlowered};
use crate::kind::Kind;
use crate::proposal::proposed;
use fond_text::fault::NoMemory;
use fond_text::list::List;
use std::alloc::Global;

/// Whether a node is no goal and falls below a level.
fn falls(kind: Kind, graph: &List<List<u32>>, table: &[u32], node: u32, level: u32) -> bool
    ensures yes { result ≡ true → Falls kind graph.now table.now level node }
    ensures no { result ≡ false → ¬ Falls kind graph.now table.now level node }
{
    let nexts = successors(graph, node);
    if nexts.is_empty() {
        return false;
    }
    match kind {
        Kind::Goal => false,
        Kind::Fair => lower(nexts, table, level).is_some(),
        Kind::Unfair => unlowered(nexts, table, level).is_none(),
    }
}

/// Gives a node without a level this one if it falls below it. Whether it does.
fn raise_at(
    kinds: &[Kind],
    graph: &List<List<u32>>,
    table: &mut Vec<u32>,
    node: u32,
    level: u32,
) -> bool
    requires there { node < length table.old.items }
    requires known { node < length kinds.now }
    ensures long { length table.new.items ≡ length table.old.items }
    ensures raised { result ≡ true → (level_at table.old.items node ≡ 0) × Falls (kind_at kinds.now node) graph.now table.old.items level node × (table.new.items ≡ slice_set table.old.items node level) }
    ensures kept { result ≡ false → (table.new.items ≡ table.old.items) × (level_at table.old.items node ≡ 0 → ¬ Falls (kind_at kinds.now node) graph.now table.old.items level node) }
{
    if level_of(table, node) > 0 || !falls(kinds[node as usize], graph, table, node, level) {
        return false;
    }
    table[node as usize] = level;
    true
}

/// Gives this level to each node without one that falls below it. Whether there was one.
fn raise(
    kinds: &[Kind],
    graph: &List<List<u32>>,
    table: &mut Vec<u32>,
    level: u32,
    count: u32,
) -> bool
    requires some { 0 < level }
    requires long { length table.old.items ≡ length graph.now }
    requires known { length kinds.now ≡ length graph.now }
    requires counted { count ≡ length graph.now }
    ensures { IsRound kinds.now graph.now level table.old.items table.new.items result (length graph.now) }
{
    let mut is_raised = false;
    for node in 0..count {
        if raise_at(kinds, graph, table, node, level) {
            is_raised = true;
        }
    }
    is_raised
}

/// Completes a table in which the goals alone have a level.
fn fill(kinds: &[Kind], graph: &List<List<u32>>, table: &mut Vec<u32>, count: u32)
    requires few { count < 2 ^ 31 }
    requires counted { count ≡ length graph.now }
    requires known { length kinds.now ≡ length graph.now }
    requires first { AreLevelsTo kinds.now graph.now 1 table.old.items }
    ensures { AreLevels kinds.now graph.now table.new.items }
{
    for round in 0..count + 1 {
        if !raise(kinds, graph, table, round + 2, count) {
            return;
        }
    }
}

/// The levels of goals alone.
fn first_levels(alloc: Global, kinds: &[Kind]) -> Result<Vec<u32>, NoMemory>
    ensures { IfOk result (λ table. table.items ≡ map first_level kinds.now) }
{
    let mut table = Vec::with_capacity(alloc, kinds.len())?;
    for kind in kinds {
        table.push(match kind {
            Kind::Goal => 1,
            Kind::Fair | Kind::Unfair => 0,
        })?;
    }
    Ok(table)
}

/// The levels, found in rounds.
fn in_rounds(alloc: Global, kinds: &[Kind], graph: &List<List<u32>>) -> Result<Vec<u32>, NoMemory>
    requires few { length graph.now < 2 ^ 31 }
    requires known { length kinds.now ≡ length graph.now }
    ensures { IfOk result (λ table. AreLevels kinds.now graph.now table.items) }
{
    let mut table = first_levels(alloc, kinds)?;
    fill(kinds, graph, &mut table, graph.len() as u32);
    Ok(table)
}

/// The level of each node, 0 for those that have none. Takes time and memory in the number of nodes and edges.
pub fn levels(alloc: Global, kinds: &[Kind], graph: &List<List<u32>>) -> Result<Vec<u32>, NoMemory>
    requires few { length graph.now < 2 ^ 31 }
    requires known { length kinds.now ≡ length graph.now }
    ensures { IfOk result (λ table. AreLevels kinds.now graph.now table.items) }
{
    let table = proposed(alloc, kinds, graph, first_levels(alloc, kinds)?)?;
    if are_right(kinds, graph, &table, graph.len() as u32) {
        return Ok(table);
    }
    in_rounds(alloc, kinds, graph)
}

//! The edges along which a play can be kept among the nodes without a level.

ghost use Rattle.fond_games.specs.Keeping.{KeepsEdges, KeptAt, MovesOn};
ghost use Rattle.fond_games.specs.Levels.{AreLevels, kind_at, level_at};
ghost use Rattle.fond_games.specs.declared.kind.Kind.TheVariants.{Unfair};
ghost use Rattle.std.specs.Prelude.{◌≡◌, ◌<◌, ◌^◌, length, IfOk};

use crate::graph::{Graph, level_of, successors, unlevelled};
use crate::kind::Kind;
use fond_text::fault::NoMemory;
use fond_text::list::List;
use std::alloc::Global;

/// An edge to a node without a level.
fn one_of(
    alloc: Global,
    kinds: &[Kind],
    graph: &List<List<u32>>,
    table: &[u32],
    node: u32,
) -> Result<List<u32>, NoMemory>
    requires levels { AreLevels kinds.now graph.now table.now }
    requires moves_on { MovesOn kinds.now graph.now }
    requires open_ { level_at table.now node ≡ 0 }
    requires within { node < length graph.now }
    requires unfair { kind_at kinds.now node ≡ Unfair }
    ensures { IfOk result (KeptAt kinds.now graph.now table.now node) }
{
    let mut one = List::new(alloc);
    if let Some(next) = unlevelled(successors(graph, node), table) {
        one.push(next)?;
    }
    Ok(one)
}

/// The edges that are kept out of a node.
fn kept_at(
    alloc: Global,
    kinds: &[Kind],
    graph: &List<List<u32>>,
    table: &[u32],
    node: u32,
) -> Result<List<u32>, NoMemory>
    requires levels { AreLevels kinds.now graph.now table.now }
    requires moves_on { MovesOn kinds.now graph.now }
    requires known { length kinds.now ≡ length graph.now }
    requires within { node < length graph.now }
    ensures { IfOk result (KeptAt kinds.now graph.now table.now node) }
{
    if level_of(table, node) > 0 {
        return Ok(List::new(alloc));
    }
    match kinds[node as usize] {
        Kind::Unfair => one_of(alloc, kinds, graph, table, node),
        Kind::Goal | Kind::Fair => List::copy(alloc, successors(graph, node)),
    }
}

/// The edges that are kept: none out of a node with a level, and out of any other one all edges if chance picks, and one edge to a
/// node without a level if an opponent does. Takes time and memory in the number of edges.
pub fn kept(
    alloc: Global,
    kinds: &[Kind],
    graph: &List<List<u32>>,
    table: &[u32],
) -> Result<Graph, NoMemory>
    requires few { length graph.now < 2 ^ 31 }
    requires levels { AreLevels kinds.now graph.now table.now }
    requires moves_on { MovesOn kinds.now graph.now }
    requires known { length kinds.now ≡ length graph.now }
    ensures { IfOk result (KeepsEdges kinds.now graph.now table.now) }
{
    let mut edges = Graph::new(alloc);
    for node in 0..graph.len() as u32 {
        edges.push(kept_at(alloc, kinds, graph, table, node)?)?;
    }
    Ok(edges)
}

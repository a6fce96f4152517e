//! Tables of hops towards a node of a flat graph, and walks along them. A walk that follows one is a shortest one.

ghost use Rattle.fond_games.specs.Graphs.{IsEdge};
ghost use Rattle.fond_games.specs.Hops.{AreHops};
ghost use Rattle.fond_games.specs.Levels.{level_at};
ghost use Rattle.fond_games.specs.Walks.{Walk};
ghost use Rattle.std.specs.Prelude.{◌≡◌, ◌<◌, ◌^◌, ◌++◌, ℕ, List, length, IfOk, OnOk};

use crate::graph::{level_of, lower, successors};
use crate::kind::Kind;
use crate::levels::levels;
use fond_text::fault::NoMemory;
use fond_text::list::List;
use std::alloc::Global;

/// The hops of each node towards a target: its level, if the target is the one goal.
pub fn toward(alloc: Global, graph: &List<List<u32>>, target: u32) -> Result<Vec<u32>, NoMemory>
    requires few { length graph.now < 2 ^ 31 }
    requires there { target < length graph.now }
    ensures { IfOk result (λ table. AreHops graph.now target table.items) }
{
    let mut kinds = vec![in alloc; Kind::Fair; graph.len()]?;
    kinds[target as usize] = Kind::Goal;
    levels(alloc, &kinds, graph)
}

/// Adds the nodes that the walk along a table from a node to its target leaves.
pub fn walk_down(
    graph: &List<List<u32>>,
    table: &[u32],
    target: u32,
    from: u32,
    walk: &mut Vec<u32>,
) -> Result<(), NoMemory>
    requires table { AreHops graph.now target table.now }
    requires reached { 0 < level_at table.now from }
    ensures { OnOk result ((more : List ℕ) × (walk.new.items ≡ walk.old.items ++ more) × Walk (IsEdge graph.now) from more target) }
{
    let mut node = from;
    while node != target {
        match lower(successors(graph, node), table, level_of(table, node)) {
            Some(next) => {
                walk.push(node)?;
                node = next;
            }
            None => return Ok(()),
        }
    }
    Ok(())
}

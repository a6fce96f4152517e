//! Stems: shortest walks from the first node of a flat graph.

ghost use Rattle.fond_games.specs.Graphs.{IsEdge};
ghost use Rattle.fond_games.specs.Walks.{IsInReach};
ghost use Rattle.fond_lasso.specs.Judged.{IsStem};
ghost use Rattle.std.specs.Prelude.{◌<◌, ◌^◌, length, IfOk};

use fond_games::hops::{toward, walk_down};
use fond_text::fault::NoMemory;
use fond_text::list::List;
use std::alloc::Global;

/// The nodes of a walk from the first node to a target, both included. Takes time and memory in the number of edges.
pub(crate) fn stem_to(
    alloc: Global,
    graph: &List<List<u32>>,
    target: u32,
) -> Result<Vec<u32>, NoMemory>
    requires few { length graph.now < 2 ^ 31 }
    requires there { target < length graph.now }
    requires reached { IsInReach (IsEdge graph.now) 0 target }
    ensures { IfOk result (λ stem. IsStem graph.now target stem.items) }
{
    let table = toward(alloc, graph, target)?;
    let mut stem = Vec::new(alloc);
    walk_down(graph, &table, target, 0, &mut stem)?;
    stem.push(target)?;
    Ok(stem)
}

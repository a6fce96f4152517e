//! Flat games judged: each node has a level, or chance and the opponent can hold a play for ever.

ghost use Rattle.fond_games.specs.Keeping.{MovesOn};
ghost use Rattle.fond_games.specs.Levels.{AreLevels, level_at};
ghost use Rattle.fond_lasso.specs.Judged.{AreAllLevelled, IsHeld, IsJudged, IsRooted};
ghost use Rattle.std.specs.Prelude.{◌≡◌, ◌<◌, ◌^◌, length, IfOk, IfSome, IfNone};

use crate::stem::stem_to;
use fond_games::kept::kept;
use fond_games::kind::Kind;
use fond_games::levels::levels;
use fond_games::tour::closed_walk;
use fond_text::fault::NoMemory;
use fond_text::list::List;
use std::alloc::Global;

/// What is found out about a flat game.
#[derive(Drop)]
pub(crate) enum Judged {
    /// Each node has a level.
    Levelled(Vec<u32>),
    /// A play can be held in a cycle.
    Held { stem: Vec<u32>, cycle: Vec<u32> },
}

/// The first node without a level.
fn first_open(table: &[u32]) -> Option<u32>
    requires { length table.now < 2 ^ 31 }
    ensures found { IfSome result (λ node. (node < length table.now) × (level_at table.now node ≡ 0)) }
    ensures none { IfNone result (AreAllLevelled table.now) }
{
    for node in 0..table.len() as u32 {
        if table[node as usize] == 0 {
            return Some(node);
        }
    }
    None
}

/// A cycle in reach of a node without a level, with a stem.
fn held(
    alloc: Global,
    kinds: &[Kind],
    graph: &List<List<u32>>,
    table: &[u32],
    from: u32,
) -> Result<Judged, NoMemory>
    requires few { length graph.now < 2 ^ 31 }
    requires known { length kinds.now ≡ length graph.now }
    requires moves_on { MovesOn kinds.now graph.now }
    requires rooted { IsRooted graph.now }
    requires levels { AreLevels kinds.now graph.now table.now }
    requires there { from < length graph.now }
    requires none { level_at table.now from ≡ 0 }
    ensures { IfOk result (IsJudged kinds.now graph.now) }
{
    let edges = kept(alloc, kinds, graph, table)?;
    let cycle = closed_walk(alloc, &edges, from)?;
    let stem = stem_to(alloc, graph, cycle[0])?;
    Ok(Judged::Held { stem, cycle })
}

/// What is found out about a flat game in which each node but a goal has an edge.
pub(crate) fn judge(
    alloc: Global,
    kinds: &[Kind],
    graph: &List<List<u32>>,
) -> Result<Judged, NoMemory>
    requires few { length graph.now < 2 ^ 31 }
    requires known { length kinds.now ≡ length graph.now }
    requires moves_on { MovesOn kinds.now graph.now }
    requires rooted { IsRooted graph.now }
    ensures { IfOk result (IsJudged kinds.now graph.now) }
{
    let table = levels(alloc, kinds, graph)?;
    match first_open(&table) {
        Some(from) => held(alloc, kinds, graph, &table, from),
        None => Ok(Judged::Levelled(table)),
    }
}

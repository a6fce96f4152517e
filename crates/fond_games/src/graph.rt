//! Flat graphs, and the levels of their nodes.

ghost use Rattle.fond_games.specs.Graphs.{successors_of};
ghost use Rattle.fond_games.specs.Levels.{IsBelow, level_at};
ghost use Rattle.std.specs.Prelude.{◌≡◌, ◌<◌, ◌≤◌, ℕ, Bool, true, false, length, IfSome, IfNone, Contains};

use fond_text::list::List;

/// A flat graph: for each node the list of its successors.
pub type Graph = List<List<u32>>;

/// The successors of a node.
pub fn successors(graph: &List<List<u32>>, node: u32) -> &[u32]
    ensures { result.now ≡ successors_of graph.now node }
{
    if (node as usize) < graph.len() {
        graph.get(node as usize).as_slice()
    } else {
        &[]
    }
}

/// The level of a node in a table: 0 if it has none.
pub fn level_of(table: &[u32], node: u32) -> u32
    ensures { result ≡ level_at table.now node }
{
    match table.get(node as usize) {
        Some(level) => *level,
        None => 0,
    }
}

/// The first of these nodes with a level below this one.
pub(crate) fn lower(nodes: &[u32], table: &[u32], level: u32) -> Option<u32>
    ensures found { IfSome result (λ node. Contains nodes.now node × IsBelow table.now level node) }
    ensures none { IfNone result ((node : ℕ) → Contains nodes.now node → 0 < level_at table.now node → level ≤ level_at table.now node) }
{
    for node in nodes {
        let own = level_of(table, *node);
        if own > 0 && own < level {
            return Some(*node);
        }
    }
    None
}

/// The first of these nodes without a level below this one.
pub(crate) fn unlowered(nodes: &[u32], table: &[u32], level: u32) -> Option<u32>
    ensures found { IfSome result (λ node. Contains nodes.now node × ¬ IsBelow table.now level node) }
    ensures none { IfNone result ((node : ℕ) → Contains nodes.now node → IsBelow table.now level node) }
{
    for node in nodes {
        let own = level_of(table, *node);
        if own == 0 || own >= level {
            return Some(*node);
        }
    }
    None
}

/// The first of these nodes without a level.
pub(crate) fn unlevelled(nodes: &[u32], table: &[u32]) -> Option<u32>
    ensures found { IfSome result (λ node. Contains nodes.now node × (level_at table.now node ≡ 0)) }
    ensures none { IfNone result ((node : ℕ) → Contains nodes.now node → 0 < level_at table.now node) }
{
    for node in nodes {
        if level_of(table, *node) == 0 {
            return Some(*node);
        }
    }
    None
}

//! Tours: closed walks that use each edge out of each of their nodes.
//!
//! A node is recurrent if it is in reach of each node in its reach. From a recurrent node, a walk goes to the source of each
//! edge in reach that it does not have yet, along that edge, and so on; at the end it comes back. Each part of it is a walk along
//! a table of hops. With n nodes, at most 2 n + 2 tables are filled.

ghost use Rattle.fond_games.specs.Graphs.{AlwaysGoesOn, IsEdge, IsRecurrent, IsTourFrom, successors_of};
ghost use Rattle.fond_games.specs.Hops.{AreHops};
ghost use Rattle.fond_games.specs.Levels.{level_at};
ghost use Rattle.fond_games.specs.Visits.{IsSeeking, IsTouring, Visits};
ghost use Rattle.fond_games.specs.Walks.{Follows, IsInReach, Walk};
ghost use Rattle.std.specs.Prelude.{◌≡◌, ◌⊎◌, Bool, true, false, ◌<◌, ◌≤◌, ◌^◌, ◌++◌, [], ◌∷◌, ℕ, List, length, IfOk, OnOk, Contains};

use crate::graph::{level_of, successors};
use crate::hops::{toward, walk_down};
use fond_text::fault::NoMemory;
use fond_text::list::List;
use std::alloc::Global;

/// A recurrent node in reach.
pub fn recurrent(alloc: Global, graph: &List<List<u32>>, from: u32) -> Result<u32, NoMemory>
    requires few { length graph.now < 2 ^ 31 }
    requires goes_on { AlwaysGoesOn graph.now from }
    ensures { IfOk result (λ node. IsInReach (IsEdge graph.now) from node × IsRecurrent graph.now node) }
{
    let count = graph.len() as u32;
    let mut knot = from;
    let mut back = toward(alloc, graph, knot)?;
    for node in 0..count {
        if level_of(&back, node) == 0 {
            let there = toward(alloc, graph, node)?;
            if level_of(&there, knot) > 0 {
                knot = node;
                back = there;
            }
        }
    }
    Ok(knot)
}

/// Whether a node comes right after another one in a walk that is now at a node.
fn follows(walk: &[u32], at: u32, node: u32, after: u32) -> bool
    ensures { result ≡ true → Follows (walk.now ++ at ∷ []) node after }
{
    for i in 0..walk.len() {
        if walk[i] == node {
            if i + 1 == walk.len() {
                return at == after;
            }
            if walk[i + 1] == after {
                return true;
            }
        }
    }
    false
}

/// Goes on along each edge out of a node that the walk does not have yet, and returns where the walk is then.
fn visit(
    graph: &List<List<u32>>,
    table: &[u32],
    node: u32,
    from: u32,
    walk: &mut Vec<u32>,
) -> Result<u32, NoMemory>
    requires table { AreHops graph.now node table.now }
    requires back { (after : ℕ) → IsEdge graph.now node after → IsInReach (IsEdge graph.now) after node }
    requires reached { IsInReach (IsEdge graph.now) from node }
    ensures { IfOk result (λ at. Visits graph.now node from walk.old.items walk.new.items at) }
{
    let mut at = from;
    for after in successors(graph, node) {
        if follows(walk, at, node, *after) {
            continue;
        }
        walk_down(graph, table, node, at, walk)?;
        walk.push(node)?;
        at = *after;
    }
    Ok(at)
}

/// A tour from a recurrent node.
fn tour(alloc: Global, graph: &List<List<u32>>, knot: u32) -> Result<Vec<u32>, NoMemory>
    requires few { length graph.now < 2 ^ 31 }
    requires goes_on { AlwaysGoesOn graph.now knot }
    requires recurrent { IsRecurrent graph.now knot }
    ensures { IfOk result (λ nodes. IsTourFrom graph.now knot nodes.items) }
{
    let mut walk = Vec::new(alloc);
    let mut at = knot;
    for node in 0..graph.len() as u32 {
        let table = toward(alloc, graph, node)?;
        if level_of(&table, knot) > 0 {
            at = visit(graph, &table, node, at, &mut walk)?;
        }
    }
    let back = toward(alloc, graph, knot)?;
    walk_down(graph, &back, knot, at, &mut walk)?;
    walk.push(knot)?;
    Ok(walk)
}

/// A closed walk in reach of a node, in which each edge out of each of its nodes occurs. Its first node comes again at its end.
pub fn closed_walk(alloc: Global, graph: &List<List<u32>>, from: u32) -> Result<Vec<u32>, NoMemory>
    requires few { length graph.now < 2 ^ 31 }
    requires goes_on { AlwaysGoesOn graph.now from }
    ensures { IfOk result (λ nodes. IsTourFrom graph.now from nodes.items) }
{
    let knot = recurrent(alloc, graph, from)?;
    tour(alloc, graph, knot)
}

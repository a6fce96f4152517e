//! Levels proposed by a breadth-first walk from the goals back over the edges. What it proposes is tested.

ghost use Rattle.std.specs.Prelude.{◌<◌, ◌^◌, length};

use crate::graph::{level_of, successors};
use crate::kind::Kind;
use crate::preds::Preds;
use fond_text::fault::NoMemory;
use fond_text::list::List;
use std::alloc::Global;

/// The levels so far, the nodes with a level in the order in which they got it, and for each node the number of its edges to nodes
/// that were not visited yet.
#[derive(Drop)]
struct Walk {
    table: Vec<u32>,
    queue: Vec<u32>,
    left: Vec<usize>,
}

/// A walk that is at the goals.
fn begun(alloc: Global, graph: &List<List<u32>>, table: Vec<u32>) -> Result<Walk, NoMemory>
    requires { length graph.now < 2 ^ 31 }
{
    let mut queue = Vec::new(alloc);
    let mut left = Vec::with_capacity(alloc, graph.len())?;
    for node in 0..graph.len() as u32 {
        if level_of(&table, node) > 0 {
            queue.push(node)?;
        }
        left.push(successors(graph, node).len())?;
    }
    Ok(Walk { table, queue, left })
}

impl Walk {
    /// Whether all edges out of a node were visited, now that one more is.
    fn is_done(&mut self, node: u32) -> bool {
        match self.left.get_mut(node as usize) {
            Some(left) => {
                *left = left.saturating_sub(1);
                *left == 0
            }
            None => false,
        }
    }

    /// Visits an edge from a node to one with the level before this one.
    fn meet(&mut self, kinds: &[Kind], node: u32, level: u32) -> Result<(), NoMemory> {
        let is_last = self.is_done(node);
        if level_of(&self.table, node) > 0 {
            return Ok(());
        }
        if let Some(Kind::Unfair) = kinds.get(node as usize) {
            if !is_last {
                return Ok(());
            }
        }
        if let Some(own) = self.table.get_mut(node as usize) {
            *own = level;
        }
        self.queue.push(node)?;
        Ok(())
    }

    /// Visits the edges to a node.
    fn meet_all(&mut self, kinds: &[Kind], preds: &Preds, node: u32) -> Result<(), NoMemory> {
        let level = level_of(&self.table, node).saturating_add(1);
        for source in preds.get(node) {
            self.meet(kinds, *source, level)?;
        }
        Ok(())
    }
}

/// Levels for the nodes of a table in which the goals alone have one. A fair node gets its level by the first of its edges that is
/// visited, and an unfair one by the last. Takes time and memory in the number of nodes and edges.
pub(crate) fn proposed(
    alloc: Global,
    kinds: &[Kind],
    graph: &List<List<u32>>,
    table: Vec<u32>,
) -> Result<Vec<u32>, NoMemory>
    requires { length graph.now < 2 ^ 31 }
{
    let preds = Preds::of(alloc, graph)?;
    let mut walk = begun(alloc, graph, table)?;
    for at in 0..graph.len() {
        let Some(node) = walk.queue.get(at) else {
            break;
        };
        let node = *node;
        walk.meet_all(kinds, &preds, node)?;
    }
    Ok(walk.table)
}

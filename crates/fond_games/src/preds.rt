//! The predecessors of each node, in flat lists.

ghost use Rattle.std.specs.Prelude.{◌<◌, ◌^◌, length};

use crate::graph::successors;
use fond_text::fault::NoMemory;
use fond_text::list::List;
use std::alloc::Global;

/// For each node, the nodes of which it is a successor, as often as it is one. They only guide the search for levels: what is found is
/// tested, so no clause says that they are all there. The predecessors of a node are a range of the list of all of them, which ends
/// where that of the next node begins.
#[derive(Drop)]
pub(crate) struct Preds {
    starts: Vec<u32>,
    sources: Vec<u32>,
}

/// Counts each of these nodes.
fn count(counts: &mut [u32], nodes: &[u32]) {
    for node in nodes {
        if let Some(count) = counts.get_mut(*node as usize) {
            *count = count.saturating_add(1);
        }
    }
}

/// Makes the count of each node the end of its range. Returns the end of the last one.
fn add_up(counts: &mut [u32]) -> u32 {
    let mut end = 0u32;
    for count in counts.iter_mut() {
        end = end.saturating_add(*count);
        *count = end;
    }
    end
}

/// Puts a source at the front of what is filled of the range of each of these nodes.
fn enter(starts: &mut [u32], sources: &mut [u32], nodes: &[u32], source: u32) {
    for node in nodes {
        if let Some(start) = starts.get_mut(*node as usize) {
            *start = start.saturating_sub(1);
            if let Some(place) = sources.get_mut(*start as usize) {
                *place = source;
            }
        }
    }
}

impl Preds {
    /// The predecessors in a graph. Takes time in the number of nodes and edges, and 4 bytes for each of them.
    pub(crate) fn of(alloc: Global, graph: &List<List<u32>>) -> Result<Preds, NoMemory>
        requires { length graph.now < 2 ^ 31 }
    {
        let mut starts = vec![in alloc; 0; graph.len().saturating_add(1)]?;
        for nexts in graph {
            count(&mut starts, nexts.as_slice());
        }
        let mut sources = vec![in alloc; 0; add_up(&mut starts) as usize]?;
        for node in 0..graph.len() as u32 {
            enter(&mut starts, &mut sources, successors(graph, node), node);
        }
        Ok(Preds { starts, sources })
    }

    /// The predecessors of a node. A node past the last one has none.
    pub(crate) fn get(&self, node: u32) -> &[u32] {
        let node = node as usize;
        match (self.starts.get(node), self.starts.get(node + 1)) {
            (Some(start), Some(end)) => self
                .sources
                .get(*start as usize..*end as usize)
                .unwrap_or(&[]),
            _ => &[],
        }
    }
}

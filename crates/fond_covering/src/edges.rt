//! Edges: an outcome at a node, with the node that the outcome leads into.

use crate::nodes::Nodes;
use fond_moves::index::{NONE, link_at, put, size};
use fond_text::fault::NoMemory;
use std::alloc::Global;
use std::collections::BinaryHeap;

/// An edge into a node, and the one that was put before it into the list of the node.
#[derive(Clone, Copy)]
struct Link {
    edge: u32,
    earlier: u32,
}

/// Edges, by numbers, and those that wait to be looked at.
#[derive(Drop)]
pub(crate) struct Edges {
    /// The node from which each edge comes, and the one into which it leads, or `NONE`.
    owners: Vec<u32>,
    children: Vec<u32>,
    /// By node: its last link. An edge that has left the node keeps its link.
    lasts: Vec<u32>,
    links: Vec<Link>,
    /// Edges that lead nowhere yet; the last comes first.
    fresh: Vec<u32>,
    /// Edges whose child asks for more; those at nodes of earlier rules come first.
    grown: BinaryHeap<(u32, u32)>,
    waits: Vec<bool>,
}

impl Edges {
    /// No edges.
    pub(crate) fn new(alloc: Global) -> Edges {
        Edges {
            owners: Vec::new(alloc),
            children: Vec::new(alloc),
            lasts: Vec::new(alloc),
            links: Vec::new(alloc),
            fresh: Vec::new(alloc),
            grown: BinaryHeap::new(alloc),
            waits: Vec::new(alloc),
        }
    }

    /// The number of edges.
    pub(crate) fn len(&self) -> u32 {
        size(self.owners.len())
    }

    /// The node from which an edge comes.
    pub(crate) fn owner(&self, edge: u32) -> u32 {
        link_at(&self.owners, edge)
    }

    /// The node into which an edge leads, or `NONE`.
    pub(crate) fn child(&self, edge: u32) -> u32 {
        link_at(&self.children, edge)
    }

    /// Adds the edges of the next node, this many. They wait, and the first one comes first.
    pub(crate) fn add(&mut self, node: u32, count: u32) -> Result<(), NoMemory> {
        let first = self.len();
        for _ in 0..count {
            self.owners.push(node)?;
            self.children.push(NONE)?;
            self.waits.push(false)?;
        }
        for i in 0..count {
            let after = count.saturating_sub(i).saturating_sub(1);
            self.fresh.push(first.saturating_add(after))?;
        }
        self.lasts.push(NONE)?;
        Ok(())
    }

    /// Makes the edge lead into a node.
    pub(crate) fn link(&mut self, edge: u32, child: u32) -> Result<(), NoMemory> {
        put(&mut self.children, edge, child);
        let number = size(self.links.len());
        let earlier = link_at(&self.lasts, child);
        self.links.push(Link { edge, earlier })?;
        put(&mut self.lasts, child, number);
        Ok(())
    }

    /// Makes the edge wait until the fresh ones were looked at, unless it waits.
    fn wait(&mut self, edge: u32, nodes: &Nodes) -> Result<(), NoMemory> {
        let Some(waits) = self.waits.get_mut(edge as usize) else {
            return Ok(());
        };
        if *waits {
            return Ok(());
        }
        *waits = true;
        let nearness = NONE - nodes.rule(self.owner(edge));
        self.grown.push((nearness, edge))?;
        Ok(())
    }

    /// Makes each edge into the node wait. Takes time in the number of edges that ever led into it.
    pub(crate) fn wake(&mut self, node: u32, nodes: &Nodes) -> Result<(), NoMemory> {
        let mut number = link_at(&self.lasts, node);
        for _ in 0..self.links.len() {
            let Some(link) = self.links.get(number as usize).copied() else {
                return Ok(());
            };
            if self.child(link.edge) == node {
                self.wait(link.edge, nodes)?;
            }
            number = link.earlier;
        }
        Ok(())
    }

    /// The next edge to look at, which waits no longer: one that leads nowhere if there is any.
    pub(crate) fn next(&mut self) -> Option<u32> {
        if let Some(edge) = self.fresh.pop() {
            return Some(edge);
        }
        let (_, edge) = self.grown.pop()?;
        if let Some(waits) = self.waits.get_mut(edge as usize) {
            *waits = false;
        }
        Some(edge)
    }
}

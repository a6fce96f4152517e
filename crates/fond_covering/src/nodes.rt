//! Nodes: each has a state in which a rule is the first that holds, or which is a goal, and the atoms of it that are known. The
//! cube of these atoms is to become an item.

use fond_moves::index::{NONE, copy_words, link_at, put, size};
use fond_text::fault::NoMemory;
use std::alloc::Global;

/// In place of the number of a rule: the state is a goal.
pub(crate) const GOAL: u32 = NONE - 1;

/// Nodes, by numbers. Each takes the words of two states and 12 bytes.
#[derive(Drop)]
pub(crate) struct Nodes {
    width: usize,
    /// The state and the known atoms of each node.
    words: Vec<u64>,
    rules: Vec<u32>,
    /// The first edge of each node.
    edges: Vec<u32>,
    /// For each node the one of the same rule before it.
    earlier: Vec<u32>,
    /// The last node of each rule, and of goals.
    lasts: Vec<u32>,
    last_goal: u32,
    /// How many nodes were looked at.
    work: u64,
}

/// The words from an index on, this many.
fn part(words: &[u64], from: usize, width: usize) -> &[u64] {
    let Some((_, rest)) = words.split_at_checked(from) else {
        return &[];
    };
    match rest.split_at_checked(width) {
        Some((found, _)) => found,
        None => &[],
    }
}

impl Nodes {
    /// No nodes, of states of this width.
    pub(crate) fn new(alloc: Global, width: u32) -> Nodes {
        Nodes {
            width: width as usize,
            words: Vec::new(alloc),
            rules: Vec::new(alloc),
            edges: Vec::new(alloc),
            earlier: Vec::new(alloc),
            lasts: Vec::new(alloc),
            last_goal: NONE,
            work: 0,
        }
    }

    /// The number of nodes.
    pub(crate) fn len(&self) -> u32 {
        size(self.rules.len())
    }

    /// The number of words that the nodes take.
    pub(crate) fn size(&self) -> usize {
        self.words.len()
    }

    /// How many nodes were looked at.
    pub(crate) fn work(&self) -> u64 {
        self.work
    }

    /// One more rule may have nodes.
    pub(crate) fn add_rule(&mut self) -> Result<(), NoMemory> {
        self.lasts.push(NONE)?;
        Ok(())
    }

    /// The rule of a node, or `GOAL`.
    pub(crate) fn rule(&self, node: u32) -> u32 {
        link_at(&self.rules, node)
    }

    /// The first edge of a node.
    pub(crate) fn first_edge(&self, node: u32) -> u32 {
        link_at(&self.edges, node)
    }

    /// Where the words of a node begin.
    fn place(&self, node: u32) -> usize {
        (node as usize).saturating_mul(self.width).saturating_mul(2)
    }

    /// The state of a node.
    pub(crate) fn state(&self, node: u32) -> &[u64] {
        part(self.words.as_slice(), self.place(node), self.width)
    }

    /// The known atoms of a node.
    pub(crate) fn known(&self, node: u32) -> &[u64] {
        let from = self.place(node).saturating_add(self.width);
        part(self.words.as_slice(), from, self.width)
    }

    /// Whether the known atoms of a node have their values in the state.
    pub(crate) fn holds(&self, node: u32, state: &[u64]) -> bool {
        let own = self.state(node);
        let known = self.known(node);
        for ((one, other), care) in own.iter().zip(state.iter()).zip(known.iter()) {
            if (*one ^ *other) & *care != 0 {
                return false;
            }
        }
        true
    }

    /// The last node of a rule.
    fn last(&self, rule: u32) -> u32 {
        if rule == GOAL {
            return self.last_goal;
        }
        link_at(&self.lasts, rule)
    }

    /// A node of this rule whose known atoms have their values in the state, or `NONE`. Takes time in the number of nodes of
    /// the rule.
    pub(crate) fn find(&mut self, rule: u32, state: &[u64]) -> u32 {
        let mut node = self.last(rule);
        for _ in 0..self.rules.len() {
            self.work = self.work.saturating_add(1);
            if node == NONE || self.holds(node, state) {
                return node;
            }
            node = link_at(&self.earlier, node);
        }
        node
    }

    /// Adds a node. Returns its number.
    pub(crate) fn add(
        &mut self,
        rule: u32,
        edge: u32,
        state: &[u64],
        known: &[u64],
    ) -> Result<u32, NoMemory> {
        let node = self.len();
        let last = self.last(rule);
        self.words.extend_from_slice(state)?;
        self.words.extend_from_slice(known)?;
        self.edges.push(edge)?;
        self.earlier.push(last)?;
        self.rules.push(rule)?;
        if rule == GOAL {
            self.last_goal = node;
        } else {
            put(&mut self.lasts, rule, node);
        }
        Ok(node)
    }

    /// Makes these atoms the known ones of a node. Returns whether they are others than before.
    pub(crate) fn set_known(&mut self, node: u32, known: &[u64]) -> bool {
        if self.known(node) == known {
            return false;
        }
        let from = self.place(node).saturating_add(self.width);
        if let Some((_, rest)) = self.words.as_mut_slice().split_at_mut_checked(from) {
            copy_words(rest, known);
        }
        true
    }
}

//! The edges of a graph.

ghost use Rattle.fond_graph.specs.Drawings.{edge_data, edges_of};
ghost use Rattle.fond_graph.specs.Parts.{comes_after, listed};
ghost use Rattle.fond_text.specs.Text.{Adds};
ghost use Rattle.serde_json.specs.Written.{compact_text};
ghost use Rattle.std.specs.List.{enumerate_from, flat_map};
ghost use Rattle.std.specs.Prelude.{◌≡◌, false, map};

use crate::items::put_comma;
use fond_reach::node::{Nexts, Node};
use fond_text::text::Text;

/// Adds an edge.
fn put_edge(from: usize, outcome: usize, to: u32, text: &mut Text)
    ensures { Adds text.old text.new (compact_text (edge_data from outcome to)) }
{
    text.add(b"{\"from\":");
    text.add_number(from as u64);
    text.add(b",\"outcome\":");
    text.add_number(outcome as u64);
    text.add(b",\"to\":");
    text.add_number(to as u64);
    text.add(b"}");
}

/// Adds an edge for each of the nodes to which outcomes lead, in order.
fn put_edges_to(from: usize, nexts: &Nexts, later: &mut bool, text: &mut Text)
    ensures edges { Adds text.old text.new (listed later.old (map (λ item. edge_data from item.0 item.1) (enumerate_from 0 nexts.now))) }
    ensures later { later.new ≡ comes_after later.old (map (λ item. edge_data from item.0 item.1) (enumerate_from 0 nexts.now)) }
{
    for (outcome, to) in nexts.as_slice().iter().enumerate() {
        put_comma(later, text);
        put_edge(from, outcome, *to, text);
    }
}

/// Adds the edges of a node.
fn put_edges_of(from: usize, node: &Node, later: &mut bool, text: &mut Text)
    ensures edges { Adds text.old text.new (listed later.old (edges_of from node.now)) }
    ensures later { later.new ≡ comes_after later.old (edges_of from node.now) }
{
    if let Node::Acts { nexts, .. } = node {
        put_edges_to(from, nexts, later, text);
    }
}

/// Adds the edges of all nodes. Takes time in the number of nodes and edges.
pub(crate) fn put_edges(nodes: &[Node], text: &mut Text)
    ensures { Adds text.old text.new (listed false (flat_map (λ item. edges_of item.0 item.1) (enumerate_from 0 nodes.now))) }
{
    let mut later = false;
    for (from, node) in nodes.iter().enumerate() {
        put_edges_of(from, node, &mut later, text);
    }
}

//! The graph that a policy reaches as a flat game: the kinds of its nodes, and its edges.

ghost use Rattle.fond_lasso.specs.Flat.{HasAct, edges_of, kind_of};
ghost use Rattle.fond_reach.specs.declared.node.Node.TheVariants.{Stuck};
ghost use Rattle.std.specs.Prelude.{◌≡◌, ◌<◌, ◌^◌, ℕ, All, Some, length, map, slice_get, IfOk, IfSome, IfNone};

use fond_games::graph::Graph;
use fond_games::kind::Kind;
use fond_reach::node::Node;
use fond_task::task::Task;
use fond_text::fault::NoMemory;
use fond_text::list::List;
use std::alloc::Global;

/// The number of the first dead end.
pub(crate) fn first_stuck(nodes: &[Node]) -> Option<u32>
    requires { length nodes.now < 2 ^ 31 }
    ensures found { IfSome result (λ n. slice_get nodes.now n ≡ Some Stuck) }
    ensures none { IfNone result ((n : ℕ) → ¬ (slice_get nodes.now n ≡ Some Stuck)) }
{
    for n in 0..nodes.len() as u32 {
        if let Node::Stuck = &nodes[n as usize] {
            return Some(n);
        }
    }
    None
}

/// The kind of a node: who picks the outcome of its action.
fn kind(t: &Task, node: &Node) -> Kind
    requires { HasAct t.now node.now }
    ensures { result ≡ kind_of t.now node.now }
{
    match node {
        Node::Goal => Kind::Goal,
        Node::Stuck => Kind::Fair,
        Node::Acts { act, .. } => {
            if t.acts.get(*act as usize).unfair {
                Kind::Unfair
            } else {
                Kind::Fair
            }
        }
    }
}

/// The kinds of all nodes.
pub(crate) fn kinds_of(alloc: Global, t: &Task, nodes: &[Node]) -> Result<Vec<Kind>, NoMemory>
    requires { All (HasAct t.now) nodes.now }
    ensures { IfOk result (λ kinds. kinds.items ≡ map (kind_of t.now) nodes.now) }
{
    let mut kinds = Vec::with_capacity(alloc, nodes.len())?;
    for node in nodes {
        kinds.push(kind(t, node))?;
    }
    Ok(kinds)
}

/// The edges out of all nodes, which are taken out of these.
pub(crate) fn graph_of(alloc: Global, nodes: Vec<Node>) -> Result<Graph, NoMemory>
    ensures { IfOk result (λ graph. graph ≡ map edges_of nodes.items) }
{
    let mut graph = Graph::new(alloc);
    for node in nodes {
        graph.push(match node {
            Node::Goal | Node::Stuck => List::new(alloc),
            Node::Acts { nexts, .. } => nexts,
        })?;
    }
    Ok(graph)
}

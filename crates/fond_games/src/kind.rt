//! The kinds of the nodes of a flat game.

/// What a node is: a goal, or one at which chance or an opponent picks the edge.
#[derive(Clone, Copy)]
pub enum Kind {
    Goal,
    Fair,
    Unfair,
}

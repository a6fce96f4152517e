//! Trees and their accessors: place, leaf, members, head.

ghost use Rattle.fond_tree.specs.Trees.{front as front_of};
ghost use Rattle.std.specs.Option.{option_copied};
ghost use Rattle.std.specs.Prelude.{◌≡◌};

use fond_text::name::Name;
use fond_text::place::Place;

/// The members of a node, in order.
pub type Forest = Vec<Tree>;

/// A leaf with the place of its first byte, or a node with that of its opening parenthesis.
#[derive(Drop)]
pub enum Tree {
    Leaf(Place, Name),
    Node(Place, Forest),
}

impl Tree {
    ghost use Rattle.fond_tree.specs.Trees.{place_of, leaf_of, members_of, head_of, is_node};
    ghost use Rattle.std.specs.Option.{option_copied};
    ghost use Rattle.std.specs.Prelude.{◌≡◌};

    /// The place of the tree.
    pub fn place(&self) -> Place
        ensures { result ≡ place_of self.now }
    {
        match self {
            Tree::Leaf(place, _) | Tree::Node(place, _) => *place,
        }
    }

    /// The bytes of the leaf that the tree is, if it is one.
    pub fn leaf(&self) -> Option<&[u8]>
        ensures { option_copied result ≡ leaf_of self.now }
    {
        match self {
            Tree::Leaf(_, name) => Some(name.bytes()),
            Tree::Node(_, _) => None,
        }
    }

    /// The members of the node that the tree is, if it is one.
    pub fn members(&self) -> Option<&[Tree]>
        ensures { option_copied result ≡ members_of self.now }
    {
        match self {
            Tree::Leaf(_, _) => None,
            Tree::Node(_, members) => Some(members.as_slice()),
        }
    }

    /// The head of the node that the tree is: its first member, if that is a leaf.
    pub fn head(&self) -> Option<&[u8]>
        ensures { option_copied result ≡ head_of self.now }
    {
        match self {
            Tree::Leaf(_, _) => None,
            Tree::Node(_, members) => front(members.as_slice()),
        }
    }

    /// Whether the tree is a node.
    pub fn is_node(&self) -> bool
        ensures { result ≡ is_node self.now }
    {
        matches!(self, Tree::Node(_, _))
    }
}

/// The first of some trees, if it is a leaf.
pub fn front(trees: &[Tree]) -> Option<&[u8]>
    ensures { option_copied result ≡ front_of trees.now }
{
    match trees {
        [] => None,
        [first, ..] => first.leaf(),
    }
}

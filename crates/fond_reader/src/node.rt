//! Leaves and nodes of trees that have no fault.

ghost use Rattle.fond_reader.specs.Nodes.{is_headed};
ghost use Rattle.fond_tree.specs.Trees.{is_node, leaf_of, members_of as members_of_tree, place_of};
ghost use Rattle.std.specs.Prelude.{◌≡◌, ◌∷◌, Some, true, false, IfOk};

use fond_text::fault::NoMemory;
use fond_text::name::Name;
use fond_text::place::Place;
use fond_tree::tree::Tree;
use std::alloc::Global;

/// The place of a leaf, and a copy of its name.
pub(crate) fn read_leaf(alloc: Global, tree: &Tree) -> Result<(Place, Name), NoMemory>
    requires { is_node tree.now ≡ false }
    ensures { IfOk result (λ leaf. (leaf.0 ≡ place_of tree.now) × (leaf_of tree.now ≡ Some leaf.1)) }
{
    match tree {
        Tree::Leaf(place, name) => Ok((*place, name.copy(alloc)?)),
        Tree::Node(_, _) => unreachable!(),
    }
}

/// The bytes of a leaf.
pub(crate) fn word_of(tree: &Tree) -> &[u8]
    requires { is_node tree.now ≡ false }
    ensures { leaf_of tree.now ≡ Some result.now }
{
    match tree {
        Tree::Leaf(_, name) => name.bytes(),
        Tree::Node(_, _) => unreachable!(),
    }
}

/// The members of a node.
pub(crate) fn members_of(tree: &Tree) -> &[Tree]
    requires { is_node tree.now ≡ true }
    ensures { members_of_tree tree.now ≡ Some result.now }
{
    match tree {
        Tree::Leaf(_, _) => unreachable!(),
        Tree::Node(_, members) => members.as_slice(),
    }
}

/// The first member of a node, and the members after it.
pub(crate) fn head_and_rest(tree: &Tree) -> (&Tree, &[Tree])
    requires { is_headed (members_of_tree tree.now) ≡ true }
    ensures { members_of_tree tree.now ≡ Some (result.0.now ∷ result.1.now) }
{
    match tree {
        Tree::Leaf(_, _) => unreachable!(),
        Tree::Node(_, members) => match members.as_slice() {
            [] => unreachable!(),
            [head, rest @ ..] => (head, rest),
        },
    }
}

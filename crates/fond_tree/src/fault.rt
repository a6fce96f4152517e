//! The first fault of a tree. The grammar is given by two tables: what is expected of a node, and of its members one
//! by one. Each part of the tree is checked, and the earliest fault is kept.

ghost use Rattle.fond_tree.specs.FormFaults.{Stands, IsRefusedTree, IsOwnFault, node_code as node_code_of, tree_code as tree_code_of};
ghost use Rattle.fond_text.specs.Firsts.{IsFirst};
ghost use Rattle.fond_text.specs.Faults.{IsLeast, IsClean};
ghost use Rattle.fond_tree.specs.Parts.{part};
ghost use Rattle.fond_tree.specs.Walks.{seen};
ghost use Rattle.fond_tree.specs.Trees.{members_of as members_of_tree, leaf_of as leaf_of_tree};
ghost use Rattle.std.specs.Prelude.{◌≡◌, option_map, IfSome, IfNone};

use crate::expected::{Expected, expected_of, is_counted};
use crate::leaves::leaf_code;
use crate::repeats::{incomplete, repeated};
use crate::role::Role;
use crate::tree::Tree;
use crate::walk::Walk;
use fond_text::code::MISFIT;
use fond_text::first::{Found, earlier, found_at};

/// The code with which a node of these members is refused, if it is.
fn node_code(expected: Option<Expected>, members: &[Tree]) -> Option<u8>
    ensures { result ≡ node_code_of (option_map seen expected) members.now }
{
    match expected {
        None => Some(MISFIT),
        Some(Expected::Members(shape)) => {
            if is_counted(shape, members) {
                None
            } else {
                Some(MISFIT)
            }
        }
        Some(Expected::Refused(code)) => Some(code),
    }
}

/// The code with which a tree is refused, if it is.
fn tree_code(role: Role, tree: &Tree) -> Option<u8>
    ensures { result ≡ tree_code_of role (leaf_of_tree tree.now) (members_of_tree tree.now) }
{
    match tree {
        Tree::Leaf(_, name) => leaf_code(role, name.bytes()),
        Tree::Node(_, members) => {
            node_code(expected_of(role, members.as_slice()), members.as_slice())
        }
    }
}

/// A tree that is refused.
fn misfit(role: Role, tree: &Tree) -> Option<Found>
    ensures { IsFirst (λ place code. IsRefusedTree (part role tree.now) place code) result }
{
    found_at(tree.place(), tree_code(role, tree))
}

/// The first fault of a tree itself, or of its members side by side.
fn own_fault(role: Role, tree: &Tree) -> Option<Found>
    ensures { IsFirst (λ place code. IsOwnFault (part role tree.now) place code) result }
{
    let repeated = earlier(repeated(role, tree), incomplete(role, tree));
    earlier(misfit(role, tree), repeated)
}

/// The first fault of a tree of which this is expected: the least one by place, and at one place by code. Takes time
/// in the size of the tree and no memory; the depth of its recursion is that of the tree.
pub fn first_fault(role: Role, tree: &Tree) -> Option<Found>
    ensures some { IfSome result (λ found. IsLeast (λ place code. Stands role tree.now place code) found.place found.code) }
    ensures none { IfNone result (IsClean (λ place code. Stands role tree.now place code)) }
{
    let mut first = own_fault(role, tree);
    if let Tree::Node(_, members) = tree {
        let trees = members.as_slice();
        let mut walk = Walk::over(expected_of(role, trees));
        for (i, member) in trees.iter().enumerate() {
            let inner = walk.next(member, &trees[i + 1..]);
            if let Some(inner) = inner {
                first = earlier(first, first_fault(inner, member));
            }
        }
    }
    first
}

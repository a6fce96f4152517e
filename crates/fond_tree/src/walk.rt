//! A walk over the members of a node that tells what is expected of each. It does not allocate, and looks one member
//! ahead.

ghost use Rattle.fond_tree.specs.Parts.{typed, rest_parts, shape_parts, expected_parts, value_role as value_role_of};
ghost use Rattle.fond_tree.specs.Walks.{seen, part_if, rest_left, parts_left};
ghost use Rattle.fond_tree.specs.Trees.{leaf_of as leaf_of_tree};
ghost use Rattle.fond_tree.specs.declared.tree.Tree.{Tree as TreeValue};
ghost use Rattle.std.specs.Prelude.{◌≡◌, ◌∷◌, ◌++◌, List, option_map, option_and_then};

use crate::expected::{Expected, Shape};
use crate::leaves::{is_dash, is_word};
use crate::role::{Rest, Role};
use crate::tree::Tree;

/// What is expected of the members after the first ones.
#[derive(Clone, Copy)]
enum Pending {
    /// Members that are not read.
    Unread,
    Each(Role),
    /// A typed list of these leaves with these types, and whether it is left after a leaf without a type.
    Typed(Role, Role, bool),
    /// A type, and then a typed list of these leaves with these types.
    TypeNext(Role, Role),
    /// Keys and their values.
    Key,
    /// The value of a key, of which nothing may be expected, and then keys and their values.
    Value(Option<Role>),
}

/// A walk over the members of a node.
#[derive(Clone, Copy)]
pub struct Walk {
    first: &'static [Role],
    left: Pending,
}

/// What is expected of the value of a key, if it is read.
fn value_role(key: &[u8]) -> Option<Role>
    ensures { result ≡ value_role_of key.now }
{
    if is_word(key, b":parameters") {
        Some(Role::Variables)
    } else if is_word(key, b":precondition") {
        Some(Role::Condition)
    } else if is_word(key, b":effect") {
        Some(Role::Effect)
    } else {
        None
    }
}

/// What is expected of the tree after a key, if it is read.
fn role_after(key: &Tree) -> Option<Role>
    ensures { result ≡ option_and_then value_role_of (leaf_of_tree key.now) }
{
    match key {
        Tree::Leaf(_, name) => value_role(name.bytes()),
        Tree::Node(_, _) => None,
    }
}

/// What is expected at first of the members after the first ones.
fn rest_of(rest: Rest) -> Pending
    ensures { (trees : List TreeValue) → rest_left result trees ≡ rest_parts rest trees }
{
    match rest {
        Rest::Each(role) => Pending::Each(role),
        Rest::Typed(leaf, types) => Pending::Typed(leaf, types, false),
        Rest::Pairs => Pending::Key,
        Rest::NoMore | Rest::Unread => Pending::Unread,
    }
}

impl Pending {
    /// What is expected of the next tree of a typed list: nothing if it is a `-` that fits.
    fn next_typed(
        &mut self,
        leaf: Role,
        types: Role,
        untyped: bool,
        tree: &Tree,
        after: &[Tree],
    ) -> Option<Role>
        ensures { typed leaf types untyped (tree.now ∷ after.now) ≡ part_if result tree.now ++ rest_left self.new after.now }
    {
        let dash = is_dash(tree);
        if untyped && dash && !after.is_empty() {
            *self = Pending::TypeNext(leaf, types);
            None
        } else {
            *self = Pending::Typed(leaf, types, !dash);
            Some(leaf)
        }
    }

    /// What is expected of the next tree, if it is read.
    fn next(&mut self, tree: &Tree, after: &[Tree]) -> Option<Role>
        ensures { rest_left self.old (tree.now ∷ after.now) ≡ part_if result tree.now ++ rest_left self.new after.now }
    {
        match *self {
            Pending::Unread => None,
            Pending::Each(role) => Some(role),
            Pending::Typed(leaf, types, untyped) => self.next_typed(
                leaf, types, untyped, tree, after,
            ),
            Pending::TypeNext(leaf, types) => {
                *self = Pending::Typed(leaf, types, false);
                Some(types)
            }
            Pending::Key => {
                *self = Pending::Value(role_after(tree));
                Some(Role::Key)
            }
            Pending::Value(role) => {
                *self = Pending::Key;
                role
            }
        }
    }
}

impl Walk {
    /// The walk over members of a shape.
    fn over_shape(shape: Shape) -> Walk
        ensures { (trees : List TreeValue) → parts_left result trees ≡ shape_parts shape.first.now shape.rest trees }
    {
        Walk {
            first: shape.first,
            left: rest_of(shape.rest),
        }
    }

    /// The walk over members of which this is expected.
    pub fn over(expected: Option<Expected>) -> Walk
        ensures { (trees : List TreeValue) → parts_left result trees ≡ expected_parts (option_map seen expected) trees }
    {
        match expected {
            Some(Expected::Members(shape)) => Walk::over_shape(shape),
            Some(Expected::Refused(_)) | None => Walk {
                first: &[],
                left: Pending::Unread,
            },
        }
    }

    /// What is expected of the next tree, if it is read.
    pub fn next(&mut self, tree: &Tree, after: &[Tree]) -> Option<Role>
        ensures { parts_left self.old (tree.now ∷ after.now) ≡ part_if result tree.now ++ parts_left self.new after.now }
    {
        match self.first {
            [role, rest @ ..] => {
                self.first = rest;
                Some(*role)
            }
            [] => self.left.next(tree, after),
        }
    }
}

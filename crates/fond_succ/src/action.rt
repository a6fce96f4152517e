//! The action word of a command line, and the ground action that it names.

ghost use Rattle.fond_ast.specs.Within.{are_ranges_within};
ghost use Rattle.fond_ast.specs.declared.task.LSchema.{LSchema};
ghost use Rattle.fond_ast.specs.Conditions.{IsTuple};
ghost use Rattle.fond_task.specs.Texts.{name_at};
ghost use Rattle.fond_text.specs.declared.atom.GroundAction.{GroundAction};
ghost use Rattle.fond_succ.specs.Actions.{AreNamesOf, IsAction, NameNone, is_leaf_node, leaf_names, names_of};
ghost use Rattle.fond_tree.specs.Spelling.{IsReadAs};
ghost use Rattle.fond_tree.specs.Trees.{leaf_of};
ghost use Rattle.std.specs.List.{list_all};
ghost use Rattle.std.specs.Prelude.{◌≡◌, ◌<◌, ◌^◌, ℕ, List, nat_lt, true, is_some, IsTrue, map, length, Contains, Some, slice_get, IfOk, IfSome, IfNone, MatchOption};

use fond_ast::form::Ranges;
use fond_ast::task::{LSchemas, LiftedTask};
use fond_text::atom::{GroundAction, Objects};
use fond_text::fault::{FrontError, NoMemory};
use fond_text::name::Names;
use fond_text::place::FileKind;
use fond_text::word::Word;
use fond_tree::read::read_tree;
use fond_tree::tree::Tree;
use std::alloc::Global;

fn are_all_leaves(trees: &[Tree]) -> bool
    ensures { result ≡ list_all (λ tree. is_some (leaf_of tree)) trees.now }
{
    trees.iter().all(|tree| tree.leaf().is_some())
}

/// Whether a tree is a node of leaves with at least one leaf.
fn is_node_of_leaves(tree: &Tree) -> bool
    ensures { result ≡ is_leaf_node tree.now }
{
    match tree {
        Tree::Leaf(_, _) => false,
        Tree::Node(_, members) => members.len() > 0 && are_all_leaves(members),
    }
}

/// The tree of an action word, or none if the word is not an action.
pub fn read_action(alloc: Global, word: &Word) -> Result<Option<Tree>, NoMemory>
    ensures { IfOk result (λ found. MatchOption found (¬ IsAction word.now) (λ tree. IsReadAs word.now tree × (is_leaf_node tree ≡ true))) }
{
    match read_tree(alloc, FileKind::Domain, word.bytes()) {
        Ok(tree) => {
            if is_node_of_leaves(&tree) {
                Ok(Some(tree))
            } else {
                Ok(None)
            }
        }
        Err(FrontError::Refused(_)) => Ok(None),
        Err(FrontError::NoMemory) => Err(NoMemory),
    }
}

/// The name of a leaf, and no bytes if the tree is a node.
fn name_in(tree: &Tree) -> &[u8]
    ensures { (name : List ℕ) → leaf_of tree.now ≡ Some name → result.now ≡ name }
{
    match tree.leaf() {
        Some(name) => name,
        None => &[],
    }
}

/// The number of the schema of this name, if there is one.
fn find_schema(schemas: &LSchemas, name: &[u8]) -> Option<u32>
    requires { length schemas.now < 2 ^ 32 }
    ensures found { IfSome result (λ number. (schema : LSchema) × (slice_get schemas.now number ≡ Some schema) × (schema.name ≡ name.now)) }
    ensures none { IfNone result ((number : ℕ) (schema : LSchema) → slice_get schemas.now number ≡ Some schema → ¬ schema.name ≡ name.now) }
{
    for i in 0..schemas.len() {
        if schemas.get(i).name.bytes() == name {
            return Some(i as u32);
        }
    }
    None
}

/// The object of this name in a range, if there is one.
fn find_object(names: &Names, range: &Objects, name: &[u8]) -> Option<u32>
    requires { IsTrue (list_all (λ object. nat_lt object (length names.now)) range.now) }
    ensures found { IfSome result (λ object. Contains range.now object × (name_at names.now object ≡ name.now)) }
    ensures none { IfNone result ((object : ℕ) → Contains range.now object → ¬ name_at names.now object ≡ name.now) }
{
    for object in range.as_slice() {
        if names.get(*object as usize).bytes() == name {
            return Some(*object);
        }
    }
    None
}

/// The objects that the trees of leaves name, place by place in these ranges, or none if they name no such objects.
fn find_objects(
    alloc: Global,
    names: &Names,
    ranges: &Ranges,
    leaves: &[Tree],
) -> Result<Option<Objects>, NoMemory>
    requires within { IsTrue (are_ranges_within (length names.now) ranges.now) }
    requires leaves { IsTrue (list_all (λ tree. is_some (leaf_of tree)) leaves.now) }
    ensures { IfOk result (λ found. MatchOption found
        ((objects : List ℕ) → IsTuple ranges.now objects → ¬ map (name_at names.now) objects ≡ leaf_names leaves.now)
        (λ objects. IsTuple ranges.now objects × (map (name_at names.now) objects ≡ leaf_names leaves.now))) }
{
    if ranges.len() != leaves.len() {
        return Ok(None);
    }
    let mut objects = Objects::new(alloc);
    for i in 0..ranges.len() {
        let Some(object) = find_object(names, ranges.get(i), name_in(&leaves[i])) else {
            return Ok(None);
        };
        objects.push(object)?;
    }
    Ok(Some(objects))
}

/// The ground action that the members of a node of leaves name, if they name one.
fn find_named(
    alloc: Global,
    task: &LiftedTask,
    leaves: &[Tree],
) -> Result<Option<GroundAction>, NoMemory>
    requires { IsTrue (list_all (λ tree. is_some (leaf_of tree)) leaves.now) }
    ensures { IfOk result (λ found. MatchOption found (NameNone task.now (leaf_names leaves.now)) (AreNamesOf task.now (leaf_names leaves.now))) }
{
    let Some((first, rest)) = leaves.split_first() else {
        return Ok(None);
    };
    let Some(schema) = find_schema(&task.schemas, name_in(first)) else {
        return Ok(None);
    };
    let ranges = &task.schemas.get(schema as usize).ranges;
    match find_objects(alloc, &task.objects, ranges, rest)? {
        Some(objects) => Ok(Some(GroundAction { schema, objects })),
        None => Ok(None),
    }
}

/// The ground action that an action names, which is given by its tree, if it names one. Takes time in the names of the schemas
/// and of the objects in the ranges of the schema's parameters.
pub fn find_action(
    alloc: Global,
    task: &LiftedTask,
    action: &Tree,
) -> Result<Option<GroundAction>, NoMemory>
    requires { is_leaf_node action.now ≡ true }
    ensures { IfOk result (λ found. MatchOption found (NameNone task.now (names_of action.now)) (AreNamesOf task.now (names_of action.now))) }
{
    let Some(members) = action.members() else {
        unreachable!()
    };
    find_named(alloc, task, members)
}

//! Reading typed lists that have no fault, group by group: the leaves before a `-`, and their type.

ghost use Rattle.fond_tree.specs.FormFaults.{Fits};
ghost use Rattle.fond_tree.specs.Parts.{is_dash as is_dash_tree};
ghost use Rattle.fond_tree.specs.declared.role.Role.TheVariants.{Name as NameRole, VariableType as VariableTypeRole, Variables as VariablesRole};
ghost use Rattle.fond_reader.specs.Files.{is_name_leaf};
ghost use Rattle.fond_reader.specs.Sorts.{leaf_role, type_role, type_test, FitsTyped, is_read_from, are_read_from, typed_leaf, AddsLeaves, AddsTyped};
ghost use Rattle.fond_reader.specs.Typed.{is_kind, is_one_kind, are_kinds, is_object_alone, have_type, typed_leaves, is_variable_list};
ghost use Rattle.fond_text.specs.Lists.{each_passes};
ghost use Rattle.fond_tree.specs.Trees.{is_node};
ghost use Rattle.std.specs.List.{AllByRecursion, prefix_len};
ghost use Rattle.std.specs.Option.{option_copied};
ghost use Rattle.std.specs.Prelude.{◌≡◌, ◌<◌, ℕ, not, true, false, length, map, IfOk, IfSome, OnOk};

use crate::node::{head_and_rest, members_of, read_leaf};
use fond_ast::names::{Kind, Kinds, TypedName, TypedNames};
use fond_text::fault::NoMemory;
use fond_text::name::Name;
use fond_text::place::Place;
use fond_tree::leaves::is_dash;
use fond_tree::tree::Tree;
use std::alloc::Global;

/// What a typed list declares: names, whose type is one name, or variables, whose type may be an `either`.
#[derive(Clone, Copy)]
pub(crate) enum Sort {
    Names,
    Variables,
}

/// The number of trees before the first `-`.
fn group_len(trees: &[Tree]) -> usize
    ensures { result ≡ prefix_len (λ tree. not (is_dash_tree tree)) trees.now }
{
    trees.iter().take_while(|tree| !is_dash(*tree)).count()
}

/// The type that a leaf names.
fn read_kind(alloc: Global, tree: &Tree) -> Result<Kind, NoMemory>
    requires { Fits NameRole tree.now }
    ensures { IfOk result (λ kind. is_kind kind tree.now ≡ true) }
{
    let (place, name) = read_leaf(alloc, tree)?;
    Ok(Kind { place, name })
}

/// The type that a leaf names, alone.
fn read_one_kind(alloc: Global, tree: &Tree) -> Result<Kinds, NoMemory>
    requires { Fits NameRole tree.now }
    ensures { IfOk result (λ kinds. is_one_kind kinds tree.now ≡ true) }
{
    let mut kinds = Kinds::new(alloc);
    kinds.push(read_kind(alloc, tree)?)?;
    Ok(kinds)
}

/// The types that leaves name, one by one.
fn read_each_kind(alloc: Global, trees: &[Tree]) -> Result<Kinds, NoMemory>
    requires { AllByRecursion (Fits NameRole) trees.now }
    ensures { IfOk result (λ kinds. each_passes (map is_kind kinds) trees.now ≡ true) }
{
    let mut kinds = Kinds::new(alloc);
    for tree in trees {
        kinds.push(read_kind(alloc, tree)?)?;
    }
    Ok(kinds)
}

/// The types of a variable: one name, or those of an `either`.
fn read_kinds(alloc: Global, tree: &Tree) -> Result<Kinds, NoMemory>
    requires { Fits VariableTypeRole tree.now }
    ensures { IfOk result (λ kinds. are_kinds kinds tree.now ≡ true) }
{
    if !tree.is_node() {
        return read_one_kind(alloc, tree);
    }
    let (_, names) = head_and_rest(tree);
    read_each_kind(alloc, names)
}

/// The type `object`, at the place of a leaf without a written type.
fn object_at(alloc: Global, place: Place) -> Result<Kinds, NoMemory>
    ensures { IfOk result (λ kinds. is_object_alone place kinds ≡ true) }
{
    let name = Name::lower(alloc, b"object")?;
    let mut kinds = Kinds::new(alloc);
    kinds.push(Kind { place, name })?;
    Ok(kinds)
}

/// The types of a leaf at this place: those that are written, or `object`.
fn kinds_of(alloc: Global, sort: Sort, place: Place, kind: Option<&Tree>) -> Result<Kinds, NoMemory>
    requires { IfSome kind (λ tree. Fits (type_role sort) tree.now) }
    ensures { IfOk result (λ kinds. have_type (type_test sort) place kinds (option_copied kind.entry) ≡ true) }
{
    match kind {
        None => object_at(alloc, place),
        Some(tree) => match sort {
            Sort::Names => read_one_kind(alloc, tree),
            Sort::Variables => read_kinds(alloc, tree),
        },
    }
}

/// The declaration that a leaf with its type is read as.
fn read_declared(
    alloc: Global,
    sort: Sort,
    leaf: &Tree,
    kind: Option<&Tree>,
) -> Result<TypedName, NoMemory>
    requires leaf { Fits (leaf_role sort) leaf.now }
    requires kind { IfSome kind (λ tree. Fits (type_role sort) tree.now) }
    ensures { IfOk result (λ name. is_read_from sort name (typed_leaf (option_copied kind.entry) leaf.now) ≡ true) }
{
    let (place, name) = read_leaf(alloc, leaf)?;
    let kinds = kinds_of(alloc, sort, place, kind)?;
    Ok(TypedName { place, name, kinds })
}

/// Adds the declarations of leaves that have one type. Each gets its own copy of the type.
fn push_leaves(
    alloc: Global,
    sort: Sort,
    names: &mut TypedNames,
    leaves: &[Tree],
    kind: Option<&Tree>,
) -> Result<(), NoMemory>
    requires leaves { AllByRecursion (Fits (leaf_role sort)) leaves.now }
    requires kind { IfSome kind (λ tree. Fits (type_role sort) tree.now) }
    ensures { OnOk result (AddsLeaves sort (option_copied kind.entry) leaves.now names.old names.new) }
{
    for leaf in leaves {
        names.push(read_declared(alloc, sort, leaf, kind)?)?;
    }
    Ok(())
}

/// Adds the declarations of the leaves before the first `-`, or of all if there is none. The trees after their type
/// are left.
fn push_group<'a>(
    alloc: Global,
    sort: Sort,
    names: &mut TypedNames,
    trees: &'a [Tree],
) -> Result<&'a [Tree], NoMemory>
    requires fits { FitsTyped sort trees.now }
    requires some { 0 < length trees.now }
    ensures added { IfOk result (λ rest. AddsTyped sort trees.now rest.now names.old names.new) }
    ensures shorter { IfOk result (λ rest. length rest.now < length trees.now) }
{
    let (leaves, after) = trees.split_at(group_len(trees));
    match after {
        [] => {
            push_leaves(alloc, sort, names, leaves, None)?;
            Ok(after)
        }
        [_, kind, rest @ ..] => {
            push_leaves(alloc, sort, names, leaves, Some(kind))?;
            Ok(rest)
        }
        _ => unreachable!(),
    }
}

/// The declarations that a typed list is read as. Takes time and memory in the size of the list, but for the types of
/// an `either`, of which each variable of its group gets a copy.
pub(crate) fn read_typed(alloc: Global, sort: Sort, trees: &[Tree]) -> Result<TypedNames, NoMemory>
    requires { FitsTyped sort trees.now }
    ensures { IfOk result (λ names. are_read_from sort names (typed_leaves false trees.now) ≡ true) }
{
    let mut names = TypedNames::new(alloc);
    let mut rest = trees;
    while !rest.is_empty() {
        rest = push_group(alloc, sort, &mut names, rest)?;
    }
    Ok(names)
}

/// The variables that a node is read as.
pub(crate) fn read_variables(alloc: Global, tree: &Tree) -> Result<TypedNames, NoMemory>
    requires { Fits VariablesRole tree.now }
    ensures { IfOk result (λ names. is_variable_list names tree.now ≡ true) }
{
    read_typed(alloc, Sort::Variables, members_of(tree))
}

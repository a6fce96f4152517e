//! Reading a side list.

ghost use Rattle.fond_tree.specs.FormFaults.{Fits};
ghost use Rattle.fond_tree.specs.declared.role.Role.TheVariants.{Atom as AtomRole};
ghost use Rattle.fond_reader.specs.Sides.{IsSideFault, IsSideOf, IsSideOfText, StandsInSide, is_leaf, is_pattern, leaves_of, nodes_of};
ghost use Rattle.fond_text.specs.Faults.{IsClean, IsLeastIn, Refuses};
ghost use Rattle.fond_text.specs.Firsts.{IsFirst};
ghost use Rattle.fond_text.specs.Lists.{each_passes};
ghost use Rattle.fond_text.specs.declared.place.FileKind.TheVariants.{Side as SideKind};
ghost use Rattle.fond_tree.specs.Spelling.{IsReadAsForest};
ghost use Rattle.fond_tree.specs.Trees.{is_node};
ghost use Rattle.fond_tree.specs.declared.tree.Tree.{Tree};
ghost use Rattle.std.specs.Prelude.{◌≡◌, true, false, List, map, IfOk, IfErr, OnOk};

use crate::atom::read_atom;
use crate::node::read_leaf;
use fond_ast::files::{Pattern, Patterns, Side};
use fond_ast::names::{Kind, Kinds, ReadAtom};
use fond_text::fault::{Fault, FrontError, NoMemory};
use fond_text::first::{Found, earlier};
use fond_text::place::FileKind;
use fond_tree::fault::first_fault;
use fond_tree::read::read_forest;
use fond_tree::role::Role;
use fond_tree::tree::Tree;
use std::alloc::Global;

/// The first fault of form among trees.
fn side_fault(trees: &[Tree]) -> Option<Found>
    ensures { IsFirst (StandsInSide trees.now) result }
{
    let mut first = None;
    for tree in trees {
        if tree.is_node() {
            first = earlier(first, first_fault(Role::Atom, tree));
        }
    }
    first
}

/// The name that a leaf of a side list is read as.
fn read_side_name(alloc: Global, tree: &Tree) -> Result<Kind, NoMemory>
    requires { is_node tree.now ≡ false }
    ensures { IfOk result (λ leaf. is_leaf leaf tree.now ≡ true) }
{
    let (place, name) = read_leaf(alloc, tree)?;
    Ok(Kind { place, name })
}

/// The names that the leaves among trees are read as, in order.
fn read_side_names(alloc: Global, trees: &[Tree]) -> Result<Kinds, NoMemory>
    ensures { IfOk result (λ names. each_passes (map is_leaf names) (leaves_of trees.now) ≡ true) }
{
    let mut names = Kinds::new(alloc);
    for tree in trees {
        if !tree.is_node() {
            names.push(read_side_name(alloc, tree)?)?;
        }
    }
    Ok(names)
}

/// The pattern that a node is read as.
fn read_pattern(alloc: Global, tree: &Tree) -> Result<Pattern, NoMemory>
    requires { Fits AtomRole tree.now }
    ensures { IfOk result (λ pattern. is_pattern pattern tree.now ≡ true) }
{
    let ReadAtom {
        place,
        head,
        name,
        terms,
    } = read_atom(alloc, tree)?;
    Ok(Pattern {
        place,
        schema: Kind { place: head, name },
        terms,
    })
}

/// The patterns that the nodes among trees are read as, in order.
fn read_patterns(alloc: Global, trees: &[Tree]) -> Result<Patterns, NoMemory>
    requires { IsClean (StandsInSide trees.now) }
    ensures { IfOk result (λ patterns. each_passes (map is_pattern patterns) (nodes_of trees.now) ≡ true) }
{
    let mut patterns = Patterns::new(alloc);
    for tree in trees {
        if tree.is_node() {
            patterns.push(read_pattern(alloc, tree)?)?;
        }
    }
    Ok(patterns)
}

/// The side list that trees are read as. Trees with a fault are refused with the first one, F7 (docs/FAULTS.md). Takes
/// time and memory in the size of the trees.
pub fn read_side_list(alloc: Global, trees: &[Tree]) -> Result<Side, FrontError>
    ensures read { IfOk result (IsSideOf trees.now) }
    ensures clean { OnOk result (IsClean (StandsInSide trees.now)) }
    ensures refused { IfErr result (Refuses (IsLeastIn SideKind (StandsInSide trees.now))) }
{
    if let Some(found) = side_fault(trees) {
        return Err(FrontError::Refused(Fault {
            file: FileKind::Side,
            place: found.place,
            code: found.code,
        }));
    }
    let names = read_side_names(alloc, trees)?;
    let patterns = read_patterns(alloc, trees)?;
    Ok(Side { names, patterns })
}

/// The side list that a text is read as. A text that spells no forest is refused with its fault, F1 to F5, and one whose
/// trees have a fault with the first one, F7 (docs/FAULTS.md).
pub fn read_side(alloc: Global, b: &[u8]) -> Result<Side, FrontError>
    ensures read { IfOk result (IsSideOfText b.now) }
    ensures clean { OnOk result ((trees : List Tree) × IsReadAsForest b.now trees × IsClean (StandsInSide trees)) }
    ensures refused { IfErr result (Refuses (IsSideFault b.now)) }
{
    let trees = read_forest(alloc, FileKind::Side, b)?;
    read_side_list(alloc, trees.as_slice())
}

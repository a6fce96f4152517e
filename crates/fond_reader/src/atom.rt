//! Reading atoms that have no fault.

ghost use Rattle.fond_tree.specs.FormFaults.{Fits};
ghost use Rattle.fond_tree.specs.declared.role.Role.TheVariants.{Term as TermRole, Atom as AtomRole};
ghost use Rattle.fond_reader.specs.Bodies.{is_atom, is_term};
ghost use Rattle.fond_text.specs.Lists.{each_passes};
ghost use Rattle.std.specs.List.{AllByRecursion, AllZip};
ghost use Rattle.std.specs.Prelude.{◌≡◌, ◌∷◌, [], true, map, IfOk};

use crate::node::{head_and_rest, read_leaf};
use fond_ast::names::{ReadAtom, Term, Terms};
use fond_text::fault::NoMemory;
use fond_tree::leaves::is_variable;
use fond_tree::tree::Tree;
use std::alloc::Global;

/// The term that a leaf is read as.
pub(crate) fn read_term(alloc: Global, tree: &Tree) -> Result<Term, NoMemory>
    requires { Fits TermRole tree.now }
    ensures { IfOk result (λ term. is_term term tree.now ≡ true) }
{
    let (place, name) = read_leaf(alloc, tree)?;
    let variable = is_variable(name.bytes());
    Ok(Term {
        place,
        name,
        variable,
    })
}

/// The terms that leaves are read as, one by one.
fn read_terms(alloc: Global, trees: &[Tree]) -> Result<Terms, NoMemory>
    requires { AllByRecursion (Fits TermRole) trees.now }
    ensures { IfOk result (λ terms. each_passes (map is_term terms) trees.now ≡ true) }
{
    let mut terms = Terms::new(alloc);
    for tree in trees {
        terms.push(read_term(alloc, tree)?)?;
    }
    Ok(terms)
}

/// The atom that a node is read as.
pub(crate) fn read_atom(alloc: Global, tree: &Tree) -> Result<ReadAtom, NoMemory>
    requires { Fits AtomRole tree.now }
    ensures { IfOk result (λ atom. is_atom atom tree.now ≡ true) }
{
    let (name, terms) = head_and_rest(tree);
    let (head, name) = read_leaf(alloc, name)?;
    Ok(ReadAtom {
        place: tree.place(),
        head,
        name,
        terms: read_terms(alloc, terms)?,
    })
}

/// The atom that the only one of these trees is read as.
pub(crate) fn read_only_atom(alloc: Global, trees: &[Tree]) -> Result<ReadAtom, NoMemory>
    requires fit { AllZip Fits (AtomRole ∷ []) trees.now }
    ensures { IfOk result (λ atom. each_passes (is_atom atom ∷ []) trees.now ≡ true) }
{
    match trees {
        [tree] => read_atom(alloc, tree),
        _ => unreachable!(),
    }
}

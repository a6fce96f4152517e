//! Reading initial atoms and declared predicates that have no fault.

ghost use Rattle.fond_tree.specs.FormFaults.{Fits};
ghost use Rattle.fond_tree.specs.declared.role.Role.TheVariants.{Initial as InitialRole, Predicate as PredicateRole};
ghost use Rattle.fond_reader.specs.Bodies.{is_initial};
ghost use Rattle.fond_reader.specs.Files.{is_declared};
ghost use Rattle.fond_text.specs.Lists.{each_passes};
ghost use Rattle.std.specs.List.{AllByRecursion};
ghost use Rattle.std.specs.Prelude.{◌≡◌, true, map, IfOk};

use crate::atom::{read_atom, read_only_atom};
use crate::node::{head_and_rest, read_leaf, word_of};
use crate::typed::{Sort, read_typed};
use fond_ast::files::{Declared, DeclaredList, InitAtom, InitAtoms};
use fond_text::fault::NoMemory;
use fond_tree::leaves::is_word;
use fond_tree::tree::Tree;
use std::alloc::Global;

/// The initial atom that a tree is read as.
fn read_initial(alloc: Global, tree: &Tree) -> Result<InitAtom, NoMemory>
    requires { Fits InitialRole tree.now }
    ensures { IfOk result (λ initial. is_initial initial tree.now ≡ true) }
{
    let (head, after) = head_and_rest(tree);
    if is_word(word_of(head), b"not") {
        let atom = read_only_atom(alloc, after)?;
        return Ok(InitAtom {
            positive: false,
            atom,
        });
    }
    let atom = read_atom(alloc, tree)?;
    Ok(InitAtom {
        positive: true,
        atom,
    })
}

/// The initial atoms that trees are read as, one by one.
pub(crate) fn read_initials(alloc: Global, trees: &[Tree]) -> Result<InitAtoms, NoMemory>
    requires { AllByRecursion (Fits InitialRole) trees.now }
    ensures { IfOk result (λ init. each_passes (map is_initial init) trees.now ≡ true) }
{
    let mut init = InitAtoms::new(alloc);
    for tree in trees {
        init.push(read_initial(alloc, tree)?)?;
    }
    Ok(init)
}

/// The predicate that a tree is read as.
fn read_predicate(alloc: Global, tree: &Tree) -> Result<Declared, NoMemory>
    requires { Fits PredicateRole tree.now }
    ensures { IfOk result (λ declared. is_declared declared tree.now ≡ true) }
{
    let (head, after) = head_and_rest(tree);
    let (place, name) = read_leaf(alloc, head)?;
    let parameters = read_typed(alloc, Sort::Variables, after)?;
    Ok(Declared {
        place,
        name,
        parameters,
    })
}

/// The predicates that trees are read as, one by one.
pub(crate) fn read_predicates(alloc: Global, trees: &[Tree]) -> Result<DeclaredList, NoMemory>
    requires { AllByRecursion (Fits PredicateRole) trees.now }
    ensures { IfOk result (λ predicates. each_passes (map is_declared predicates) trees.now ≡ true) }
{
    let mut predicates = DeclaredList::new(alloc);
    for tree in trees {
        predicates.push(read_predicate(alloc, tree)?)?;
    }
    Ok(predicates)
}

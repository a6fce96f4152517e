//! Reading conditions that have no fault.

ghost use Rattle.fond_tree.specs.FormFaults.{Fits};
ghost use Rattle.fond_tree.specs.declared.role.Role.TheVariants.{Condition as ConditionRole, Variables as VariablesRole, Term as TermRole};
ghost use Rattle.fond_reader.specs.Bodies.{is_condition, is_term};
ghost use Rattle.fond_reader.specs.Typed.{is_variable_list};
ghost use Rattle.fond_text.specs.Lists.{each_passes};
ghost use Rattle.std.specs.List.{AllByRecursion, AllZip};
ghost use Rattle.std.specs.Prelude.{◌≡◌, ◌∷◌, [], true, map, IfOk, OnOk};

use crate::atom::{read_atom, read_term};
use crate::node::word_of;
use crate::typed::read_variables;
use fond_ast::names::{Term, TypedNames};
use fond_ast::syntax::Cond;
use fond_text::fault::NoMemory;
use fond_tree::leaves::is_word;
use fond_tree::tree::Tree;
use std::alloc::Global;

/// The condition that a tree is read as.
#[cycle(condition)]
pub(crate) fn read_condition(alloc: Global, tree: &Tree) -> Result<Cond, NoMemory>
    requires fits { Fits ConditionRole tree.now }
    ensures { IfOk result (λ condition. is_condition condition tree.now ≡ true) }
{
    let Tree::Node(_, members) = tree else {
        unreachable!()
    };
    let [head, after @ ..] = members.as_slice() else {
        return Ok(Cond::Truth);
    };
    let word = word_of(head);
    if is_word(word, b"and") {
        return Ok(Cond::And(read_conditions(alloc, after)?));
    }
    if is_word(word, b"or") {
        return Ok(Cond::Or(read_conditions(alloc, after)?));
    }
    if is_word(word, b"not") {
        return Ok(Cond::Not(read_only(alloc, after)?));
    }
    if is_word(word, b"imply") {
        let (part, other) = read_both(alloc, after)?;
        return Ok(Cond::Imply(part, other));
    }
    if is_word(word, b"forall") {
        let (names, part) = read_quantified(alloc, after)?;
        return Ok(Cond::Forall(names, part));
    }
    if is_word(word, b"exists") {
        let (names, part) = read_quantified(alloc, after)?;
        return Ok(Cond::Exists(names, part));
    }
    if is_word(word, b"=") {
        let (term, other) = read_two_terms(alloc, after)?;
        return Ok(Cond::Equal(term, other));
    }
    Ok(Cond::Holds(read_atom(alloc, tree)?))
}

/// The condition that a tree is read as, in a box.
#[cycle(condition)]
fn read_boxed(alloc: Global, tree: &Tree) -> Result<Box<Cond>, NoMemory>
    requires fits { Fits ConditionRole tree.now }
    ensures { IfOk result (λ part. is_condition part.value tree.now ≡ true) }
{
    let part = read_condition(alloc, tree)?;
    Ok(Box::new(alloc, part)?)
}

/// The conditions that trees are read as, one by one.
#[cycle(condition)]
fn read_conditions(alloc: Global, trees: &[Tree]) -> Result<Vec<Cond>, NoMemory>
    requires fit { AllByRecursion (Fits ConditionRole) trees.now }
    ensures { IfOk result (λ parts. each_passes (map is_condition parts.items) trees.now ≡ true) }
{
    let mut parts = Vec::with_capacity(alloc, trees.len())?;
    put_conditions(alloc, trees, &mut parts)?;
    Ok(parts)
}

/// Puts the conditions that trees are read as into an empty vector, one by one.
#[cycle(condition)]
fn put_conditions(alloc: Global, trees: &[Tree], parts: &mut Vec<Cond>) -> Result<(), NoMemory>
    requires empty { parts.old.items ≡ [] }
    requires fit { AllByRecursion (Fits ConditionRole) trees.now }
    ensures { OnOk result (each_passes (map is_condition parts.new.items) trees.now ≡ true) }
{
    for tree in trees {
        parts.push(read_condition(alloc, tree)?)?;
    }
    Ok(())
}

/// The condition that the only one of these trees is read as.
#[cycle(condition)]
fn read_only(alloc: Global, trees: &[Tree]) -> Result<Box<Cond>, NoMemory>
    requires fit { AllZip Fits (ConditionRole ∷ []) trees.now }
    ensures { IfOk result (λ part. each_passes (is_condition part.value ∷ []) trees.now ≡ true) }
{
    match trees {
        [tree] => read_boxed(alloc, tree),
        _ => unreachable!(),
    }
}

/// The conditions that these two trees are read as.
#[cycle(condition)]
fn read_both(alloc: Global, trees: &[Tree]) -> Result<(Box<Cond>, Box<Cond>), NoMemory>
    requires fit { AllZip Fits (ConditionRole ∷ ConditionRole ∷ []) trees.now }
    ensures { IfOk result (λ parts. each_passes (is_condition parts.0.value ∷ is_condition parts.1.value ∷ []) trees.now ≡ true) }
{
    match trees {
        [tree, second] => {
            let part = read_boxed(alloc, tree)?;
            let other = read_boxed(alloc, second)?;
            Ok((part, other))
        }
        _ => unreachable!(),
    }
}

/// The variables and the condition that these two trees are read as.
#[cycle(condition)]
fn read_quantified(alloc: Global, trees: &[Tree]) -> Result<(TypedNames, Box<Cond>), NoMemory>
    requires fit { AllZip Fits (VariablesRole ∷ ConditionRole ∷ []) trees.now }
    ensures { IfOk result (λ parts. each_passes (is_variable_list parts.0 ∷ is_condition parts.1.value ∷ []) trees.now ≡ true) }
{
    match trees {
        [variables, tree] => {
            let names = read_variables(alloc, variables)?;
            let part = read_boxed(alloc, tree)?;
            Ok((names, part))
        }
        _ => unreachable!(),
    }
}

/// The terms that these two trees are read as.
fn read_two_terms(alloc: Global, trees: &[Tree]) -> Result<(Term, Term), NoMemory>
    requires fit { AllZip Fits (TermRole ∷ TermRole ∷ []) trees.now }
    ensures { IfOk result (λ terms. each_passes (is_term terms.0 ∷ is_term terms.1 ∷ []) trees.now ≡ true) }
{
    match trees {
        [term, other] => Ok((read_term(alloc, term)?, read_term(alloc, other)?)),
        _ => unreachable!(),
    }
}

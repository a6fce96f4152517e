//! Reading effects that have no fault.

ghost use Rattle.fond_tree.specs.FormFaults.{Fits};
ghost use Rattle.fond_tree.specs.declared.role.Role.TheVariants.{Condition as ConditionRole, Effect as EffectRole, Variables as VariablesRole};
ghost use Rattle.fond_reader.specs.Bodies.{is_condition, is_effect};
ghost use Rattle.fond_reader.specs.Typed.{is_variable_list};
ghost use Rattle.fond_text.specs.Lists.{each_passes};
ghost use Rattle.std.specs.List.{AllByRecursion, AllZip};
ghost use Rattle.std.specs.Prelude.{◌≡◌, ◌∷◌, [], true, map, IfOk, OnOk};

use crate::atom::{read_atom, read_only_atom};
use crate::condition::read_condition;
use crate::node::word_of;
use crate::typed::read_variables;
use fond_ast::names::TypedNames;
use fond_ast::syntax::{Cond, Effect};
use fond_text::fault::NoMemory;
use fond_tree::leaves::is_word;
use fond_tree::tree::Tree;
use std::alloc::Global;

/// The effect that a tree is read as.
#[cycle(effect)]
pub(crate) fn read_effect(alloc: Global, tree: &Tree) -> Result<Effect, NoMemory>
    requires fits { Fits EffectRole tree.now }
    ensures { IfOk result (λ effect. is_effect effect tree.now ≡ true) }
{
    let Tree::Node(_, members) = tree else {
        unreachable!()
    };
    let [head, after @ ..] = members.as_slice() else {
        return Ok(Effect::Nothing);
    };
    let word = word_of(head);
    if is_word(word, b"and") {
        return Ok(Effect::And(read_effects(alloc, after)?));
    }
    if is_word(word, b"not") {
        return Ok(Effect::Delete(read_only_atom(alloc, after)?));
    }
    if is_word(word, b"forall") {
        let (names, part) = read_quantified(alloc, after)?;
        return Ok(Effect::Forall(names, part));
    }
    if is_word(word, b"when") {
        let (condition, part) = read_conditional(alloc, after)?;
        return Ok(Effect::When(condition, part));
    }
    if is_word(word, b"oneof") {
        return Ok(Effect::OneOf(read_effects(alloc, after)?));
    }
    Ok(Effect::Add(read_atom(alloc, tree)?))
}

/// The effect that a tree is read as, in a box.
#[cycle(effect)]
fn read_boxed(alloc: Global, tree: &Tree) -> Result<Box<Effect>, NoMemory>
    requires fits { Fits EffectRole tree.now }
    ensures { IfOk result (λ part. is_effect part.value tree.now ≡ true) }
{
    let part = read_effect(alloc, tree)?;
    Ok(Box::new(alloc, part)?)
}

/// The effects that trees are read as, one by one.
#[cycle(effect)]
fn read_effects(alloc: Global, trees: &[Tree]) -> Result<Vec<Effect>, NoMemory>
    requires fit { AllByRecursion (Fits EffectRole) trees.now }
    ensures { IfOk result (λ parts. each_passes (map is_effect parts.items) trees.now ≡ true) }
{
    let mut parts = Vec::with_capacity(alloc, trees.len())?;
    put_effects(alloc, trees, &mut parts)?;
    Ok(parts)
}

/// Puts the effects that trees are read as into an empty vector, one by one.
#[cycle(effect)]
fn put_effects(alloc: Global, trees: &[Tree], parts: &mut Vec<Effect>) -> Result<(), NoMemory>
    requires empty { parts.old.items ≡ [] }
    requires fit { AllByRecursion (Fits EffectRole) trees.now }
    ensures { OnOk result (each_passes (map is_effect parts.new.items) trees.now ≡ true) }
{
    for tree in trees {
        parts.push(read_effect(alloc, tree)?)?;
    }
    Ok(())
}

/// The variables and the effect that these two trees are read as.
#[cycle(effect)]
fn read_quantified(alloc: Global, trees: &[Tree]) -> Result<(TypedNames, Box<Effect>), NoMemory>
    requires fit { AllZip Fits (VariablesRole ∷ EffectRole ∷ []) trees.now }
    ensures { IfOk result (λ parts. each_passes (is_variable_list parts.0 ∷ is_effect parts.1.value ∷ []) trees.now ≡ true) }
{
    match trees {
        [variables, tree] => {
            let names = read_variables(alloc, variables)?;
            let part = read_boxed(alloc, tree)?;
            Ok((names, part))
        }
        _ => unreachable!(),
    }
}

/// The condition and the effect that these two trees are read as.
#[cycle(effect)]
fn read_conditional(alloc: Global, trees: &[Tree]) -> Result<(Cond, Box<Effect>), NoMemory>
    requires fit { AllZip Fits (ConditionRole ∷ EffectRole ∷ []) trees.now }
    ensures { IfOk result (λ parts. each_passes (is_condition parts.0 ∷ is_effect parts.1.value ∷ []) trees.now ≡ true) }
{
    match trees {
        [first, tree] => {
            let condition = read_condition(alloc, first)?;
            let part = read_boxed(alloc, tree)?;
            Ok((condition, part))
        }
        _ => unreachable!(),
    }
}

//! Reading actions that have no fault.

ghost use Rattle.fond_tree.specs.FormFaults.{Fits};
ghost use Rattle.fond_tree.specs.Words.{has_head};
ghost use Rattle.fond_tree.specs.declared.role.Role.TheVariants.{Condition as ConditionRole, DomainSection as DomainSectionRole, Effect as EffectRole, Name as NameRole, Variables as VariablesRole};
ghost use Rattle.fond_reader.specs.Files.{values, AreParameters, IsPrecondition, IsKeyedEffect, IsSchemaOf};
ghost use Rattle.fond_reader.specs.Nodes.{FitsOnce, FitsPairs};
ghost use Rattle.fond_tree.specs.Trees.{members_of};
ghost use Rattle.fond_tree.specs.declared.tree.Tree.{Tree};
ghost use Rattle.std.specs.Option.{option_copied};
ghost use Rattle.std.specs.Prelude.{◌≡◌, ◌∷◌, Some, true, codes, slice_get, IfOk};

use crate::condition::read_condition;
use crate::effect::read_effect;
use crate::node::read_leaf;
use crate::section::after;
use crate::typed::read_variables;
use fond_ast::files::Schema;
use fond_ast::names::TypedNames;
use fond_ast::syntax::{Cond, Effect};
use fond_text::fault::NoMemory;
use fond_tree::leaves::is_leaf;
use fond_tree::tree::Tree;
use std::alloc::Global;

/// The value of the first pair with this key, if there is one.
fn value_of<'a>(pairs: &'a [Tree], key: &[u8]) -> Option<&'a Tree>
    ensures { option_copied result ≡ slice_get (values key.now pairs.now) 0 }
{
    let mut rest = pairs;
    while let [one, tree, after @ ..] = rest {
        if is_leaf(one, key) {
            return Some(tree);
        }
        rest = after;
    }
    None
}

/// The parameters among pairs, or none if there are no parameters.
fn read_parameters(alloc: Global, pairs: &[Tree]) -> Result<TypedNames, NoMemory>
    requires { FitsOnce VariablesRole (values (codes ":parameters") pairs.now) }
    ensures { IfOk result (AreParameters (values (codes ":parameters") pairs.now)) }
{
    match value_of(pairs, b":parameters") {
        None => Ok(TypedNames::new(alloc)),
        Some(tree) => read_variables(alloc, tree),
    }
}

/// The precondition among pairs, or the true condition if there is none.
fn read_precondition(alloc: Global, pairs: &[Tree]) -> Result<Cond, NoMemory>
    requires { FitsOnce ConditionRole (values (codes ":precondition") pairs.now) }
    ensures { IfOk result (IsPrecondition (values (codes ":precondition") pairs.now)) }
{
    match value_of(pairs, b":precondition") {
        None => Ok(Cond::Truth),
        Some(tree) => read_condition(alloc, tree),
    }
}

/// The effect among pairs, or the empty effect if there is none.
fn read_keyed_effect(alloc: Global, pairs: &[Tree]) -> Result<Effect, NoMemory>
    requires { FitsOnce EffectRole (values (codes ":effect") pairs.now) }
    ensures { IfOk result (IsKeyedEffect (values (codes ":effect") pairs.now)) }
{
    match value_of(pairs, b":effect") {
        None => Ok(Effect::Nothing),
        Some(tree) => read_effect(alloc, tree),
    }
}

/// The precondition and the effect among pairs.
fn read_body(alloc: Global, pairs: &[Tree]) -> Result<(Cond, Effect), NoMemory>
    requires { FitsPairs pairs.now }
    ensures pre { IfOk result (λ body. IsPrecondition (values (codes ":precondition") pairs.now) body.0) }
    ensures effect { IfOk result (λ body. IsKeyedEffect (values (codes ":effect") pairs.now) body.1) }
{
    let pre = read_precondition(alloc, pairs)?;
    let effect = read_keyed_effect(alloc, pairs)?;
    Ok((pre, effect))
}

/// The schema of this name and these pairs.
fn schema_of(alloc: Global, name: &Tree, pairs: &[Tree]) -> Result<Schema, NoMemory>
    requires named { Fits NameRole name.now }
    requires pairs { FitsPairs pairs.now }
    ensures { IfOk result (λ schema. (tree head : Tree) → members_of tree ≡ Some (head ∷ name.now ∷ pairs.now) → IsSchemaOf tree schema) }
{
    let (place, name) = read_leaf(alloc, name)?;
    let parameters = read_parameters(alloc, pairs)?;
    let (pre, effect) = read_body(alloc, pairs)?;
    Ok(Schema {
        place,
        name,
        parameters,
        pre,
        effect,
    })
}

/// The schema that a section is read as.
pub(crate) fn read_action(alloc: Global, section: &Tree) -> Result<Schema, NoMemory>
    requires fits { Fits DomainSectionRole section.now }
    requires headed { has_head (codes ":action") section.now ≡ true }
    ensures { IfOk result (IsSchemaOf section.now) }
{
    match after(section) {
        [] => unreachable!(),
        [name, pairs @ ..] => schema_of(alloc, name, pairs),
    }
}

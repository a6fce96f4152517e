//! The first fault of names in conditions, effects and schemas.

ghost use Rattle.fond_ast.specs.Read.{condition_variables, effect_variables, has_few_variables, schema_variables};
ghost use Rattle.fond_text.specs.declared.code.TheConstants.{LONGEST_TEXT};
ghost use Rattle.fond_names.specs.Faults.{IsFirstIn, IsFirstWithin};
ghost use Rattle.fond_names.specs.Files.{declarations_of};
ghost use Rattle.fond_names.specs.Fits.{AreTold};
ghost use Rattle.fond_names.specs.Sites.{condition_sites, effect_sites, schema_sites, domain_sites, problem_sites, initial_sites, sites_of};
ghost use Rattle.std.specs.Prelude.{◌≡◌, ◌≤◌, ◌+◌, IfOk, OnOk, length, map, sum, true};

use crate::atoms::{Fits, atom_fault, equality_fault, list_fault};
use crate::files::Files;
use crate::scope::{Around, Variables, inside, outside};
use fond_ast::files::Schema;
use fond_ast::names::TypedNames;
use fond_ast::syntax::{Cond, Effect};
use fond_text::fault::NoMemory;
use fond_text::first::{Found, earlier};
use std::alloc::Global;

/// The first fault of names in a condition.
#[cycle(condition_fault)]
fn condition_fault(
    alloc: Global,
    files: &Files,
    condition: &Cond,
    around: &Around,
    fits: &mut Fits,
) -> Result<Option<Found>, NoMemory>
    requires few { condition_variables condition.now ≤ LONGEST_TEXT }
    requires told { AreTold (declarations_of files.now) around.now fits.old }
    ensures first { IfOk result (IsFirstIn (declarations_of files.now) (condition_sites condition.now around.now)) }
    ensures told { OnOk result (AreTold (declarations_of files.now) around.now fits.new) }
{
    match condition {
        Cond::Truth => Ok(None),
        Cond::Holds(atom) => atom_fault(alloc, files, around, fits, atom),
        Cond::Equal(term, other) => Ok(equality_fault(files, around, term, other)),
        Cond::And(parts) | Cond::Or(parts) => conditions_fault(alloc, files, parts, around, fits),
        Cond::Not(part) => condition_fault(alloc, files, part, around, fits),
        Cond::Imply(part, other) => {
            let first = condition_fault(alloc, files, part, around, fits)?;
            Ok(earlier(first, condition_fault(alloc, files, other, around, fits)?))
        }
        Cond::Forall(names, part) | Cond::Exists(names, part) => {
            quantified_fault(alloc, files, names, part, around)
        }
    }
}

/// The first fault of names in conditions.
#[cycle(condition_fault)]
fn conditions_fault(
    alloc: Global,
    files: &Files,
    conditions: &[Cond],
    around: &Around,
    fits: &mut Fits,
) -> Result<Option<Found>, NoMemory>
    requires few { sum (map condition_variables conditions.now) ≤ LONGEST_TEXT }
    requires told { AreTold (declarations_of files.now) around.now fits.old }
    ensures first { IfOk result (IsFirstIn (declarations_of files.now) (sites_of condition_sites conditions.now around.now)) }
    ensures told { OnOk result (AreTold (declarations_of files.now) around.now fits.new) }
{
    let mut first = None;
    for condition in conditions {
        first = earlier(
            first,
            condition_fault(alloc, files, condition, around, fits)?,
        );
    }
    Ok(first)
}

/// The first fault of names in the variables and the part of a quantifier.
#[cycle(condition_fault)]
fn quantified_fault(
    alloc: Global,
    files: &Files,
    names: &TypedNames,
    part: &Cond,
    around: &Around,
) -> Result<Option<Found>, NoMemory>
    requires { length names.now + condition_variables part.now ≤ LONGEST_TEXT }
    ensures { IfOk result (IsFirstWithin (declarations_of files.now) names.now (condition_sites part.now) around.now) }
{
    let variables = Variables::of(alloc, names)?;
    quantified_inside(alloc, files, &variables, part, around)
}

/// The first fault of names in these variables and the part of their quantifier.
#[cycle(condition_fault)]
fn quantified_inside(
    alloc: Global,
    files: &Files,
    variables: &Variables,
    part: &Cond,
    around: &Around,
) -> Result<Option<Found>, NoMemory>
    requires { length variables.now + condition_variables part.now ≤ LONGEST_TEXT }
    ensures { IfOk result
        (IsFirstWithin (declarations_of files.now) variables.now (condition_sites part.now) around.now) }
{
    let first = list_fault(files, variables);
    let within = inside(&*variables, &*around);
    let mut fits = Fits::new(alloc);
    let inner = condition_fault(alloc, files, part, &within, &mut fits)?;
    Ok(earlier(first, inner))
}

/// The first fault of names in an effect.
#[cycle(effect_fault)]
fn effect_fault(
    alloc: Global,
    files: &Files,
    effect: &Effect,
    around: &Around,
    fits: &mut Fits,
) -> Result<Option<Found>, NoMemory>
    requires few { effect_variables effect.now ≤ LONGEST_TEXT }
    requires told { AreTold (declarations_of files.now) around.now fits.old }
    ensures first { IfOk result (IsFirstIn (declarations_of files.now) (effect_sites effect.now around.now)) }
    ensures told { OnOk result (AreTold (declarations_of files.now) around.now fits.new) }
{
    match effect {
        Effect::Nothing => Ok(None),
        Effect::Add(atom) | Effect::Delete(atom) => atom_fault(alloc, files, around, fits, atom),
        Effect::And(parts) | Effect::OneOf(parts) => effects_fault(
            alloc, files, parts, around, fits,
        ),
        Effect::Forall(names, part) => universal_fault(alloc, files, names, part, around),
        Effect::When(condition, part) => {
            let first = condition_fault(alloc, files, condition, around, fits)?;
            Ok(earlier(first, effect_fault(alloc, files, part, around, fits)?))
        }
    }
}

/// The first fault of names in effects.
#[cycle(effect_fault)]
fn effects_fault(
    alloc: Global,
    files: &Files,
    effects: &[Effect],
    around: &Around,
    fits: &mut Fits,
) -> Result<Option<Found>, NoMemory>
    requires few { sum (map effect_variables effects.now) ≤ LONGEST_TEXT }
    requires told { AreTold (declarations_of files.now) around.now fits.old }
    ensures first { IfOk result (IsFirstIn (declarations_of files.now) (sites_of effect_sites effects.now around.now)) }
    ensures told { OnOk result (AreTold (declarations_of files.now) around.now fits.new) }
{
    let mut first = None;
    for effect in effects {
        first = earlier(first, effect_fault(alloc, files, effect, around, fits)?);
    }
    Ok(first)
}

/// The first fault of names in the variables and the part of a quantified effect.
#[cycle(effect_fault)]
fn universal_fault(
    alloc: Global,
    files: &Files,
    names: &TypedNames,
    part: &Effect,
    around: &Around,
) -> Result<Option<Found>, NoMemory>
    requires { length names.now + effect_variables part.now ≤ LONGEST_TEXT }
    ensures { IfOk result (IsFirstWithin (declarations_of files.now) names.now (effect_sites part.now) around.now) }
{
    let variables = Variables::of(alloc, names)?;
    universal_inside(alloc, files, &variables, part, around)
}

/// The first fault of names in these variables and the part of their quantifier.
#[cycle(effect_fault)]
fn universal_inside(
    alloc: Global,
    files: &Files,
    variables: &Variables,
    part: &Effect,
    around: &Around,
) -> Result<Option<Found>, NoMemory>
    requires { length variables.now + effect_variables part.now ≤ LONGEST_TEXT }
    ensures { IfOk result (IsFirstWithin (declarations_of files.now) variables.now (effect_sites part.now) around.now) }
{
    let first = list_fault(files, variables);
    let within = inside(&*variables, &*around);
    let mut fits = Fits::new(alloc);
    let inner = effect_fault(alloc, files, part, &within, &mut fits)?;
    Ok(earlier(first, inner))
}

/// The first fault of names in a schema with these parameters.
fn fault_inside(
    alloc: Global,
    files: &Files,
    schema: &Schema,
    parameters: &Variables,
) -> Result<Option<Found>, NoMemory>
    requires named { parameters.now ≡ schema.now.parameters }
    requires few { has_few_variables schema.now ≡ true }
    ensures { IfOk result (IsFirstIn (declarations_of files.now) (schema_sites schema.now)) }
{
    let list = list_fault(files, parameters);
    let outside = outside();
    let within = inside(&*parameters, &outside);
    let mut fits = Fits::new(alloc);
    let first = condition_fault(alloc, files, &schema.pre, &within, &mut fits)?;
    let body = earlier(
        first,
        effect_fault(alloc, files, &schema.effect, &within, &mut fits)?,
    );
    Ok(earlier(list, body))
}

/// The first fault of names in a schema.
fn schema_fault(alloc: Global, files: &Files, schema: &Schema) -> Result<Option<Found>, NoMemory>
    requires { has_few_variables schema.now ≡ true }
    ensures { IfOk result (IsFirstIn (declarations_of files.now) (schema_sites schema.now)) }
{
    let parameters = Variables::of(alloc, &schema.parameters)?;
    fault_inside(alloc, files, schema, &parameters)
}

/// The first fault of names in the schemas of the domain.
pub(crate) fn domain_site_fault(alloc: Global, files: &Files) -> Result<Option<Found>, NoMemory>
    ensures { IfOk result (IsFirstIn (declarations_of files.now) (domain_sites files.now.domain.now)) }
{
    let mut first = None;
    for i in 0..files.domain.schemas.len() {
        let schema = files.domain.schemas.get(i);
        first = earlier(first, schema_fault(alloc, files, schema)?);
    }
    Ok(first)
}

/// The first fault of names in the initial atoms of the problem.
fn init_fault(alloc: Global, files: &Files) -> Result<Option<Found>, NoMemory>
    ensures { IfOk result (IsFirstIn (declarations_of files.now) (initial_sites files.now.problem.now)) }
{
    let outside = outside();
    let mut fits = Fits::new(alloc);
    let mut first = None;
    for i in 0..files.problem.init.len() {
        let initial = files.problem.init.get(i);
        first = earlier(
            first,
            atom_fault(alloc, files, &outside, &mut fits, &initial.atom)?,
        );
    }
    Ok(first)
}

/// The first fault of names in the initial atoms and the goal of the problem.
pub(crate) fn problem_site_fault(alloc: Global, files: &Files) -> Result<Option<Found>, NoMemory>
    ensures { IfOk result (IsFirstIn (declarations_of files.now) (problem_sites files.now.problem.now)) }
{
    let outside = outside();
    let mut fits = Fits::new(alloc);
    let first = init_fault(alloc, files)?;
    Ok(earlier(
        first,
        condition_fault(alloc, files, &files.problem.goal, &outside, &mut fits)?,
    ))
}

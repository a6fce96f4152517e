//! Conditions with each name replaced by its number.

ghost use Rattle.fond_types.specs.Bodies.{AreNumberedConditions, AreSoundConditions, IsNumberedCondition, IsSoundCondition};
ghost use Rattle.fond_types.specs.Kept.{are_kept};
ghost use Rattle.fond_types.specs.Meanings.{meanings};
ghost use Rattle.fond_types.specs.Resolves.{are_ranges};
ghost use Rattle.std.specs.Prelude.{◌≡◌, ◌∷◌, [], IfOk, OnOk, true};

use crate::context::Context;
use crate::kept::KeptRanges;
use crate::numbered_atom::numbered_atom;
use crate::ranges::ranges_in;
use crate::terms::numbered_term;
use fond_ast::form::{LCond, Ranges};
use fond_ast::names::TypedNames;
use fond_ast::syntax::Cond;
use fond_names::scope::{Around, Variables, inside};
use fond_text::fault::NoMemory;
use std::alloc::Global;

/// A sound condition over numbers.
#[cycle(numbering_conditions)]
pub(crate) fn numbered_condition(
    alloc: Global,
    context: &Context,
    kept: &mut KeptRanges,
    condition: &Cond,
    around: &Around,
) -> Result<LCond, NoMemory>
    requires sound { IsSoundCondition context.now.files around.now condition.now }
    requires kept { are_kept context.now.files kept.old.entries.items ≡ true }
    ensures numbered { IfOk result (IsNumberedCondition context.now around.now condition.now) }
    ensures kept { OnOk result (are_kept context.now.files kept.new.entries.items ≡ true) }
{
    match condition {
        Cond::Truth => Ok(LCond::Truth),
        Cond::Holds(atom) => numbered_atom(alloc, context, around, atom).map(LCond::Holds),
        Cond::Equal(term, other) => Ok(LCond::Equal(
            numbered_term(context, around, term),
            numbered_term(context, around, other),
        )),
        Cond::And(parts) => {
            numbered_conditions(alloc, context, kept, parts, around).map(LCond::And)
        }
        Cond::Or(parts) => {
            numbered_conditions(alloc, context, kept, parts, around).map(LCond::Or)
        }
        Cond::Not(part) => numbered_boxed(alloc, context, kept, part, around).map(LCond::Not),
        Cond::Imply(part, other) => {
            let part = numbered_boxed(alloc, context, kept, part, around)?;
            let other = numbered_boxed(alloc, context, kept, other, around)?;
            Ok(LCond::Imply(part, other))
        }
        Cond::Forall(names, part) => {
            let (ranges, part) = numbered_part(alloc, context, kept, names, part, around)?;
            Ok(LCond::Forall(ranges, part))
        }
        Cond::Exists(names, part) => {
            let (ranges, part) = numbered_part(alloc, context, kept, names, part, around)?;
            Ok(LCond::Exists(ranges, part))
        }
    }
}

/// A sound condition over numbers, in a box.
#[cycle(numbering_conditions)]
pub(crate) fn numbered_boxed(
    alloc: Global,
    context: &Context,
    kept: &mut KeptRanges,
    condition: &Cond,
    around: &Around,
) -> Result<Box<LCond>, NoMemory>
    requires sound { IsSoundCondition context.now.files around.now condition.now }
    requires kept { are_kept context.now.files kept.old.entries.items ≡ true }
    ensures numbered { IfOk result (λ number. IsNumberedCondition context.now around.now condition.now number.value) }
    ensures kept { OnOk result (are_kept context.now.files kept.new.entries.items ≡ true) }
{
    let number = numbered_condition(alloc, context, kept, condition, around)?;
    Ok(Box::new(alloc, number)?)
}

/// A part of a quantifier over numbers.
#[cycle(numbering_conditions)]
fn numbered_inside(
    alloc: Global,
    context: &Context,
    kept: &mut KeptRanges,
    names: &TypedNames,
    part: &Cond,
    around: &Around,
) -> Result<Box<LCond>, NoMemory>
    requires sound { IsSoundCondition context.now.files (names.now ∷ around.now) part.now }
    requires kept { are_kept context.now.files kept.old.entries.items ≡ true }
    ensures numbered { IfOk result
        (λ made. IsNumberedCondition context.now (names.now ∷ around.now) part.now made.value) }
    ensures kept { OnOk result (are_kept context.now.files kept.new.entries.items ≡ true) }
{
    let variables = Variables::of(alloc, names)?;
    let within = inside(&variables, &*around);
    numbered_boxed(alloc, context, kept, part, &within)
}

/// The ranges of the variables of a quantifier, and its part over numbers.
#[cycle(numbering_conditions)]
fn numbered_part(
    alloc: Global,
    context: &Context,
    kept: &mut KeptRanges,
    names: &TypedNames,
    part: &Cond,
    around: &Around,
) -> Result<(Ranges, Box<LCond>), NoMemory>
    requires sound { IsSoundCondition context.now.files (names.now ∷ around.now) part.now }
    requires kept { are_kept context.now.files kept.old.entries.items ≡ true }
    ensures ranges { IfOk result (λ made. are_ranges (meanings context.now.files) names.now made.0 ≡ true) }
    ensures numbered { IfOk result
        (λ made. IsNumberedCondition context.now (names.now ∷ around.now) part.now made.1.value) }
    ensures kept { OnOk result (are_kept context.now.files kept.new.entries.items ≡ true) }
{
    let part = numbered_inside(alloc, context, kept, names, part, around)?;
    Ok((ranges_in(alloc, context, kept, names)?, part))
}

/// Sound conditions over numbers, in order.
#[cycle(numbering_conditions)]
fn numbered_conditions(
    alloc: Global,
    context: &Context,
    kept: &mut KeptRanges,
    conditions: &[Cond],
    around: &Around,
) -> Result<Vec<LCond>, NoMemory>
    requires sound { AreSoundConditions context.now.files around.now conditions.now }
    requires kept { are_kept context.now.files kept.old.entries.items ≡ true }
    ensures numbered { IfOk result (λ all. AreNumberedConditions context.now around.now conditions.now all.items) }
    ensures kept { OnOk result (are_kept context.now.files kept.new.entries.items ≡ true) }
{
    let mut all = Vec::with_capacity(alloc, conditions.len())?;
    put_conditions(alloc, context, kept, conditions, around, &mut all)?;
    Ok(all)
}

/// Puts sound conditions over numbers into an empty vector, in order.
#[cycle(numbering_conditions)]
fn put_conditions(
    alloc: Global,
    context: &Context,
    kept: &mut KeptRanges,
    conditions: &[Cond],
    around: &Around,
    all: &mut Vec<LCond>,
) -> Result<(), NoMemory>
    requires empty { all.old.items ≡ [] }
    requires sound { AreSoundConditions context.now.files around.now conditions.now }
    requires kept { are_kept context.now.files kept.old.entries.items ≡ true }
    ensures numbered { OnOk result (AreNumberedConditions context.now around.now conditions.now all.new.items) }
    ensures kept { OnOk result (are_kept context.now.files kept.new.entries.items ≡ true) }
{
    for condition in conditions {
        all.push(numbered_condition(alloc, context, kept, condition, around)?)?;
    }
    Ok(())
}

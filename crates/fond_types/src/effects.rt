//! Effects with each name replaced by its number.

ghost use Rattle.fond_types.specs.Bodies.{AreNumberedEffects, AreSoundEffects, IsNumberedEffect, IsSoundEffect};
ghost use Rattle.fond_types.specs.Kept.{are_kept};
ghost use Rattle.fond_types.specs.Meanings.{meanings};
ghost use Rattle.fond_types.specs.Resolves.{are_ranges};
ghost use Rattle.std.specs.Prelude.{◌≡◌, ◌∷◌, [], IfOk, OnOk, true};

use crate::conditions::numbered_condition;
use crate::context::Context;
use crate::kept::KeptRanges;
use crate::numbered_atom::numbered_atom;
use crate::ranges::ranges_in;
use fond_ast::form::{LEffect, Ranges};
use fond_ast::names::TypedNames;
use fond_ast::syntax::Effect;
use fond_names::scope::{Around, Variables, inside};
use fond_text::fault::NoMemory;
use std::alloc::Global;

/// A sound effect over numbers.
#[cycle(numbering_effects)]
pub(crate) fn numbered_effect(
    alloc: Global,
    context: &Context,
    kept: &mut KeptRanges,
    effect: &Effect,
    around: &Around,
) -> Result<LEffect, NoMemory>
    requires sound { IsSoundEffect context.now.files around.now effect.now }
    requires kept { are_kept context.now.files kept.old.entries.items ≡ true }
    ensures numbered { IfOk result (IsNumberedEffect context.now around.now effect.now) }
    ensures kept { OnOk result (are_kept context.now.files kept.new.entries.items ≡ true) }
{
    match effect {
        Effect::Nothing => Ok(LEffect::Nothing),
        Effect::Add(atom) => numbered_atom(alloc, context, around, atom).map(LEffect::Add),
        Effect::Delete(atom) => numbered_atom(alloc, context, around, atom).map(LEffect::Delete),
        Effect::And(parts) => {
            numbered_effects(alloc, context, kept, parts, around).map(LEffect::And)
        }
        Effect::OneOf(parts) => {
            numbered_effects(alloc, context, kept, parts, around).map(LEffect::OneOf)
        }
        Effect::Forall(names, part) => {
            let (ranges, part) = numbered_part(alloc, context, kept, names, part, around)?;
            Ok(LEffect::Forall(ranges, part))
        }
        Effect::When(condition, part) => {
            let part = numbered_boxed(alloc, context, kept, part, around)?;
            Ok(LEffect::When(
                numbered_condition(alloc, context, kept, condition, around)?,
                part,
            ))
        }
    }
}

/// A sound effect over numbers, in a box.
#[cycle(numbering_effects)]
fn numbered_boxed(
    alloc: Global,
    context: &Context,
    kept: &mut KeptRanges,
    effect: &Effect,
    around: &Around,
) -> Result<Box<LEffect>, NoMemory>
    requires sound { IsSoundEffect context.now.files around.now effect.now }
    requires kept { are_kept context.now.files kept.old.entries.items ≡ true }
    ensures numbered { IfOk result (λ number. IsNumberedEffect context.now around.now effect.now number.value) }
    ensures kept { OnOk result (are_kept context.now.files kept.new.entries.items ≡ true) }
{
    let number = numbered_effect(alloc, context, kept, effect, around)?;
    Ok(Box::new(alloc, number)?)
}

/// A part of a quantifier over numbers.
#[cycle(numbering_effects)]
fn numbered_inside(
    alloc: Global,
    context: &Context,
    kept: &mut KeptRanges,
    names: &TypedNames,
    part: &Effect,
    around: &Around,
) -> Result<Box<LEffect>, NoMemory>
    requires sound { IsSoundEffect context.now.files (names.now ∷ around.now) part.now }
    requires kept { are_kept context.now.files kept.old.entries.items ≡ true }
    ensures numbered { IfOk result
        (λ made. IsNumberedEffect context.now (names.now ∷ around.now) part.now made.value) }
    ensures kept { OnOk result (are_kept context.now.files kept.new.entries.items ≡ true) }
{
    let variables = Variables::of(alloc, names)?;
    let within = inside(&variables, &*around);
    numbered_boxed(alloc, context, kept, part, &within)
}

/// The ranges of the variables of a quantifier, and its part over numbers.
#[cycle(numbering_effects)]
fn numbered_part(
    alloc: Global,
    context: &Context,
    kept: &mut KeptRanges,
    names: &TypedNames,
    part: &Effect,
    around: &Around,
) -> Result<(Ranges, Box<LEffect>), NoMemory>
    requires sound { IsSoundEffect context.now.files (names.now ∷ around.now) part.now }
    requires kept { are_kept context.now.files kept.old.entries.items ≡ true }
    ensures ranges { IfOk result (λ made. are_ranges (meanings context.now.files) names.now made.0 ≡ true) }
    ensures numbered { IfOk result
        (λ made. IsNumberedEffect context.now (names.now ∷ around.now) part.now made.1.value) }
    ensures kept { OnOk result (are_kept context.now.files kept.new.entries.items ≡ true) }
{
    let part = numbered_inside(alloc, context, kept, names, part, around)?;
    Ok((ranges_in(alloc, context, kept, names)?, part))
}

/// Sound effects over numbers, in order.
#[cycle(numbering_effects)]
fn numbered_effects(
    alloc: Global,
    context: &Context,
    kept: &mut KeptRanges,
    effects: &[Effect],
    around: &Around,
) -> Result<Vec<LEffect>, NoMemory>
    requires sound { AreSoundEffects context.now.files around.now effects.now }
    requires kept { are_kept context.now.files kept.old.entries.items ≡ true }
    ensures numbered { IfOk result (λ all. AreNumberedEffects context.now around.now effects.now all.items) }
    ensures kept { OnOk result (are_kept context.now.files kept.new.entries.items ≡ true) }
{
    let mut all = Vec::with_capacity(alloc, effects.len())?;
    put_effects(alloc, context, kept, effects, around, &mut all)?;
    Ok(all)
}

/// Puts sound effects over numbers into an empty vector, in order.
#[cycle(numbering_effects)]
fn put_effects(
    alloc: Global,
    context: &Context,
    kept: &mut KeptRanges,
    effects: &[Effect],
    around: &Around,
    all: &mut Vec<LEffect>,
) -> Result<(), NoMemory>
    requires empty { all.old.items ≡ [] }
    requires sound { AreSoundEffects context.now.files around.now effects.now }
    requires kept { are_kept context.now.files kept.old.entries.items ≡ true }
    ensures numbered { OnOk result (AreNumberedEffects context.now around.now effects.now all.new.items) }
    ensures kept { OnOk result (are_kept context.now.files kept.new.entries.items ≡ true) }
{
    for effect in effects {
        all.push(numbered_effect(alloc, context, kept, effect, around)?)?;
    }
    Ok(())
}

//! Schemas with each name replaced by its number.

ghost use Rattle.fond_names.specs.Indexes.{HasNames};
ghost use Rattle.fond_names.specs.Names.{is_among};
ghost use Rattle.fond_names.specs.Same.{kind_names};
ghost use Rattle.fond_names.specs.Sites.{domain_sites};
ghost use Rattle.fond_types.specs.Bodies.{AreNumberedSchemas, IsNumberedBody, IsNumberedSchema, IsSoundSchema};
ghost use Rattle.fond_types.specs.Kept.{are_kept};
ghost use Rattle.fond_types.specs.Patterns.{are_filed, are_patterns_of};
ghost use Rattle.fond_types.specs.Sound.{are_sound};
ghost use Rattle.std.specs.Prelude.{◌≡◌, ◌∷◌, ◌+◌, IfOk, OnOk, true};

use crate::conditions::numbered_boxed;
use crate::context::Context;
use crate::effects::numbered_effect;
use crate::kept::KeptRanges;
use crate::patterns::taken;
use crate::ranges::ranges_in;
use fond_ast::files::Schema;
use fond_ast::form::{LCond, LEffect, LPatterns};
use fond_ast::task::{LSchema, LSchemas};
use fond_names::scope::{Variables, inside, outside};
use fond_store::index::TextIndex;
use fond_text::fault::NoMemory;
use std::alloc::Global;

/// The precondition and the effect of a sound schema with these parameters, over numbers.
fn body_inside(
    alloc: Global,
    context: &Context,
    kept: &mut KeptRanges,
    schema: &Schema,
    parameters: &Variables,
) -> Result<(Box<LCond>, LEffect), NoMemory>
    requires named { parameters.now ≡ schema.now.parameters }
    requires sound { IsSoundSchema context.now.files schema.now }
    requires kept { are_kept context.now.files kept.old.entries.items ≡ true }
    ensures numbered { IfOk result (λ body. IsNumberedBody context.now schema.now body.0.value body.1) }
    ensures kept { OnOk result (are_kept context.now.files kept.new.entries.items ≡ true) }
{
    let outside = outside();
    let within = inside(&*parameters, &outside);
    let pre = numbered_boxed(alloc, context, kept, &schema.pre, &within)?;
    let effect = numbered_effect(alloc, context, kept, &schema.effect, &within)?;
    Ok((pre, effect))
}

/// The precondition and the effect of a sound schema over numbers.
fn numbered_body(
    alloc: Global,
    context: &Context,
    kept: &mut KeptRanges,
    schema: &Schema,
) -> Result<(Box<LCond>, LEffect), NoMemory>
    requires sound { IsSoundSchema context.now.files schema.now }
    requires kept { are_kept context.now.files kept.old.entries.items ≡ true }
    ensures numbered { IfOk result (λ body. IsNumberedBody context.now schema.now body.0.value body.1) }
    ensures kept { OnOk result (are_kept context.now.files kept.new.entries.items ≡ true) }
{
    let parameters = Variables::of(alloc, &schema.parameters)?;
    body_inside(alloc, context, kept, schema, &parameters)
}

/// A sound schema over numbers, with these patterns. It is unfair if its name is among the leaves of the side list.
fn numbered_schema(
    alloc: Global,
    context: &Context,
    kept: &mut KeptRanges,
    leaves: &TextIndex,
    schema: &Schema,
    patterns: LPatterns,
) -> Result<LSchema, NoMemory>
    requires patterns { are_patterns_of context.now.files schema.now patterns ≡ true }
    requires leaves { HasNames (is_among (kind_names context.now.files.side.names)) leaves.now }
    requires sound { IsSoundSchema context.now.files schema.now }
    requires kept { are_kept context.now.files kept.old.entries.items ≡ true }
    ensures numbered { IfOk result (IsNumberedSchema context.now schema.now) }
    ensures kept { OnOk result (are_kept context.now.files kept.new.entries.items ≡ true) }
{
    let name = schema.name.copy(alloc)?;
    let unfair = leaves.find(schema.name.bytes()).is_some();
    let ranges = ranges_in(alloc, context, kept, &schema.parameters)?;
    let (pre, effect) = numbered_body(alloc, context, kept, schema)?;
    Ok(LSchema {
        place: schema.place,
        name,
        ranges,
        pre: Box::into_inner(pre),
        effect,
        unfair,
        patterns,
    })
}

/// The schemas of a sound domain over numbers, in order. Takes the list of each schema out of those that are filed.
pub(crate) fn numbered_schemas(
    alloc: Global,
    context: &Context,
    kept: &mut KeptRanges,
    leaves: &TextIndex,
    filed: &mut Vec<LPatterns>,
) -> Result<LSchemas, NoMemory>
    requires filed { are_filed context.now.files context.now.files.side.patterns filed.old.items ≡ true }
    requires leaves { HasNames (is_among (kind_names context.now.files.side.names)) leaves.now }
    requires sound { are_sound context.now.files (domain_sites context.now.files.domain) ≡ true }
    requires kept { are_kept context.now.files kept.old.entries.items ≡ true }
    ensures numbered { IfOk result (AreNumberedSchemas context.now) }
    ensures kept { OnOk result (are_kept context.now.files kept.new.entries.items ≡ true) }
{
    let domain = context.domain();
    let mut all = LSchemas::new(alloc);
    for i in 0..domain.schemas.len() {
        let schema = domain.schemas.get(i);
        let patterns = taken(alloc, filed, i);
        all.push(numbered_schema(alloc, context, kept, leaves, schema, patterns)?)?;
    }
    Ok(all)
}

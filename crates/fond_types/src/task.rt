//! The task of declarations without a fault of names.

ghost use Rattle.fond_names.specs.Faults.{StandsInNames};
ghost use Rattle.fond_names.specs.Files.{declarations_of};
ghost use Rattle.fond_names.specs.Sites.{domain_sites, problem_sites};
ghost use Rattle.fond_text.specs.Faults.{AreClean};
ghost use Rattle.fond_types.specs.Bodies.{AreNumberedSchemas, IsNumberedCondition};
ghost use Rattle.fond_types.specs.Context.{are_predicates};
ghost use Rattle.fond_types.specs.Kept.{are_kept};
ghost use Rattle.fond_types.specs.Parts.{AreParts};
ghost use Rattle.fond_types.specs.Resolves.{IsResolved};
ghost use Rattle.fond_types.specs.Sound.{are_sound};
ghost use Rattle.std.specs.Prelude.{◌≡◌, [], IfOk, OnOk, true};

use crate::conditions::numbered_condition;
use crate::context::Context;
use crate::initial::numbered_init;
use crate::kept::KeptRanges;
use crate::mentioned::mentioned;
use crate::numbered_predicates::numbered_predicates;
use crate::parts::Parts;
use crate::patterns::filed_patterns;
use crate::schemas::numbered_schemas;
use crate::table::Table;
use fond_ast::form::LCond;
use fond_ast::task::{LPredicates, LSchemas, LiftedTask};
use fond_names::files::Files;
use fond_names::predicates::index_kinds;
use fond_names::scope::outside;
use fond_store::index::TextIndex;
use fond_text::fault::NoMemory;
use std::alloc::Global;

/// A sound goal over numbers.
fn numbered_goal(alloc: Global, context: &Context, kept: &mut KeptRanges) -> Result<LCond, NoMemory>
    requires sound { are_sound context.now.files (problem_sites context.now.files.problem) ≡ true }
    requires kept { are_kept context.now.files kept.old.entries.items ≡ true }
    ensures { IfOk result (IsNumberedCondition context.now [] context.now.files.problem.goal) }
{
    let outside = outside();
    numbered_condition(alloc, context, kept, &context.problem().goal, &outside)
}

/// The schemas of sound files over numbers. Those that the side list names outside parentheses are unfair, and each has
/// the patterns that name it.
fn numbered_actions(
    alloc: Global,
    context: &Context,
    kept: &mut KeptRanges,
) -> Result<LSchemas, NoMemory>
    requires sound { are_sound context.now.files (domain_sites context.now.files.domain) ≡ true }
    requires kept { are_kept context.now.files kept.old.entries.items ≡ true }
    ensures numbered { IfOk result (AreNumberedSchemas context.now) }
    ensures kept { OnOk result (are_kept context.now.files kept.new.entries.items ≡ true) }
{
    let leaves = index_kinds(alloc, &context.table().side().names)?;
    let mut filed = filed_patterns(alloc, context.table())?;
    numbered_schemas(alloc, context, kept, &leaves, &mut filed)
}

/// The schemas, the initial atoms and the goal of sound files over numbers.
fn numbered_parts(
    alloc: Global,
    context: &Context,
    kept: &mut KeptRanges,
) -> Result<Parts, NoMemory>
    requires domain { are_sound context.now.files (domain_sites context.now.files.domain) ≡ true }
    requires problem { are_sound context.now.files (problem_sites context.now.files.problem) ≡ true }
    requires kept { are_kept context.now.files kept.old.entries.items ≡ true }
    ensures { IfOk result (AreParts context.now.files context.now.predicates) }
{
    let schemas = numbered_actions(alloc, context, kept)?;
    let init = numbered_init(alloc, context)?;
    let goal = numbered_goal(alloc, context, kept)?;
    Ok(Parts {
        schemas,
        init,
        goal,
    })
}

/// The task of a table, its predicates over numbers and its other parts.
fn assembled(table: Table, predicates: LPredicates, parts: Parts) -> LiftedTask
    requires predicates { are_predicates table predicates ≡ true }
    requires parts { AreParts table predicates parts }
    ensures { IsResolved table.entry result }
{
    let Parts {
        schemas,
        init,
        goal,
    } = parts;
    table.is_well_named();
    let place = table.domain().place;
    let objects = table.into_objects();
    LiftedTask {
        place,
        objects,
        predicates,
        schemas,
        init,
        goal,
    }
}

/// The predicates of a table over numbers.
fn flagged_predicates(
    alloc: Global,
    table: &Table,
    kept: &mut KeptRanges,
) -> Result<LPredicates, NoMemory>
    requires { are_kept table.now kept.old.entries.items ≡ true }
    ensures resolved { IfOk result (λ predicates. are_predicates table.now predicates ≡ true) }
    ensures kept { OnOk result (are_kept table.now kept.new.entries.items ≡ true) }
{
    let mentioned = mentioned(alloc, table.domain())?;
    numbered_predicates(alloc, table, kept, &mentioned)
}

/// The predicates of sound files over numbers, and the parts that are numbered after them.
fn predicates_and_parts(
    alloc: Global,
    table: &Table,
    kept: &mut KeptRanges,
) -> Result<(LPredicates, Parts), NoMemory>
    requires domain { are_sound table.now (domain_sites table.now.domain) ≡ true }
    requires problem { are_sound table.now (problem_sites table.now.problem) ≡ true }
    requires kept { are_kept table.now kept.old.entries.items ≡ true }
    ensures predicates { IfOk result (λ made. are_predicates table.now made.0 ≡ true) }
    ensures parts { IfOk result (λ made. AreParts table.now made.0 made.1) }
{
    let predicates = flagged_predicates(alloc, table, kept)?;
    let context = Context::of(table, &predicates);
    let parts = numbered_parts(alloc, &context, kept)?;
    Ok((predicates, parts))
}

/// The predicates and the other parts of sound files over numbers, with ranges that they share.
fn with_shared_ranges(alloc: Global, table: &Table) -> Result<(LPredicates, Parts), NoMemory>
    requires domain { are_sound table.now (domain_sites table.now.domain) ≡ true }
    requires problem { are_sound table.now (problem_sites table.now.problem) ≡ true }
    ensures predicates { IfOk result (λ made. are_predicates table.now made.0 ≡ true) }
    ensures parts { IfOk result (λ made. AreParts table.now made.0 made.1) }
{
    let mut kept = KeptRanges {
        entries: Vec::new(alloc),
        index: TextIndex::new(alloc),
    };
    predicates_and_parts(alloc, table, &mut kept)
}

/// The task of files without a fault of names.
pub(crate) fn numbered_task(alloc: Global, files: &Files) -> Result<LiftedTask, NoMemory>
    requires { AreClean (StandsInNames (declarations_of files.now)) }
    ensures { IfOk result (IsResolved (declarations_of files.now)) }
{
    let table = Table::of(alloc, files)?;
    let (predicates, parts) = with_shared_ranges(alloc, &table)?;
    Ok(assembled(table, predicates, parts))
}

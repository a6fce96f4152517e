//! Predicates with ranges and flags.

ghost use Rattle.fond_names.specs.Indexes.{HasNames};
ghost use Rattle.fond_types.specs.Context.{is_predicate, are_predicates};
ghost use Rattle.fond_types.specs.Kept.{are_kept};
ghost use Rattle.fond_types.specs.Meanings.{are_typed};
ghost use Rattle.fond_types.specs.Sound.{is_mentioned};
ghost use Rattle.std.specs.Prelude.{◌≡◌, IfOk, OnOk, true};

use crate::kept::KeptRanges;
use crate::ranges::ranges_of;
use crate::table::Table;
use fond_ast::files::Declared;
use fond_ast::task::{LPredicate, LPredicates};
use fond_store::index::TextIndex;
use fond_text::fault::NoMemory;
use std::alloc::Global;

/// A predicate with its ranges. It is fluent if its name is among those that effects mention.
fn numbered_predicate(
    alloc: Global,
    table: &Table,
    kept: &mut KeptRanges,
    mentioned: &TextIndex,
    declared: &Declared,
) -> Result<LPredicate, NoMemory>
    requires typed { are_typed table.now.domain.kinds declared.now.parameters ≡ true }
    requires mentioned { HasNames (is_mentioned table.now.domain) mentioned.now }
    requires kept { are_kept table.now kept.old.entries.items ≡ true }
    ensures resolved { IfOk result (λ number. is_predicate table.now declared.now number ≡ true) }
    ensures kept { OnOk result (are_kept table.now kept.new.entries.items ≡ true) }
{
    let name = declared.name.copy(alloc)?;
    let fluent = mentioned.find(declared.name.bytes()).is_some();
    Ok(LPredicate {
        name,
        ranges: ranges_of(alloc, table, kept, &declared.parameters)?,
        fluent,
    })
}

/// The predicates of a domain, each at its first declaration.
pub(crate) fn numbered_predicates(
    alloc: Global,
    table: &Table,
    kept: &mut KeptRanges,
    mentioned: &TextIndex,
) -> Result<LPredicates, NoMemory>
    requires mentioned { HasNames (is_mentioned table.now.domain) mentioned.now }
    requires kept { are_kept table.now kept.old.entries.items ≡ true }
    ensures resolved { IfOk result (λ predicates. are_predicates table.now predicates ≡ true) }
    ensures kept { OnOk result (are_kept table.now kept.new.entries.items ≡ true) }
{
    table.is_well_named();
    let names = table.predicates();
    let mut predicates = LPredicates::new(alloc);
    for i in 0..names.len() {
        match table.find_predicate(names.get(i)) {
            Some(declared) => {
                predicates.push(numbered_predicate(alloc, table, kept, mentioned, declared)?)?;
            }
            None => unreachable!(),
        }
    }
    Ok(predicates)
}

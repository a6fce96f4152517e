//! The first predicate that is declared again with other parameters.

ghost use Rattle.fond_store.specs.Texts.{number_beside};
ghost use Rattle.fond_text.specs.Firsts.{IsFirst};
ghost use Rattle.fond_names.specs.Faults.{IsRepeatedPredicate};
ghost use Rattle.fond_names.specs.Names.{is_among};
ghost use Rattle.fond_names.specs.Same.{kind_names, are_same_kinds, are_same_types, has_other_types};
ghost use Rattle.std.specs.List.{list_all};
ghost use Rattle.std.specs.Prelude.{◌≡◌, ℕ, List, IfOk, is_some};

use crate::files::Files;
use crate::index::insert_name;
use crate::lookup::find_predicate;
use fond_ast::files::Declared;
use fond_ast::names::{Kinds, TypedNames};
use fond_store::index::TextIndex;
use fond_text::code::REPEATED_NAME;
use fond_text::fault::NoMemory;
use fond_text::first::{Found, earlier, found_if};
use std::alloc::Global;

/// The names of these types, all with the number 0.
pub fn index_kinds(alloc: Global, kinds: &Kinds) -> Result<TextIndex, NoMemory>
    ensures { IfOk result (λ index. (name : List ℕ) → is_some (number_beside index name) ≡ is_among (kind_names kinds.now) name) }
{
    let mut index = TextIndex::new(alloc);
    for i in 0..kinds.len() {
        insert_name(alloc, &mut index, &kinds.get(i).name, 0)?;
    }
    Ok(index)
}

/// Whether each of these types is in an index.
fn are_indexed(index: &TextIndex, kinds: &Kinds) -> bool
    ensures { result ≡ list_all (λ kind. is_some (number_beside index.now kind.name)) kinds.now }
{
    kinds
        .as_slice()
        .iter()
        .all(|kind| index.find(kind.name.bytes()).is_some())
}

/// Whether each of these types is among others.
fn are_among(alloc: Global, kinds: &Kinds, others: &Kinds) -> Result<bool, NoMemory>
    ensures { IfOk result (λ all. all ≡ list_all (λ kind. is_among (kind_names others.now) kind.name) kinds.now) }
{
    let index = index_kinds(alloc, others)?;
    Ok(are_indexed(&index, kinds))
}

/// Whether two lists of types have the same members.
fn are_same_kinds(alloc: Global, one: &Kinds, other: &Kinds) -> Result<bool, NoMemory>
    ensures { IfOk result (λ same. same ≡ are_same_kinds one.now other.now) }
{
    Ok(are_among(alloc, one, other)? && are_among(alloc, other, one)?)
}

/// Whether two lists have as many variables, of the same types place by place.
fn are_same_types(alloc: Global, ones: &TypedNames, others: &TypedNames) -> Result<bool, NoMemory>
    ensures { IfOk result (λ same. same ≡ are_same_types ones.now others.now) }
{
    if ones.len() != others.len() {
        return Ok(false);
    }
    for i in 0..ones.len() {
        if !are_same_kinds(alloc, &ones.get(i).kinds, &others.get(i).kinds)? {
            return Ok(false);
        }
    }
    Ok(true)
}

/// Whether the first declaration of a predicate has other parameters than this one.
fn is_redeclared(alloc: Global, files: &Files, declared: &Declared) -> Result<bool, NoMemory>
    ensures { IfOk result (λ again. again ≡ has_other_types files.now.domain.now declared.now) }
{
    match find_predicate(files, &declared.name) {
        Some(first) => Ok(!are_same_types(alloc, &first.parameters, &declared.parameters)?),
        None => Ok(false),
    }
}

/// The first predicate that is declared again with other parameters than at first.
pub(crate) fn redeclared_predicate(alloc: Global, files: &Files) -> Result<Option<Found>, NoMemory>
    ensures { IfOk result (IsFirst (IsRepeatedPredicate files.now.domain.now.predicates)) }
{
    let mut first = None;
    for i in 0..files.domain.predicates.len() {
        let declared = files.domain.predicates.get(i);
        let again = is_redeclared(alloc, files, declared)?;
        first = earlier(first, found_if(again, declared.place, REPEATED_NAME));
    }
    Ok(first)
}

//! The patterns of the side list with each name replaced by its number, filed by schema in one pass. A variable has the
//! position where it occurs first in its pattern, which an index finds.

ghost use Rattle.fond_types.specs.Meanings.{meanings};
ghost use Rattle.fond_names.specs.Unknown.{is_sound_term};
ghost use Rattle.fond_types.specs.Patterns.{are_filed, are_pattern_terms, HasPlaces, is_of_schema, is_sound_pattern, InsertsVariable};
ghost use Rattle.fond_types.specs.Resolves.{is_pattern, is_pattern_term};
ghost use Rattle.std.specs.List.{list_all};
ghost use Rattle.std.specs.Prelude.{◌≡◌, ◌<◌, ◌+◌, ◌^◌, ◌∷◌, [], IfOk, IfSome, OnOk, drop, length, slice_get, take, true, vec_len};

use crate::table::Table;
use fond_ast::files::Pattern;
use fond_ast::form::{LPattern, LPatterns, LTerm};
use fond_ast::names::{Term, Terms};
use fond_names::index::insert_name;
use fond_store::index::TextIndex;
use fond_text::fault::NoMemory;
use std::alloc::Global;
use std::mem;

/// Gives a variable a number, unless it has one. Other terms are passed over.
fn add_variable(
    alloc: Global,
    places: &mut TextIndex,
    term: &Term,
    number: u32,
) -> Result<(), NoMemory>
    ensures { OnOk result (InsertsVariable places.old term.now number places.new) }
{
    if !term.variable {
        return Ok(());
    }
    insert_name(alloc, places, &term.name, number)
}

/// The first positions of the variables of a pattern.
fn places_of(alloc: Global, terms: &Terms) -> Result<TextIndex, NoMemory>
    requires { length terms.now < 2 ^ 32 }
    ensures { IfOk result (HasPlaces terms.now) }
{
    let mut places = TextIndex::new(alloc);
    for i in 0..terms.len() {
        add_variable(alloc, &mut places, terms.get(i), i as u32)?;
    }
    Ok(places)
}

/// The term of a pattern at an index, over numbers.
fn numbered_at(table: &Table, places: &TextIndex, terms: &Terms, i: usize) -> LTerm
    requires within { i < length terms.now }
    requires places { HasPlaces terms.now places.now }
    requires sound { list_all (is_sound_term table.now) terms.now ≡ true }
    ensures { IfSome (slice_get terms.now i)
        (λ one. is_pattern_term (meanings table.now) terms.now one result ≡ true) }
{
    let term = terms.get(i);
    if term.variable {
        match places.find(term.name.bytes()) {
            Some(at) => LTerm::Variable(at),
            None => unreachable!(),
        }
    } else {
        match table.object_number(&term.name) {
            Some(number) => LTerm::Object(number),
            None => unreachable!(),
        }
    }
}

/// The terms of a pattern over numbers, in order.
fn placed_terms(
    alloc: Global,
    table: &Table,
    places: &TextIndex,
    terms: &Terms,
) -> Result<LPattern, NoMemory>
    requires places { HasPlaces terms.now places.now }
    requires sound { list_all (is_sound_term table.now) terms.now ≡ true }
    ensures { IfOk result (λ numbers. are_pattern_terms table.now terms.now numbers ≡ true) }
{
    let mut numbers = LPattern::new(alloc);
    for i in 0..terms.len() {
        numbers.push(numbered_at(table, places, terms, i))?;
    }
    Ok(numbers)
}

/// A sound pattern over numbers. Takes time linear in its terms.
fn numbered_pattern(alloc: Global, table: &Table, pattern: &Pattern) -> Result<LPattern, NoMemory>
    requires { is_sound_pattern table.now pattern.now ≡ true }
    ensures { IfOk result (λ numbers. is_pattern (meanings table.now) pattern.now numbers ≡ true) }
{
    let places = places_of(alloc, &pattern.terms)?;
    placed_terms(alloc, table, &places, &pattern.terms)
}

/// The position of the schema that a sound pattern names.
fn schema_position(table: &Table, pattern: &Pattern) -> usize
    requires { is_sound_pattern table.now pattern.now ≡ true }
    ensures within { result < length table.now.domain.schemas }
    ensures named { IfSome (slice_get table.now.domain.schemas result)
        (λ schema. is_of_schema pattern.now schema ≡ true) }
{
    match table.schema_position(&pattern.schema.name) {
        Some(at) => at as usize,
        None => unreachable!(),
    }
}

/// Files the pattern of the side list at an index after those before it.
fn file_pattern(
    alloc: Global,
    table: &Table,
    filed: &mut Vec<LPatterns>,
    i: usize,
) -> Result<(), NoMemory>
    requires within { i < length table.now.side.patterns }
    requires filed { are_filed table.now (take i table.now.side.patterns) filed.old.items ≡ true }
    ensures { OnOk result (are_filed table.now (take (i + 1) table.now.side.patterns) filed.new.items ≡ true) }
{
    table.is_well_named();
    let pattern = table.side().patterns.get(i);
    let numbers = numbered_pattern(alloc, table, pattern)?;
    let at = schema_position(table, pattern);
    filed[at].push(numbers)
}

/// Files the patterns of the side list in empty lists, one for each schema.
fn file_patterns(alloc: Global, table: &Table, filed: &mut Vec<LPatterns>) -> Result<(), NoMemory>
    requires { are_filed table.now [] filed.old.items ≡ true }
    ensures { OnOk result (are_filed table.now table.now.side.patterns filed.new.items ≡ true) }
{
    for i in 0..table.side().patterns.len() {
        file_pattern(alloc, table, filed, i)?;
    }
    Ok(())
}

/// An empty list of patterns for each schema.
fn empty_lists(alloc: Global, table: &Table) -> Result<Vec<LPatterns>, NoMemory>
    ensures { IfOk result (λ filed. are_filed table.now [] filed.items ≡ true) }
{
    let mut filed = Vec::new(alloc);
    for _i in 0..table.domain().schemas.len() {
        filed.push(LPatterns::new(alloc))?;
    }
    Ok(filed)
}

/// The patterns of the side list over numbers: for each schema those that name it, in order. Takes time linear in the
/// schemas and the terms of the patterns.
pub(crate) fn filed_patterns(alloc: Global, table: &Table) -> Result<Vec<LPatterns>, NoMemory>
    ensures { IfOk result (λ filed. are_filed table.now table.now.side.patterns filed.items ≡ true) }
{
    let mut filed = empty_lists(alloc, table)?;
    file_patterns(alloc, table, &mut filed)?;
    Ok(filed)
}

/// Takes out the list of patterns at an index.
pub(crate) fn taken(alloc: Global, filed: &mut Vec<LPatterns>, i: usize) -> LPatterns
    requires { i < vec_len filed.old }
    ensures { drop i filed.old.items ≡ result ∷ drop (i + 1) filed.new.items }
{
    mem::replace(&mut filed[i], LPatterns::new(alloc))
}

//! The ranges of variables. The range of some types is computed once and shared, at the cost of a look at each object.

ghost use Rattle.fond_ast.specs.declared.names.TypedName.{TypedName};
ghost use Rattle.fond_kinds.specs.Kinds.{are_types};
ghost use Rattle.fond_names.specs.Names.{objects_declared};
ghost use Rattle.fond_names.specs.Same.{kind_names};
ghost use Rattle.fond_types.specs.Kept.{is_of, range_by, are_kept, IsKeptFor, Keeps};
ghost use Rattle.fond_types.specs.Meanings.{meanings, are_typed};
ghost use Rattle.fond_types.specs.Resolves.{are_ranges};
ghost use Rattle.std.specs.Option.{option_copied};
ghost use Rattle.std.specs.Prelude.{◌≡◌, ◌<◌, [], IfOk, IfSome, OnOk, Some, length, slice_get, true};

use crate::context::Context;
use crate::kept::{Kept, KeptRanges};
use crate::table::Table;
use fond_ast::form::{Range, Ranges};
use fond_ast::names::{Kind, Kinds, TypedNames};
use fond_names::types::is_below_some;
use fond_store::index::TextIndex;
use fond_text::atom::Objects;
use fond_text::fault::NoMemory;
use fond_text::name::Names;
use std::alloc::Global;
use std::rc::Rc;

/// Whether the object of a number is of one of some types.
fn is_in_range(table: &Table, i: usize, kinds: &Kinds) -> bool
    requires typed { are_types table.now.domain.kinds kinds.now ≡ true }
    requires there { i < length (meanings table.now).objects }
    ensures { (object : TypedName) → slice_get (objects_declared table.now) i ≡ Some object
        → result ≡ is_of table.now.domain.kinds (kind_names kinds.now) object }
{
    table.is_well_named();
    let names = table.objects();
    match table.find_object(names.get(i)) {
        Some(object) => is_below_some(table.types(), &object.kinds.get(0).name, kinds),
        None => false,
    }
}

/// The objects whose type is below one of some types, in order.
fn made_range(alloc: Global, table: &Table, kinds: &Kinds) -> Result<Objects, NoMemory>
    requires { are_types table.now.domain.kinds kinds.now ≡ true }
    ensures { IfOk result (λ range. range ≡ range_by table.now (kind_names kinds.now)) }
{
    let mut range = Objects::new(alloc);
    for i in 0..table.objects().len() {
        if is_in_range(table, i, kinds) {
            range.push(i as u32)?;
        }
    }
    Ok(range)
}

/// The names of some types.
fn names_of(alloc: Global, kinds: &Kinds) -> Result<Names, NoMemory>
    ensures { IfOk result (λ names. names ≡ kind_names kinds.now) }
{
    let mut names = Names::new(alloc);
    for i in 0..kinds.len() {
        names.push(kinds.get(i).name.copy(alloc)?)?;
    }
    Ok(names)
}

/// Whether these are the names of some types.
fn are_names_of(names: &Names, kinds: &Kinds) -> bool
    ensures { result ≡ true → names.now ≡ kind_names kinds.now }
{
    if names.len() != kinds.len() {
        return false;
    }
    for i in 0..names.len() {
        if names.get(i).bytes() != kinds.get(i).name.bytes() {
            return false;
        }
    }
    true
}

/// Puts the name of a type and a blank at the end of a text.
fn put_kind(key: &mut Vec<u8>, kind: &Kind) -> Result<(), NoMemory> {
    key.extend_from_slice(kind.name.bytes())?;
    key.push(b' ')?;
    Ok(())
}

/// The names of some types as one text, in which blanks separate them.
fn key_of(alloc: Global, kinds: &Kinds) -> Result<Vec<u8>, NoMemory> {
    let mut key = Vec::new(alloc);
    for kind in kinds.as_slice() {
        put_kind(&mut key, kind)?;
    }
    Ok(key)
}

/// A range of these types that is kept.
fn find_kept<'k>(kept: &'k KeptRanges, key: &[u8], kinds: &Kinds) -> Option<&'k Kept>
    ensures { IfSome (option_copied result) (IsKeptFor kept.now.entries.items (kind_names kinds.now)) }
{
    let at = kept.index.find(key)? as usize;
    let entry = kept.entries.get(at)?;
    if are_names_of(&entry.kinds, kinds) {
        Some(entry)
    } else {
        None
    }
}

/// Keeps a range, unless 2^32 are kept.
fn keep(kept: &mut KeptRanges, key: Vec<u8>, entry: Kept) -> Result<(), NoMemory>
    ensures { OnOk result (Keeps kept.old.entries.items kept.new.entries.items entry.kinds entry.range.value) }
{
    if let Ok(at) = u32::try_from(kept.entries.len()) {
        kept.index.insert(key, at)?;
        kept.entries.push(entry)?;
    }
    Ok(())
}

/// A range with the names of its types.
fn entry_of(alloc: Global, kinds: &Kinds, range: &Range) -> Result<Kept, NoMemory>
    ensures kinds { IfOk result (λ entry. entry.kinds ≡ kind_names kinds.now) }
    ensures range { IfOk result (λ entry. entry.range.value ≡ range.now.value) }
{
    let kinds = names_of(alloc, kinds)?;
    Ok(Kept {
        kinds,
        range: range.clone()?,
    })
}

/// Keeps the range of some types, unless 2^32 are kept.
fn keep_range(
    alloc: Global,
    kept: &mut KeptRanges,
    key: Vec<u8>,
    kinds: &Kinds,
    range: &Range,
) -> Result<(), NoMemory>
    ensures { OnOk result (Keeps kept.old.entries.items kept.new.entries.items (kind_names kinds.now) range.now.value) }
{
    let entry = entry_of(alloc, kinds, range)?;
    keep(kept, key, entry)
}

/// The range of some types, to be shared.
fn shared_range(alloc: Global, table: &Table, kinds: &Kinds) -> Result<Range, NoMemory>
    requires { are_types table.now.domain.kinds kinds.now ≡ true }
    ensures { IfOk result (λ range. range.value ≡ range_by table.now (kind_names kinds.now)) }
{
    let range = made_range(alloc, table, kinds)?;
    Ok(Rc::new(alloc, range)?)
}

/// The range of some types, which is computed and then kept.
fn new_range(
    alloc: Global,
    table: &Table,
    kept: &mut KeptRanges,
    key: Vec<u8>,
    kinds: &Kinds,
) -> Result<Range, NoMemory>
    requires typed { are_types table.now.domain.kinds kinds.now ≡ true }
    requires sound { are_kept table.now kept.old.entries.items ≡ true }
    ensures range { IfOk result (λ range. range.value ≡ range_by table.now (kind_names kinds.now)) }
    ensures sound { OnOk result (are_kept table.now kept.new.entries.items ≡ true) }
{
    let range = shared_range(alloc, table, kinds)?;
    keep_range(alloc, kept, key, kinds, &range)?;
    Ok(range)
}

/// The range of some types, which is kept.
fn range_of(
    alloc: Global,
    table: &Table,
    kept: &mut KeptRanges,
    kinds: &Kinds,
) -> Result<Range, NoMemory>
    requires typed { are_types table.now.domain.kinds kinds.now ≡ true }
    requires sound { are_kept table.now kept.old.entries.items ≡ true }
    ensures range { IfOk result (λ range. range.value ≡ (meanings table.now).range kinds.now) }
    ensures sound { OnOk result (are_kept table.now kept.new.entries.items ≡ true) }
{
    let key = key_of(alloc, kinds)?;
    if let Some(entry) = find_kept(kept, &key, kinds) {
        return Ok(entry.range.clone()?);
    }
    new_range(alloc, table, kept, key, kinds)
}

/// Puts the ranges of some names at the end of an empty list, in order.
fn put_ranges(
    alloc: Global,
    table: &Table,
    kept: &mut KeptRanges,
    names: &TypedNames,
    ranges: &mut Ranges,
) -> Result<(), NoMemory>
    requires empty { ranges.old ≡ [] }
    requires typed { are_typed table.now.domain.kinds names.now ≡ true }
    requires sound { are_kept table.now kept.old.entries.items ≡ true }
    ensures ranges { OnOk result (are_ranges (meanings table.now) names.now ranges.new ≡ true) }
    ensures sound { OnOk result (are_kept table.now kept.new.entries.items ≡ true) }
{
    for i in 0..names.len() {
        ranges.push(range_of(alloc, table, kept, &names.get(i).kinds)?)?;
    }
    Ok(())
}

/// The ranges of some names, in order.
pub(crate) fn ranges_of(
    alloc: Global,
    table: &Table,
    kept: &mut KeptRanges,
    names: &TypedNames,
) -> Result<Ranges, NoMemory>
    requires typed { are_typed table.now.domain.kinds names.now ≡ true }
    requires sound { are_kept table.now kept.old.entries.items ≡ true }
    ensures ranges { IfOk result (λ ranges. are_ranges (meanings table.now) names.now ranges ≡ true) }
    ensures sound { OnOk result (are_kept table.now kept.new.entries.items ≡ true) }
{
    let mut ranges = Ranges::new(alloc);
    put_ranges(alloc, table, kept, names, &mut ranges)?;
    Ok(ranges)
}

/// The ranges of some names in a context, in order.
pub(crate) fn ranges_in(
    alloc: Global,
    context: &Context,
    kept: &mut KeptRanges,
    names: &TypedNames,
) -> Result<Ranges, NoMemory>
    requires typed { are_typed context.now.files.domain.kinds names.now ≡ true }
    requires sound { are_kept context.now.files kept.old.entries.items ≡ true }
    ensures ranges { IfOk result (λ ranges. are_ranges (meanings context.now.files) names.now ranges ≡ true) }
    ensures sound { OnOk result (are_kept context.now.files kept.new.entries.items ≡ true) }
{
    ranges_of(alloc, context.table(), kept, names)
}

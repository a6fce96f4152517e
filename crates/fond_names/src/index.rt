//! Indexes from names to the positions of their first declarations.

ghost use Rattle.fond_store.specs.Texts.{InsertsText};
ghost use Rattle.fond_text.specs.declared.code.TheConstants.{LONGEST_TEXT};
ghost use Rattle.fond_names.specs.Indexes.{IsIndex};
ghost use Rattle.std.specs.Prelude.{◌≡◌, ◌≤◌, ◌<◌, ◌+◌, ◌++◌, IfOk, OnOk, Some, length, slice_get};

use fond_ast::files::{DeclaredList, Schemas};
use fond_ast::names::{TypedName, TypedNames};
use fond_store::index::TextIndex;
use fond_text::fault::NoMemory;
use fond_text::name::Name;
use std::alloc::Global;

/// Gives a name a number, unless it has one.
pub fn insert_name(
    alloc: Global,
    index: &mut TextIndex,
    name: &Name,
    number: u32,
) -> Result<(), NoMemory>
    ensures { OnOk result (InsertsText index.old name.now number index.new) }
{
    let text = Vec::from_slice(alloc, name.bytes())?;
    index.insert(text, number)
}

/// An index of predicates.
pub(crate) fn index_predicates(
    alloc: Global,
    predicates: &DeclaredList,
) -> Result<TextIndex, NoMemory>
    requires { length predicates.now ≤ LONGEST_TEXT }
    ensures { IfOk result (λ index. IsIndex (λ predicate. predicate.name) index predicates.now) }
{
    let mut index = TextIndex::new(alloc);
    for i in 0..predicates.len() {
        insert_name(alloc, &mut index, &predicates.get(i).name, i as u32)?;
    }
    Ok(index)
}

/// An index of schemas.
pub(crate) fn index_schemas(alloc: Global, schemas: &Schemas) -> Result<TextIndex, NoMemory>
    requires { length schemas.now ≤ LONGEST_TEXT }
    ensures { IfOk result (λ index. IsIndex (λ schema. schema.name) index schemas.now) }
{
    let mut index = TextIndex::new(alloc);
    for i in 0..schemas.len() {
        insert_name(alloc, &mut index, &schemas.get(i).name, i as u32)?;
    }
    Ok(index)
}

/// An index of the variables of one list.
pub(crate) fn index_variables(alloc: Global, names: &TypedNames) -> Result<TextIndex, NoMemory>
    requires { length names.now ≤ LONGEST_TEXT }
    ensures { IfOk result (λ index. IsIndex (λ name. name.name) index names.now) }
{
    let mut index = TextIndex::new(alloc);
    for i in 0..names.len() {
        insert_name(alloc, &mut index, &names.get(i).name, i as u32)?;
    }
    Ok(index)
}

/// The item of this index in two lists, one after the other.
pub fn joined_get<'a>(names: &'a TypedNames, others: &'a TypedNames, i: usize) -> &'a TypedName
    requires { i < length names.now + length others.now }
    ensures { slice_get (names.now ++ others.now) i ≡ Some result.now }
{
    let count = names.len();
    if i < count {
        names.get(i)
    } else {
        others.get(i - count)
    }
}

/// An index of the objects of two lists, one after the other.
pub(crate) fn index_objects(
    alloc: Global,
    constants: &TypedNames,
    objects: &TypedNames,
) -> Result<TextIndex, NoMemory>
    requires constants { length constants.now ≤ LONGEST_TEXT }
    requires objects { length objects.now ≤ LONGEST_TEXT }
    ensures { IfOk result (λ index. IsIndex (λ name. name.name) index (constants.now ++ objects.now)) }
{
    let mut index = TextIndex::new(alloc);
    for i in 0..constants.len() + objects.len() {
        insert_name(
            alloc,
            &mut index,
            &joined_get(constants, objects, i).name,
            i as u32,
        )?;
    }
    Ok(index)
}

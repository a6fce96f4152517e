//! The first type that is not declared.

ghost use Rattle.fond_text.specs.Firsts.{IsFirst};
ghost use Rattle.fond_names.specs.Faults.{HasUnknownType, HasUnknownParameter};
ghost use Rattle.fond_names.specs.Files.{declarations_of};
ghost use Rattle.fond_names.specs.Unknown.{IsUnknownType};

use crate::files::Files;
use crate::types::is_type;
use fond_ast::names::{Kinds, TypedNames};
use fond_kinds::table::TypeTable;
use fond_text::code::UNKNOWN_TYPE;
use fond_text::first::{Found, earlier, found_if};

/// The first of some types that is not declared.
fn unknown_kind(types: &TypeTable, kinds: &Kinds) -> Option<Found>
    ensures { IsFirst (IsUnknownType types.now.types.now kinds.now) result }
{
    let mut first = None;
    for i in 0..kinds.len() {
        let kind = kinds.get(i);
        let unknown = !is_type(types, &kind.name);
        first = earlier(first, found_if(unknown, kind.place, UNKNOWN_TYPE));
    }
    first
}

/// The first type of some names that is not declared.
pub(crate) fn unknown_type(types: &TypeTable, names: &TypedNames) -> Option<Found>
    ensures { IsFirst (HasUnknownType types.now.types.now names.now) result }
{
    let mut first = None;
    for i in 0..names.len() {
        first = earlier(first, unknown_kind(types, &names.get(i).kinds));
    }
    first
}

/// The first type of a parameter of some predicate that is not declared.
pub(crate) fn unknown_parameter(files: &Files) -> Option<Found>
    ensures { IsFirst (HasUnknownParameter (declarations_of files.now)) result }
{
    let mut first = None;
    for i in 0..files.domain.predicates.len() {
        let parameters = &files.domain.predicates.get(i).parameters;
        first = earlier(first, unknown_type(&files.types, parameters));
    }
    first
}

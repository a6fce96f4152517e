//! The first constant or object that is declared again with another type.

ghost use Rattle.fond_kinds.specs.Kinds.{only_kind};
ghost use Rattle.fond_names.specs.Faults.{IsFirstRepeated};
ghost use Rattle.fond_names.specs.Files.{declarations_of};
ghost use Rattle.fond_names.specs.Names.{all_objects};
ghost use Rattle.fond_names.specs.Same.{has_other_kind};
ghost use Rattle.std.specs.Prelude.{◌≡◌};

use crate::files::Files;
use crate::lookup::find_object;
use fond_ast::names::{TypedName, TypedNames};
use fond_text::code::REPEATED_NAME;
use fond_text::first::{Found, earlier, found_if};

/// The first type of a declared name.
fn first_kind(declared: &TypedName) -> &[u8]
    ensures { result.now ≡ only_kind declared.now }
{
    match declared.kinds.as_slice() {
        [] => b"object",
        [kind, ..] => kind.name.bytes(),
    }
}

/// Whether the first declaration of an object has another type than this one.
fn is_redeclared(files: &Files, declared: &TypedName) -> bool
    ensures { result ≡ has_other_kind (declarations_of files.now) declared.now }
{
    match find_object(files, &declared.name) {
        Some(first) => first_kind(first) != first_kind(declared),
        None => false,
    }
}

/// The first of these objects that is declared again with another type than at first. Other objects may come before and
/// after them.
pub(crate) fn redeclared_object(files: &Files, objects: &TypedNames) -> Option<Found>
    ensures { IsFirstRepeated (all_objects (declarations_of files.now)) objects.now result }
{
    let mut first = None;
    for i in 0..objects.len() {
        let object = objects.get(i);
        let again = is_redeclared(files, object);
        first = earlier(first, found_if(again, object.place, REPEATED_NAME));
    }
    first
}

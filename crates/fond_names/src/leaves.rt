//! The first leaf of the side list that should name a schema and names none.

ghost use Rattle.fond_text.specs.Firsts.{IsFirst};
ghost use Rattle.fond_names.specs.Faults.{IsUnknownSchema};
ghost use Rattle.fond_names.specs.Names.{front_leaves, is_among, schema_leaves, schema_names};
ghost use Rattle.std.specs.Prelude.{◌≡◌, not};

use crate::files::Files;
use fond_text::code::UNKNOWN_SCHEMA;
use fond_text::first::{Found, earlier, found_if};
use fond_text::name::Name;

/// Whether a name is that of no schema.
fn is_unknown(files: &Files, name: &Name) -> bool
    ensures { result ≡ not (is_among (schema_names files.now.domain.now) name.now) }
{
    files.schemas.find(name.bytes()).is_none()
}

/// The first leaf outside parentheses that names no schema.
fn unknown_outside(files: &Files) -> Option<Found>
    ensures { IsFirst (IsUnknownSchema (schema_names files.now.domain.now) files.now.side.now.names) result }
{
    let mut first = None;
    for i in 0..files.side.names.len() {
        let leaf = files.side.names.get(i);
        let unknown = is_unknown(files, &leaf.name);
        first = earlier(first, found_if(unknown, leaf.place, UNKNOWN_SCHEMA));
    }
    first
}

/// The first member at the front of a pattern that names no schema.
fn unknown_in_front(files: &Files) -> Option<Found>
    ensures { IsFirst (IsUnknownSchema (schema_names files.now.domain.now) (front_leaves files.now.side.now)) result }
{
    let mut first = None;
    for i in 0..files.side.patterns.len() {
        let leaf = &files.side.patterns.get(i).schema;
        let unknown = is_unknown(files, &leaf.name);
        first = earlier(first, found_if(unknown, leaf.place, UNKNOWN_SCHEMA));
    }
    first
}

/// The first leaf that should name a schema and names none.
pub(crate) fn unknown_schema(files: &Files) -> Option<Found>
    ensures { IsFirst (IsUnknownSchema (schema_names files.now.domain.now) (schema_leaves files.now.side.now)) result }
{
    let outside = unknown_outside(files);
    earlier(outside, unknown_in_front(files))
}

//! The first fault of names in the terms of the patterns of the side list.

ghost use Rattle.fond_text.specs.Firsts.{IsFirst};
ghost use Rattle.fond_names.specs.Faults.{HasWrongCount, HasUnknownObject, HasFaultyPattern, IsFaultyPattern};
ghost use Rattle.fond_names.specs.Files.{declarations_of};
ghost use Rattle.fond_names.specs.Unknown.{is_sound_term};
ghost use Rattle.std.specs.Prelude.{◌≡◌, not};

use crate::files::Files;
use crate::lookup::{find_object, find_schema};
use fond_ast::files::Pattern;
use fond_ast::names::Term;
use fond_text::code::{UNKNOWN_TERM, WRONG_ARITY};
use fond_text::first::{Found, earlier, found_if};

/// Whether a term of a pattern is a name that no object has.
fn is_unknown(files: &Files, term: &Term) -> bool
    ensures { result ≡ not (is_sound_term (declarations_of files.now) term.now) }
{
    !term.variable && find_object(files, &term.name).is_none()
}

/// The first name among the terms of a pattern that no object has.
fn unknown_object(files: &Files, pattern: &Pattern) -> Option<Found>
    ensures { IsFirst (HasUnknownObject (declarations_of files.now) pattern.now) result }
{
    let mut first = None;
    for i in 0..pattern.terms.len() {
        let term = pattern.terms.get(i);
        let unknown = is_unknown(files, term);
        first = earlier(first, found_if(unknown, term.place, UNKNOWN_TERM));
    }
    first
}

/// A pattern, if its schema is known and has another number of parameters than the pattern has terms.
fn wrong_count(files: &Files, pattern: &Pattern) -> Option<Found>
    ensures { IsFirst (HasWrongCount files.now.domain.now pattern.now) result }
{
    match find_schema(files, &pattern.schema.name) {
        Some(schema) => {
            let wrong = pattern.terms.len() != schema.parameters.len();
            found_if(wrong, pattern.place, WRONG_ARITY)
        }
        None => None,
    }
}

/// The first fault of names in the terms of a pattern.
fn pattern_fault(files: &Files, pattern: &Pattern) -> Option<Found>
    ensures { IsFirst (IsFaultyPattern (declarations_of files.now) pattern.now) result }
{
    let count = wrong_count(files, pattern);
    earlier(count, unknown_object(files, pattern))
}

/// The first fault of names in the terms of all patterns.
pub(crate) fn faulty_pattern(files: &Files) -> Option<Found>
    ensures { IsFirst (HasFaultyPattern (declarations_of files.now)) result }
{
    let mut first = None;
    for i in 0..files.side.patterns.len() {
        first = earlier(first, pattern_fault(files, files.side.patterns.get(i)));
    }
    first
}

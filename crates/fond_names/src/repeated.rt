//! Names that occur again: schemas, and variables of one list.

ghost use Rattle.fond_text.specs.Firsts.{IsFirst};
ghost use Rattle.fond_names.specs.Faults.{IsRepeatedSchema, IsRepeatedVariable};
ghost use Rattle.std.specs.Option.{option_map_or};
ghost use Rattle.std.specs.Prelude.{◌≡◌, false, nat_eq, not};

use crate::files::Files;
use crate::scope::Variables;
use fond_text::code::REPEATED_NAME;
use fond_text::first::{Found, earlier, found_if};

/// Whether this is not the first position of a name.
fn is_elsewhere(first: Option<u32>, i: usize) -> bool
    ensures { result ≡ not (option_map_or (λ at. nat_eq at i) first false) }
{
    match first {
        Some(at) => at as usize != i,
        None => true,
    }
}

/// The first schema that has the name of an earlier one.
pub(crate) fn repeated_schema(files: &Files) -> Option<Found>
    ensures { IsFirst (IsRepeatedSchema files.now.domain.now.schemas) result }
{
    let mut first = None;
    for i in 0..files.domain.schemas.len() {
        let schema = files.domain.schemas.get(i);
        let again = is_elsewhere(files.schemas.find(schema.name.bytes()), i);
        first = earlier(first, found_if(again, schema.place, REPEATED_NAME));
    }
    first
}

/// The first variable of a list that occurs in it before.
pub(crate) fn repeated_variable(variables: &Variables) -> Option<Found>
    ensures { IsFirst (IsRepeatedVariable variables.now) result }
{
    let names = variables.names();
    let mut first = None;
    for i in 0..names.len() {
        let variable = names.get(i);
        let again = is_elsewhere(variables.position(&variable.name), i);
        first = earlier(first, found_if(again, variable.place, REPEATED_NAME));
    }
    first
}

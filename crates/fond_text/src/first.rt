//! The first of several faults: by place, and at one place by code.

ghost use Rattle.fond_text.specs.Firsts.{IsFirst, IsEarlier};
ghost use Rattle.fond_text.specs.Faults.{IsNoLater};
ghost use Rattle.std.specs.Prelude.{◌≡◌, true, false, Some};

use crate::place::Place;

/// A fault of a file that is known: its place, and its code, the number that follows the F in docs/FAULTS.md.
#[derive(Clone, Copy, Debug, PartialEq, Eq)]
pub struct Found {
    pub place: Place,
    pub code: u8,
}

/// Whether one fault comes before another or is the same.
fn is_no_later(one: Found, other: Found) -> bool
    ensures no_later { result ≡ true → IsNoLater one.place one.code other.place other.code }
    ensures later { result ≡ false → IsNoLater other.place other.code one.place one.code }
{
    if one.place.line != other.place.line {
        one.place.line < other.place.line
    } else if one.place.column != other.place.column {
        one.place.column < other.place.column
    } else {
        one.code <= other.code
    }
}

/// The earlier of two faults, either of which may be missing.
pub fn earlier(one: Option<Found>, other: Option<Found>) -> Option<Found>
    ensures { IsEarlier one other result }
{
    match (one, other) {
        (Some(first), Some(second)) => {
            if is_no_later(first, second) {
                one
            } else {
                other
            }
        }
        (Some(_), None) => one,
        (None, _) => other,
    }
}

/// A fault at a place with a code, if there is one.
pub fn found_if(is_there: bool, place: Place, code: u8) -> Option<Found>
    ensures { IsFirst (λ at number. (is_there ≡ true) × (at ≡ place) × (number ≡ code)) result }
{
    if is_there {
        Some(Found { place, code })
    } else {
        None
    }
}

/// A fault at a place, if it has a code.
pub fn found_at(place: Place, code: Option<u8>) -> Option<Found>
    ensures { IsFirst (λ at number. (at ≡ place) × (code ≡ Some number)) result }
{
    match code {
        None => None,
        Some(code) => Some(Found { place, code }),
    }
}

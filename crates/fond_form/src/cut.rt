//! Cutting fields off a line, from left to right. Each call takes time in the length of what it reads, and no memory.

ghost use Rattle.fond_form.specs.Cutting.{HasNoField, IsFieldOf};
ghost use Rattle.std.specs.Prelude.{◌≡◌, ◌≢◌, ◌++◌, ◌+◌, List, ℕ, length, MatchOption};

use crate::part::Part;
use crate::scan::after;
use crate::table::{Field, bytes_of};
use crate::value::value_of;

/// The rest after the word, if it begins with the word.
fn skip<'a>(rest: Part<'a>, word: &[u8]) -> Option<Part<'a>>
    ensures { MatchOption result ((more : List ℕ) → rest.entry.text.now ≢ word.now ++ more)
        (λ next. (rest.entry.text.now ≡ word.now ++ next.text.now) × (next.at ≡ rest.entry.at + length word.now)) }
{
    let text = after(rest.text, word)?;
    Some(Part {
        text,
        at: rest.at + word.len(),
    })
}

/// The value of the field with which the rest begins, and the rest after it.
pub fn cut_field<'a>(field: Field, rest: Part<'a>) -> Option<(Part<'a>, Part<'a>)>
    ensures { MatchOption result (HasNoField field rest.entry.text.now) (λ parts. IsFieldOf field rest.entry parts.0 parts.1) }
{
    let (text, sort) = field;
    let next = skip(rest, bytes_of(text))?;
    let (value, more) = value_of(sort, next.text)?;
    let after = Part {
        text: more,
        at: next.at + value.len(),
    };
    Some((
        Part {
            text: value,
            at: next.at,
        },
        after,
    ))
}

//! The form of a line. Each call takes time in the length of the line, and no memory.

ghost use Rattle.fond_form.specs.Cutting.{is_clear};
ghost use Rattle.fond_form.specs.Forms.{form, HasForm, Line, line_text, IsProper};
ghost use Rattle.std.specs.Prelude.{◌≡◌, ◌≢◌, ◌↔◌, true, All, IsTrue, MatchOption};

use crate::cut::cut_field;
use crate::part::Part;
use crate::table::{Field, LineKind, form, kinds};

/// Whether the rest has the form.
fn has_fields(fields: &[Field], rest: Part) -> bool
    requires { IsTrue (is_clear fields.now) }
    ensures { result ≡ true ↔ HasForm fields.now rest.entry.text.now }
{
    let Some((field, more)) = fields.split_first() else {
        return rest.text.is_empty();
    };
    match cut_field(*field, rest) {
        Some((_, next)) => has_fields(more, next),
        None => false,
    }
}

/// Whether the text is a line of the kind.
fn is_line_of(kind: LineKind, text: &[u8]) -> bool
    ensures { result ≡ true ↔ HasForm (form kind) text.now }
{
    has_fields(form(kind), Part { text, at: 0 })
}

/// The first of the kinds of which the text is a line.
fn kind_among(kinds: &[LineKind], text: &[u8]) -> Option<LineKind>
    ensures { MatchOption result (All (λ kind. ¬ HasForm (form kind) text.now) kinds.now) (λ kind. HasForm (form kind) text.now) }
{
    let (kind, more) = kinds.split_first()?;
    if is_line_of(*kind, text) {
        Some(*kind)
    } else {
        kind_among(more, text)
    }
}

/// The kind of the line, if it has a form.
pub fn kind_of(text: &[u8]) -> Option<LineKind>
    ensures { MatchOption result ((line : Line) → IsProper line → text.now ≢ line_text line) (λ kind. HasForm (form kind) text.now) }
{
    kind_among(kinds(), text)
}

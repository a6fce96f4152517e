//! Cutting a text into lines.

ghost use Rattle.fond_form.specs.Feeds.{HasNoFeed};
ghost use Rattle.std.specs.Prelude.{◌≡◌, ◌++◌, codes, MatchOption};

use crate::scan::len_before;

/// The bytes before the first line feed and the bytes after it, if there is one. Takes time in the length of the line.
pub fn line_of<'a>(text: &'a [u8]) -> Option<(&'a [u8], &'a [u8])>
    ensures { MatchOption result (HasNoFeed text.now) (λ parts. HasNoFeed parts.0.now × (text.now ≡ parts.0.now ++ (codes "\n" ++ parts.1.now))) }
{
    let (piece, rest) = text.split_at(len_before(text, b'\n'));
    let (_, further) = rest.split_first()?;
    Some((piece, further))
}

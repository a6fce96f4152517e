//! Bytes, and the bytes that are blanks.

ghost use Rattle.std.specs.Prelude.{◌≡◌};
ghost use Rattle.fond_text.specs.Bytes.{is_blank};

use crate::list::List;

/// The content of a file, or a text.
pub type Bytes = List<u8>;

/// Whether the byte is a blank: one of the bytes 9 to 13 and 32.
pub fn is_blank(b: u8) -> bool
    ensures { result ≡ is_blank b }
{
    (9..=13).contains(&b) || b == b' '
}

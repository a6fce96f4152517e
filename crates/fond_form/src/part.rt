//! A part of a line, with its place.

ghost use Rattle.std.specs.Prelude.{◌<◌, ◌+◌, ◌^◌, length};

/// Bytes of a line: a part of it, or the rest that is not cut yet.
#[derive(Clone, Copy)]
pub struct Part<'a> {
    pub text: &'a [u8],
    /// The byte of the line at which the bytes begin, counted from 0.
    pub at: usize,
    pub ghost within: { at + length text.now < 2 ^ 64 },
}

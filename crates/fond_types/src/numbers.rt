//! The numbers of predicates and of objects.

ghost use Rattle.fond_types.specs.Meanings.{IsNumbering};
ghost use Rattle.std.specs.Prelude.{◌<◌, ◌^◌, length};

use fond_store::index::TextIndex;
use fond_text::name::Names;

/// Distinct names in order, and an index of their numbers, which is in a box so that the whole is small to move.
#[derive(Drop)]
pub(crate) struct Numbers {
    pub(crate) names: Names,
    pub(crate) numbers: Box<TextIndex>,
    ghost few: { length names < 2 ^ 32 },
    ghost numbered: { IsNumbering numbers.value names },
}

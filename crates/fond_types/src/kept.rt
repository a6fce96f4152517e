//! Ranges that were computed, to be shared.

use fond_ast::form::Range;
use fond_store::index::TextIndex;
use fond_text::name::Names;

/// A range with the names of its types.
#[derive(Drop)]
pub(crate) struct Kept {
    pub(crate) kinds: Names,
    pub(crate) range: Range,
}

/// Ranges that were computed, in order, and their positions by the names of their types, which blanks separate.
#[derive(Drop)]
pub(crate) struct KeptRanges {
    pub(crate) entries: Vec<Kept>,
    pub(crate) index: TextIndex,
}

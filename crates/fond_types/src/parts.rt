//! The parts of a task that are numbered last.

use fond_ast::form::LCond;
use fond_ast::task::LSchemas;
use fond_text::atom::Atoms;

/// Schemas, initial atoms and a goal over numbers.
#[derive(Drop)]
pub(crate) struct Parts {
    pub(crate) schemas: LSchemas,
    pub(crate) init: Atoms,
    pub(crate) goal: LCond,
}

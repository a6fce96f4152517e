//! The actions by an atom that their preconditions need, so that those that may be applicable in a state are found without
//! trying all.

use fond_text::list::List;

/// For each atom the actions that are filed under it, and those that need none.
#[derive(Drop)]
pub struct ActIndex {
    pub(crate) by_atom: Vec<List<u32>>,
    pub(crate) always: Vec<u32>,
}

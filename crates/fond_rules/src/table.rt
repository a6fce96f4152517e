//! Tables: lists of actions on partial states, without targets.

use crate::ordered::Ordered;
use fond_state::cube::Cube;
use fond_state::has_cube::HasCube;

/// A row chooses its action in the states of its condition in which no earlier row holds.
#[derive(Drop)]
pub struct TableRow {
    pub cond: Cube,
    pub act: u32,
}

impl HasCube for TableRow {
    ghost cube = { λ row. row.cond };

    fn cube(&self) -> &Cube {
        &self.cond
    }
}

/// Rows in order: in a state, the first one whose condition holds there chooses.
pub type Table = Ordered<TableRow>;

//! What is found.

use fond_policy::items::Items;

/// Items that cover the states that rules reach, and the number of the one in which the initial state lies.
#[derive(Drop)]
pub struct Covering {
    pub items: Items,
    pub start: u32,
}

//! What a rule list chooses in a state.

/// The choice in a state.
#[derive(Clone, Copy)]
pub enum Choice {
    /// The first rule that holds has this number, and its action, of this number, has so many outcomes and is applicable.
    Chosen { rule: u32, act: u32, count: u32 },
    /// The state is a goal.
    Done,
    /// No rule holds, or the action of the first rule that holds is not applicable.
    Stuck,
}

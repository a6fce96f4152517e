//! The answers of steps.

/// What a step did, or why it was not taken.
#[derive(Clone, Copy, Debug, PartialEq, Eq)]
pub enum Step {
    /// The first rule that holds has this number, and its action, of this number, was taken.
    Took { rule: u32, act: u32 },
    /// The state is a goal.
    Done,
    /// No rule holds, or the action of the first rule that holds is not applicable.
    Stuck,
    /// The action of the first rule that holds has only this many outcomes.
    BadOutcome { count: u32 },
}

/// What a step of a simulation did, or why it was not taken.
#[derive(Clone, Copy)]
pub enum SimStep {
    /// The first rule that holds has this number, and its action, of this number, was taken with this outcome.
    Took { rule: u32, act: u32, outcome: u32 },
    /// The state is a goal.
    Done,
    /// No rule holds, or the action of the first rule that holds is not applicable.
    Stuck,
}

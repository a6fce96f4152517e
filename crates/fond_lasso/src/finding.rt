//! What is found out about a policy.

use fond_store::store::Store;

/// What is found out about a policy. Numbers are those of the reached states.
#[derive(Drop)]
pub enum Finding {
    /// The policy is a solution: for each state one more than its rank, the least number of lucky steps that are enough from there.
    /// The level of a goal is 1.
    Ranked {
        states: Store,
        levels: Vec<u32>,
    },
    /// A walk by the choices of the policy to a state that is no goal and in which it chooses no applicable action.
    Stuck {
        states: Store,
        stem: Vec<u32>,
    },
    /// A walk by the choices of the policy, and a closed walk that begins and ends with the last state of the former.
    Lasso {
        states: Store,
        stem: Vec<u32>,
        cycle: Vec<u32>,
    },
    /// The policy reaches more states than the limit.
    Spent,
}

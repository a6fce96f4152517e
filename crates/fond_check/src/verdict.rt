//! What the checker finds.

use fond_state::state::State;

/// What the checker finds: that a certificate is correct, or its first fault, in the order of docs/CERTIFICATES.md. Layers,
/// cubes, pairs, rules and items are counted from 0.
#[derive(Drop)]
pub enum Verdict {
    /// The certificate is correct. A policy is lean if all its pairs, rules and items are; a refusal has none.
    Accepted { lean: bool },
    /// The goal may be true in a cube of the layer, the first cube that is not sure of the first layer that is not.
    LayerGoal { layer: u32, cube: u32 },
    /// That cube is not sure for this action, the first of these.
    LayerAct { layer: u32, cube: u32, act: u32 },
    /// The first pair that is not sure.
    Pair { at: u64 },
    /// The first rule that is not sure.
    Rule { at: u32 },
    /// The rules reach more states than the certificate says, or fewer.
    Count { more: bool },
    /// The rules reach this state, it is no goal, and no rule holds in it.
    NoRule { state: State },
    /// The initial state lies in no layer of the refusal.
    Outside,
    /// The first item that is not sure.
    Item { at: u32 },
    /// There is no start item, or the initial state does not lie in its cube.
    Start,
}

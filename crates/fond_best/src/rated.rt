//! What is found of a certificate of a policy of least rank.

/// What is found of a certificate: its rank, or its first fault, in the order of docs/CERTIFICATES.md. Layers, cubes, rules, items and
/// far lists are counted from 0.
#[derive(Clone, Copy)]
pub enum Rated {
    /// The certificate is correct: its policy has this rank, and no solution has a smaller one.
    Least { rank: u64 },
    /// The goal may be true in a cube of the layer, the first cube that is not sure of the first layer that is not.
    LayerGoal { layer: u32, cube: u32 },
    /// That cube is not sure for this action, the first of these.
    LayerAct { layer: u32, cube: u32, act: u32 },
    /// The first rule that is not sure.
    Rule { at: u32 },
    /// The first item that is not sure.
    Item { at: u32 },
    /// There is no start item, or the initial state does not lie in its cube.
    Start,
    /// The first item whose rank is not right.
    Rank { at: u32 },
    /// The goal may be true in a cube of the list, the first cube that is not far of the first far list that is not.
    FarGoal { list: u32, cube: u32 },
    /// That cube is not far for this action, the first of these.
    FarAct { list: u32, cube: u32, act: u32 },
    /// The rank of the start item is not the number of far lists, or the initial state does not lie in the last of them.
    Bound,
}

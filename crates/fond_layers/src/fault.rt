//! Why a layer is not sure.

ghost use Rattle.fond_layers.specs.declared.fault.LayerFault.TheVariants.{NoMemory as OutOfMemory};
ghost use Rattle.std.specs.Prelude.{◌≡◌};

use fond_text::fault::NoMemory;

/// The first cube of a layer that is not sure, by its number, and what is wrong with it.
#[derive(Clone, Copy)]
pub enum Spot {
    /// The goal may be true in the cube.
    Goal { cube: u32 },
    /// The action of this number, the first of these, may be applicable in the cube, and does not lead into the layer
    /// or an earlier one.
    NotSure { cube: u32, act: u32 },
}

/// Why a layer was not appended.
#[derive(Clone, Copy)]
pub enum LayerFault {
    /// The goal may be true in the cube.
    Goal { cube: u32 },
    /// The action may be applicable in the cube, and does not lead into the layer or an earlier one.
    NotSure { cube: u32, act: u32 },
    NoMemory,
}

impl From<NoMemory> for LayerFault {
    ghost from_gives = { λ _ e. e ≡ OutOfMemory };

    fn from(_e: NoMemory) -> LayerFault {
        LayerFault::NoMemory
    }
}

impl From<Spot> for LayerFault {
    ghost use Rattle.fond_layers.specs.Faults.{fault_of};

    ghost from_gives = { λ spot e. e ≡ fault_of spot };

    fn from(spot: Spot) -> LayerFault {
        match spot {
            Spot::Goal { cube } => LayerFault::Goal { cube },
            Spot::NotSure { cube, act } => LayerFault::NotSure { cube, act },
        }
    }
}

//! Cubes that a test of a rule or a pair overwrites.

ghost use Rattle.std.specs.Prelude.{◌≡◌, IfOk};

use fond_state::cube::Cube;
use fond_text::fault::NoMemory;
use std::alloc::Global;
use std::marker::Model;

/// Two cubes over as many atoms, which a test overwrites, so that it takes no memory. Contracts see the number of atoms.
#[derive(Drop)]
pub struct Pad {
    pub(crate) cond: Cube,
    pub(crate) image: Cube,
}

impl Model for Pad {
    ghost use Rattle.std.specs.Prelude.{◌≡◌, ℕ, length};

    ghost Value = { ℕ };

    ghost view = { λ p. length p.image };

    ghost invariant = { λ p. length p.cond ≡ length p.image };
}

impl Pad {
    /// A pad over this many atoms.
    pub fn new(alloc: Global, atoms: u32) -> Result<Pad, NoMemory>
        ensures { IfOk result (λ p. p ≡ atoms) }
    {
        let cond = Cube::new(alloc, atoms)?;
        let image = Cube::new(alloc, atoms)?;
        Ok(Pad { cond, image })
    }
}

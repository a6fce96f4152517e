//! What a test of an item overwrites.

ghost use Rattle.std.specs.Prelude.{◌≡◌, length, IfOk};

use fond_state::cube::Cube;
use fond_text::fault::NoMemory;
use std::alloc::Global;
use std::marker::Model;

/// Two cubes over as many atoms: that of an item, which loses and gets back a literal, and its image under an outcome.
#[derive(Drop)]
pub(crate) struct Scratch {
    pub(crate) cube: Cube,
    pub(crate) image: Cube,
}

/// Cubes and hints that a test of an item overwrites, so that it takes no memory. Contracts see the number of atoms.
#[derive(Drop)]
pub struct CoverPad {
    pub(crate) scratch: Scratch,
    /// For the atom of each literal of an item's cube, the number of a rule that may show that the literal is needed, or `u32::MAX`.
    /// Nothing is claimed of these numbers: each is tested where it is used.
    pub(crate) rivals: Vec<u32>,
}

impl Model for CoverPad {
    ghost use Rattle.std.specs.Prelude.{◌≡◌, ℕ, length};

    ghost Value = { ℕ };

    ghost view = { λ p. length p.scratch.image };

    ghost invariant = { λ p. length p.scratch.cube ≡ length p.scratch.image };
}

impl CoverPad {
    /// A pad over this many atoms. Takes the memory of two cubes and of a number for each atom.
    pub fn new(alloc: Global, atoms: u32) -> Result<CoverPad, NoMemory>
        ensures { IfOk result (λ p. p ≡ atoms) }
    {
        let cube = Cube::new(alloc, atoms)?;
        let image = Cube::new(alloc, atoms)?;
        let rivals = vec![in alloc; u32::MAX; atoms as usize]?;
        Ok(CoverPad {
            scratch: Scratch { cube, image },
            rivals,
        })
    }
}

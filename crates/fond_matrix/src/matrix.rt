//! Matrices of cubes.

ghost use Rattle.fond_match.specs.Besides.{is_beside};
ghost use Rattle.fond_matrix.specs.Rivals.{IsRival, rival_at};
ghost use Rattle.std.specs.Prelude.{◌≡◌, ◌<◌, ◌-◌, ◌^◌, ℕ, [], ◌∷◌, ◌++◌, All, length, position, slice_get, take, IfOk, IsSomeAnd, OnOk, OnErr};

use crate::rivals::forget;
use crate::rows::Rows;
use fond_state::cube::Cube;
use fond_text::fault::NoMemory;
use std::alloc::Global;
use std::marker::Model;

/// Fewer than 2^32 cubes, in order. Contracts see the list of them. For each literal there is a bit for each cube, up to the last one
/// that has it.
#[derive(Drop)]
pub struct Matrix {
    /// The number of the atoms of each cube.
    lengths: Vec<u32>,
    rows: Rows,
    /// A cube without atoms, which the literals of other cubes are told from.
    nothing: Cube,
}

impl Model for Matrix {
    ghost use Rattle.std.specs.Prelude.{List, Bool, Option};

    ghost Value = { List (List (Option Bool)) };

    ghost use Rattle.std.specs.Prelude.{◌≡◌, ◌<◌, ◌^◌, [], length};
    ghost use Rattle.fond_matrix.specs.Matrices.{cubes_of, IsMatrixOf};

    ghost view = { λ m. cubes_of m.rows 0 m.lengths.items };

    ghost invariant = { λ m. IsMatrixOf (cubes_of m.rows 0 m.lengths.items) m.rows × (length m.lengths.items < 2 ^ 32) × (m.nothing ≡ []) };
}

impl Matrix {
    /// A matrix of no cubes.
    pub fn new(alloc: Global) -> Result<Matrix, NoMemory>
        ensures { IfOk result (λ m. m ≡ []) }
    {
        let nothing = Cube::new(alloc, 0)?;
        Ok(Matrix {
            lengths: Vec::new(alloc),
            rows: Rows::new(alloc),
            nothing,
        })
    }

    /// The number of cubes.
    pub fn len(&self) -> u32
        ensures { result ≡ length self.now }
    {
        self.lengths.len() as u32
    }

    /// Adds a cube at the end, or leaves the matrix as it was if memory runs out. Takes time in the number of the cube's literals and
    /// of its words; and, spread over many cubes, that of a 64th of the cubes for each literal that is new. A literal takes a bit for
    /// each cube up to the last one that has it, so all take at most as much memory as the cubes themselves, if these are over the
    /// same atoms.
    pub fn push(&mut self, cube: &Cube) -> Result<(), NoMemory>
        requires { length self.old < 2 ^ 32 - 1 }
        ensures ok { OnOk result (self.new ≡ self.old ++ cube.now ∷ []) }
        ensures err { OnErr result (self.new ≡ self.old) }
    {
        let number = self.lengths.len() as u32;
        self.rows
            .make_room(&self.nothing, cube, (number / 64) as usize + 1)?;
        self.lengths.push(cube.len() as u32)?;
        self.rows.mark(&self.nothing, cube, number);
        Ok(())
    }

    /// The number of the first of the cubes before this number that a cube does not contradict, if there is one. Takes time in the number
    /// of the cube's literals, for each 64 of the cubes up to the result.
    pub fn first_beside(&self, cube: &Cube, below: u32) -> Option<u32>
        ensures { result ≡ position (λ c. is_beside cube.now c) (take below self.now) }
    {
        let end = below.min(self.lengths.len() as u32);
        self.rows.first_beside(&self.nothing, cube, end)
    }

    /// For each of a cube's literals, the number of one of the cubes before this number that the cube contradicts by this literal alone:
    /// at the literal's atom, or `u32::MAX` if there is none. Takes time in the number of the cube's literals, for each 64 of the
    /// cubes, and in that of the atoms.
    pub fn find_rivals(&self, cube: &Cube, below: u32, rivals: &mut [u32])
        requires { length rivals.old ≡ length cube.now }
        ensures long { length rivals.new ≡ length rivals.old }
        ensures rival { (a : ℕ) → a < length cube.now → rival_at rivals.new a < 2 ^ 32 - 1 → IsSomeAnd (slice_get (take below self.now) (rival_at rivals.new a)) (IsRival cube.now a) }
        ensures none { (a : ℕ) → a < length cube.now → rival_at rivals.new a ≡ 2 ^ 32 - 1 → All (λ other. ¬ IsRival cube.now a other) (take below self.now) }
    {
        forget(rivals);
        let end = below.min(self.lengths.len() as u32);
        self.rows.find_rivals(&self.nothing, cube, end, rivals);
    }
}

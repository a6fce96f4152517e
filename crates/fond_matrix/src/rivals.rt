//! Which cubes a cube contradicts by one literal alone.

ghost use Rattle.std.specs.Prelude.{◌≡◌, ◌<◌, ◌≤◌, ◌*◌, ◌+◌, ◌-◌, ◌^◌, ℕ, [], length, Decides};
ghost use Rattle.fond_state.specs.Words.{truth_in};
ghost use Rattle.fond_matrix.specs.Below.{TwoBelow};
ghost use Rattle.fond_matrix.specs.Rows.{clashes};
ghost use Rattle.fond_matrix.specs.Rivals.{IsNoted, rival_at};

use crate::fill::next_literal;
use crate::rows::Rows;
use crate::search::BLOCK;
use crate::words::first_not_in;
use fond_state::cube::Cube;

/// What is noted of a literal for which there is no rival.
const NONE: u32 = u32::MAX;

impl Rows {
    /// Notes, for a cube's literal of an atom, the first of some words' cubes before `end` that the cube contradicts by this literal
    /// alone, if the literal has no rival yet. `twice` has the cubes that it contradicts by two literals.
    fn note(
        &self,
        cube: &Cube,
        atom: u32,
        start: usize,
        count: usize,
        twice: &[u64],
        end: usize,
        rivals: &mut [u32],
    )
        requires room { count ≤ length twice.now }
        requires few { start + count < 2 ^ 32 }
        requires end { (64 * start ≤ end) × (end ≤ 64 * (start + count)) × (end < 2 ^ 32) }
        requires within { atom < length rivals.old }
        requires twice { (k : ℕ) → k < 64 * count → Decides (truth_in twice.now k) (TwoBelow (clashes self.now cube.now (64 * start + k)) (length cube.now)) }
        requires noted { IsNoted self.now cube.now (64 * start) atom (rival_at rivals.old atom) }
        ensures long { length rivals.new ≡ length rivals.old }
        ensures noted { IsNoted self.now cube.now end atom (rival_at rivals.new atom) }
        ensures other { (a : ℕ) → ¬ a ≡ atom → rival_at rivals.new a ≡ rival_at rivals.old a }
    {
        let Some(sign) = cube.literal(atom) else {
            return;
        };
        if rivals[atom as usize] != NONE {
            return;
        }
        let (skip, row) = self.row(atom, !sign);
        let number = 64 * start + first_not_in(skip, row, start, twice, count);
        if number >= end {
            return;
        }
        rivals[atom as usize] = number as u32;
    }

    /// Notes, for each of a cube's literals that has no rival yet, the first of some words' cubes before `end` that the cube contradicts
    /// by this literal alone.
    fn note_all(
        &self,
        nothing: &Cube,
        cube: &Cube,
        start: usize,
        count: usize,
        twice: &[u64],
        end: usize,
        rivals: &mut [u32],
    )
        requires room { count ≤ length twice.now }
        requires few { start + count < 2 ^ 32 }
        requires end { (64 * start ≤ end) × (end ≤ 64 * (start + count)) × (end < 2 ^ 32) }
        requires empty { nothing.now ≡ [] }
        requires within { length rivals.old ≡ length cube.now }
        requires twice { (k : ℕ) → k < 64 * count → Decides (truth_in twice.now k) (TwoBelow (clashes self.now cube.now (64 * start + k)) (length cube.now)) }
        requires noted { (a : ℕ) → a < length cube.now → IsNoted self.now cube.now (64 * start) a (rival_at rivals.old a) }
        ensures long { length rivals.new ≡ length rivals.old }
        ensures noted { (a : ℕ) → a < length cube.now → IsNoted self.now cube.now end a (rival_at rivals.new a) }
    {
        let mut from = 0;
        while let Some((atom, _)) = next_literal(cube, nothing, from) {
            self.note(cube, atom, start, count, twice, end, rivals);
            from = atom + 1;
        }
    }

    /// Notes, for each of a cube's literals, the first cube before `end` that the cube contradicts by this literal alone. Takes time in
    /// the number of the cube's literals, for each 64 of the cubes.
    pub(crate) fn find_rivals(&self, nothing: &Cube, cube: &Cube, end: u32, rivals: &mut [u32])
        requires empty { nothing.now ≡ [] }
        requires within { length rivals.old ≡ length cube.now }
        requires open { (a : ℕ) → a < length cube.now → rival_at rivals.old a ≡ 2 ^ 32 - 1 }
        ensures long { length rivals.new ≡ length rivals.old }
        ensures noted { (a : ℕ) → a < length cube.now → IsNoted self.now cube.now end a (rival_at rivals.new a) }
    {
        let words = (end as usize + 63) / 64;
        let mut start = 0;
        while start < words {
            let count = (words - start).min(BLOCK);
            let mut once = [0u64; BLOCK];
            let mut twice = [0u64; BLOCK];
            self.gather(nothing, cube, start, count, &mut once, &mut twice);
            let to = (64 * (start + count)).min(end as usize);
            self.note_all(nothing, cube, start, count, &twice, to, rivals);
            start += count;
        }
    }
}

/// Notes no rivals.
pub(crate) fn forget(rivals: &mut [u32])
    ensures long { length rivals.new ≡ length rivals.old }
    ensures open { (a : ℕ) → a < length rivals.old → rival_at rivals.new a ≡ 2 ^ 32 - 1 }
{
    for a in 0..rivals.len() {
        rivals[a] = NONE;
    }
}

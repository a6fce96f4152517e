//! Which cubes a cube contradicts.

ghost use Rattle.std.specs.Prelude.{◌≡◌, ◌<◌, ◌≤◌, ◌*◌, ◌+◌, ◌^◌, ℕ, [], false, length, Decides, IfSome, IfNone};
ghost use Rattle.fond_state.specs.Words.{truth_in};
ghost use Rattle.fond_matrix.specs.Below.{TwoBelow};
ghost use Rattle.fond_matrix.specs.Rows.{clashes, IsOpposed};

use crate::fill::next_literal;
use crate::rows::Rows;
use crate::words::{add_twice, first_clear};
use fond_state::cube::Cube;

/// How many words are gathered at a time.
pub(crate) const BLOCK: usize = 64;

impl Rows {
    /// Finds, of some words of 64 cubes each, those that a cube contradicts, and those that it contradicts by two literals. The words
    /// are clear before. Takes time in the number of the words between the first and the last cube that has the opposite of a literal,
    /// for each of the cube's literals, and in the number of the cube's own words.
    pub(crate) fn gather(
        &self,
        nothing: &Cube,
        cube: &Cube,
        start: usize,
        count: usize,
        once: &mut [u64],
        twice: &mut [u64],
    )
        requires room { (count ≤ length once.old) × (count ≤ length twice.old) }
        requires few { start + count < 2 ^ 32 }
        requires empty { nothing.now ≡ [] }
        requires clear { (k : ℕ) → k < 64 * count → (truth_in once.old k ≡ false) × (truth_in twice.old k ≡ false) }
        ensures long { (length once.new ≡ length once.old) × (length twice.new ≡ length twice.old) }
        ensures once { (k : ℕ) → k < 64 * count → Decides (truth_in once.new k) (IsOpposed self.now cube.now (length cube.now) (64 * start + k)) }
        ensures twice { (k : ℕ) → k < 64 * count → Decides (truth_in twice.new k) (TwoBelow (clashes self.now cube.now (64 * start + k)) (length cube.now)) }
    {
        let mut from = 0;
        while let Some((atom, sign)) = next_literal(cube, nothing, from) {
            let (skip, row) = self.row(atom, !sign);
            add_twice(once, twice, count, skip, row, start);
            from = atom + 1;
        }
    }

    /// The first number below this one whose cube the given cube does not contradict, if there is one. Takes time in the number of the
    /// cube's literals, for each 64 of the numbers up to the result.
    pub(crate) fn first_beside(&self, nothing: &Cube, cube: &Cube, below: u32) -> Option<u32>
        requires { nothing.now ≡ [] }
        ensures below { IfSome result (λ number. number < below) }
        ensures beside { IfSome result (λ number. ¬ IsOpposed self.now cube.now (length cube.now) number) }
        ensures before { IfSome result (λ number. (k : ℕ) → k < number → IsOpposed self.now cube.now (length cube.now) k) }
        ensures none { IfNone result ((k : ℕ) → k < below → IsOpposed self.now cube.now (length cube.now) k) }
    {
        let words = (below as usize + 63) / 64;
        let mut start = 0;
        while start < words {
            let count = (words - start).min(BLOCK);
            let mut once = [0u64; BLOCK];
            let mut twice = [0u64; BLOCK];
            self.gather(nothing, cube, start, count, &mut once, &mut twice);
            let place = first_clear(&once, count);
            if place < 64 * count {
                let number = 64 * start + place;
                if number < below as usize {
                    return Some(number as u32);
                }
                return None;
            }
            start += count;
        }
        None
    }
}

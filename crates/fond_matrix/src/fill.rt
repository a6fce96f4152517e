//! How a cube is added.

ghost use Rattle.std.specs.Prelude.{◌≡◌, ◌<◌, ◌≤◌, ◌/◌, ◌-◌, ◌^◌, ℕ, Bool, [], Some, None, false, length, IfSome, IfNone, OnOk};
ghost use Rattle.fond_match.specs.Lies.{is_sign};
ghost use Rattle.fond_state.specs.Cubes.{literal_at};
ghost use Rattle.fond_matrix.specs.Rows.{row_at, has, IsNextLiteral};

use crate::rows::Rows;
use fond_state::cube::Cube;
use fond_text::fault::NoMemory;

/// The first literal of a cube from an atom on, if there is one. Takes time in the number of words between.
pub(crate) fn next_literal(c: &Cube, nothing: &Cube, from: u32) -> Option<(u32, bool)>
    requires within { from ≤ length c.now }
    requires empty { nothing.now ≡ [] }
    ensures some { IfSome result (λ literal. IsNextLiteral c.now from literal.0 literal.1) }
    ensures few { IfSome result (λ literal. literal.0 < 2 ^ 32 - 1) }
    ensures none { IfNone result ((a : ℕ) → from ≤ a → literal_at c.now a ≡ None) }
{
    let atom = c.first_difference(nothing, from, c.len() as u32);
    let sign = c.literal(atom)?;
    Some((atom, sign))
}

impl Rows {
    /// Makes the words of the sets of all literals of a cube at least this many. All sets stay the same, also if memory runs out.
    pub(crate) fn make_room(
        &mut self,
        nothing: &Cube,
        cube: &Cube,
        count: usize,
    ) -> Result<(), NoMemory>
        requires { nothing.now ≡ [] }
        ensures same { (s : Bool) (a number : ℕ) → has self.new s a number ≡ has self.old s a number }
        ensures wide { OnOk result ((s : Bool) (a : ℕ) → literal_at cube.now a ≡ Some s → count ≤ length (row_at self.new s a)) }
    {
        let mut from = 0;
        while let Some((atom, sign)) = next_literal(cube, nothing, from) {
            self.widen(atom, sign, count)?;
            from = atom + 1;
        }
        Ok(())
    }

    /// Notes that the cube of a number has the literals that a cube has.
    pub(crate) fn mark(&mut self, nothing: &Cube, cube: &Cube, number: u32)
        requires empty { nothing.now ≡ [] }
        requires room { (s : Bool) (a : ℕ) → literal_at cube.now a ≡ Some s → number / 64 < length (row_at self.old s a) }
        requires fresh { (s : Bool) (a : ℕ) → has self.old s a number ≡ false }
        ensures here { (s : Bool) (a : ℕ) → has self.new s a number ≡ is_sign (literal_at cube.now a) s }
        ensures other { (s : Bool) (a k : ℕ) → ¬ k ≡ number → has self.new s a k ≡ has self.old s a k }
    {
        let mut from = 0;
        while let Some((atom, sign)) = next_literal(cube, nothing, from) {
            self.put(atom, sign, number);
            from = atom + 1;
        }
    }
}

//! What an index is asked.

ghost use Rattle.std.specs.Prelude.{◌≡◌, length};

use fond_state::cube::Cube;
use fond_state::state::State;
use std::marker::Model;

/// What lies in cubes, by the literals that it has.
pub trait Query {
    ghost use Rattle.std.specs.Prelude.{◌≡◌, ℕ, List, Bool, Option, Some, true, length};
    ghost use Rattle.fond_state.specs.Cubes.{literal_at};

    ghost atoms: { Self → ℕ };

    ghost has: { Self → ℕ → Bool → Bool };

    ghost lies: { Self → List (Option Bool) → Bool };

    /// Whether it has the literal of the atom with this sign.
    fn has(&self, atom: u32, sign: bool) -> bool
        ensures { result ≡ has self.now atom sign };

    /// Whether it lies in the cube.
    fn lies_in(&self, cube: &Cube) -> bool
        requires { length cube.now ≡ atoms self.now }
        ensures { result ≡ lies self.now cube.now };

    ghost has_each: { (query : Self) (cube : List (Option Bool)) (atom : ℕ) (sign : Bool) → lies query cube ≡ true →
        literal_at cube atom ≡ Some sign → has query atom sign ≡ true };
}

/// A cube lies in those whose literals it has.
impl Query for Cube {
    ghost use Rattle.std.specs.Prelude.{length};
    ghost use Rattle.fond_state.specs.Cubes.{literal_at};
    ghost use Rattle.fond_match.specs.Lies.{is_sign, cube_lies_in};
    ghost use Rattle.fond_match.specs.Lying.{cube_has_each};

    ghost atoms = { length };

    ghost has = { λ c atom sign. is_sign (literal_at c atom) sign };

    ghost lies = { cube_lies_in };

    ghost has_each = { cube_has_each };

    fn has(&self, atom: u32, sign: bool) -> bool {
        match self.literal(atom) {
            Some(known) => known == sign,
            None => false,
        }
    }

    fn lies_in(&self, cube: &Cube) -> bool {
        cube.covers(self)
    }
}

/// A state lies in the cubes whose literals all hold in it.
impl Query for State {
    ghost use Rattle.std.specs.Prelude.{length};
    ghost use Rattle.fond_state.specs.Cubes.{truth_at, lies_in};
    ghost use Rattle.fond_text.specs.Bools.{is_same};
    ghost use Rattle.fond_match.specs.Lying.{state_has_each};

    ghost atoms = { length };

    ghost has = { λ s atom sign. is_same (truth_at s atom) sign };

    ghost lies = { lies_in };

    ghost has_each = { state_has_each };

    fn has(&self, atom: u32, sign: bool) -> bool {
        if (atom as usize) < self.len() {
            self.get(atom) == sign
        } else {
            !sign
        }
    }

    fn lies_in(&self, cube: &Cube) -> bool {
        cube.holds(self)
    }
}

/// A cube, as what lies beside those cubes that it does not contradict.
#[derive(Drop)]
pub struct Beside<'a> {
    cube: &'a Cube,
}

impl<'a> Model for Beside<'a> {
    ghost use Rattle.std.specs.Prelude.{List, Bool, Option};

    ghost Value = { List (Option Bool) };

    ghost view = { λ b. b.cube.now };
}

impl<'a> Beside<'a> {
    /// The cube as such a query.
    pub fn new(cube: &'a Cube) -> Beside<'a>
        ensures { result ≡ cube.now }
    {
        Beside { cube }
    }
}

/// A cube lies beside those that have no literal of which it has the opposite.
impl<'a> Query for Beside<'a> {
    ghost use Rattle.std.specs.Prelude.{length, Some};
    ghost use Rattle.fond_state.specs.Cubes.{literal_at};
    ghost use Rattle.fond_match.specs.Besides.{permits, is_beside, beside_has_each};

    ghost atoms = { length };

    ghost has = { λ c atom sign. permits (literal_at c atom) (Some sign) };

    ghost lies = { is_beside };

    ghost has_each = { beside_has_each };

    fn has(&self, atom: u32, sign: bool) -> bool {
        match self.cube.literal(atom) {
            Some(known) => known == sign,
            None => true,
        }
    }

    fn lies_in(&self, cube: &Cube) -> bool {
        !self.cube.contradicts(cube)
    }
}

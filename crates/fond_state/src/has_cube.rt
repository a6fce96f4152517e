//! What has a cube.

use crate::cube::Cube;

/// What has a cube: a cube itself, a rule by its condition, and whatever else is found by its cube.
pub trait HasCube {
    ghost use Rattle.std.specs.Prelude.{◌≡◌, List, Bool, Option};

    ghost cube: { Self → List (Option Bool) };

    fn cube(&self) -> &Cube
        ensures { result.now ≡ cube self.now };
}

impl HasCube for Cube {
    ghost cube = { λ c. c };

    fn cube(&self) -> &Cube {
        self
    }
}

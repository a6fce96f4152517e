//! The law of stable cubes.

ghost use Rattle.fond_regress.specs.Laws.{StableCubesAreSure};

/// A stable cube on which the goal is No is a sure layer by itself.
pub fn stable_cubes_are_sure()
    ensures { StableCubesAreSure }
{}

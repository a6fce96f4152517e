//! The laws of values and images, each the contract of a function with an empty body.

ghost use Rattle.fond_task.specs.Laws.{YesIsTrue, NoIsFalse, ImageHoldsNext, FullValueIsTruth, FullImageIsNext};

/// A form that is Yes on a cube is true in each of its states, and a form that is No is false in each.
pub fn values_are_sound()
    ensures yes { YesIsTrue }
    ensures no { NoIsFalse }
{}

/// If a state lies in a cube, the next state lies in the cube's image.
pub fn images_are_sound()
    ensures { ImageHoldsNext }
{}

/// On the full cube of a state, values are truth in the state, and images are full cubes of the next state.
pub fn full_cubes_are_exact()
    ensures value { FullValueIsTruth }
    ensures image { FullImageIsNext }
{}

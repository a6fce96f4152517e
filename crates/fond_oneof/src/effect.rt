//! Ground effects.

use fond_task::form::Form;

/// The parts of a conjunction, or the members of a choice.
pub type GroundEffects = Vec<GroundEffect>;

/// An effect over the atoms of a ground task, by their numbers. A literal makes its atom true (`true`) or false. Exactly
/// one member of a `OneOf` takes place, and a `When` takes place if its condition is true before.
#[derive(Drop)]
pub enum GroundEffect {
    Literal(u32, bool),
    And(GroundEffects),
    OneOf(GroundEffects),
    When(Form, Box<GroundEffect>),
}

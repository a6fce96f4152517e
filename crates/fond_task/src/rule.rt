//! The rules and forbidden pairs of certificates.

use fond_state::cube::Cube;
use fond_state::has_cube::HasCube;
use fond_text::list::List;

/// What an outcome leads to: the goal, or the condition of the rule of this number.
#[derive(Clone, Copy)]
pub enum Target {
    Goal,
    Rule(u32),
}

/// Targets, one for each outcome of an action.
pub type TargetList = List<Target>;

/// The targets of a rule: one outcome and its target for a fair action, a target for each outcome for an unfair one.
#[derive(Drop)]
pub enum Targets {
    One { outcome: u32, target: Target },
    All(TargetList),
}

/// A rule chooses its action in the states of its condition in which no earlier rule holds.
#[derive(Drop)]
pub struct Rule {
    pub cond: Cube,
    pub act: u32,
    pub targets: Targets,
}

impl HasCube for Rule {
    ghost cube = { λ rule. rule.cond };

    fn cube(&self) -> &Cube {
        &self.cond
    }
}

/// A pair bars its action in the states of its condition: the outcome leads into a cube of a sure layer.
#[derive(Drop)]
pub struct Pair {
    pub cond: Cube,
    pub act: u32,
    pub outcome: u32,
    pub layer: u32,
    pub cube: u32,
}

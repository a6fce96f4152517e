//! What a search for dead cubes goes by.

use crate::cubes::CubeSet;
use fond_heuristic::net::Net;
use fond_heuristic::together::Together;
use fond_moves::moves::Moves;
use fond_moves::weight::Weights;

/// The actions of a task with the goal, how much literals are worth as reasons, the relaxed task, which atoms may be true
/// together, and the cubes that are dead already.
#[derive(Clone, Copy)]
pub struct Facts<'a> {
    pub moves: &'a Moves,
    pub weights: &'a Weights,
    pub net: &'a Net,
    pub together: &'a Together,
    pub dead: &'a CubeSet,
}

//! Layers of cubes from which no solution escapes, and what makes a layer sure above earlier ones. Layers that are sure
//! hold states that no solution reaches (fond_task); finding them is left to the crates above.
#![tactic(auto)]

pub mod fault;
mod force;
mod indexed;
pub mod layers;
mod sure;

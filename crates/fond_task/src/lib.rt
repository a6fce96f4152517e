//! Ground tasks: fluent atoms, actions with their outcomes, an initial state and a goal, and what these mean on
//! states and on cubes. Values and images of cubes follow Kleene's strong three-valued logic; the laws say that they
//! are sound on each cube and exact on full ones. Grounding a task is left to the crates above.
//!
//! The crate also has the game of a ground task: policies and the states that they reach, traps and solutions, and the two
//! laws on which every certificate rests. Ranks exclude traps: the rules of a correct policy certificate are a solution. Layers
//! force: no solution reaches a state of a sure layer. Finding certificates is left to the crates above. What a search
//! says to those who ask it, steps of plans and layers, has types here (`hint`, `plan_step`); nothing is claimed of it.
//!
//! Solutions generalise the strong and strong cyclic ones of Cimatti, Pistore, Roveri and Traverso (Weak, strong, and
//! strong cyclic planning via symbolic model checking, 2003) to fair and unfair actions, as Geffner and Geffner do
//! (Compact policies for fully observable non-deterministic planning as SAT, 2018). Ordered rules over partial states
//! and forbidden pairs of a partial state and an action are those of Muise, McIlraith and Beck (Improved
//! non-deterministic planning by exploiting state relevance, 2012). Layers play the part that certificates of
//! unsolvability play in Eriksson, Röger and Helmert (Unsolvability certificates for classical planning, 2017).
#![tactic(auto)]

pub mod form;
pub mod game_laws;
pub mod hint;
pub mod image;
pub mod junction;
pub mod laws;
pub mod plan_step;
pub mod rule;
pub mod shared;
pub mod step;
pub mod task;
pub mod text;
pub mod truth;
pub mod value;

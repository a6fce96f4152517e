//! Where a planner learns of plans and of layers for its draft.

use crate::draft::Draft;
use fond_layers::layers::Layers;
use fond_moves::moves::Moves;
use fond_state::cube::Cube;
use fond_state::state::State;
use fond_task::hint::{Hint, LayerHint};
use fond_task::shared::Shared;
use fond_task::task::Task;
use fond_text::fault::NoMemory;
use std::alloc::Global;

/// How much a source may do.
#[derive(Clone, Copy)]
pub struct Effort {
    /// The states that each search for a plan may expand, and each search for layers may visit.
    pub states: u32,
    /// The updates of the relaxed task, and of queues, that all searches for plans may make together.
    pub work: u64,
    /// The work that all searches for layers may do together.
    pub layers: u64,
}

/// A source of hints for a planner, which lends it the draft. Nothing is claimed of a hint: the planner makes a rule of a step only if
/// the rule is sure at that time, and keeps a layer only if it is sure.
pub trait Source: Drop {
    /// A source that was not asked yet. It takes no memory.
    fn new() -> Self;

    /// Sets how much the next searches may do. The moves are those of the task.
    fn allow(
        &mut self,
        alloc: Global,
        t: &Task,
        moves: &Shared<Moves>,
        effort: Effort,
    ) -> Result<(), NoMemory>;

    /// Proposes steps from the state to a goal, or to a state in which a rule of the draft holds, if a search finds some.
    fn plan(&mut self, alloc: Global, draft: &Draft, from: &State) -> Result<Hint, NoMemory>;

    /// Notes that an action was taken in this state, and that the next search begins where it led.
    fn leave(&mut self, state: &State);

    /// Notes that searches are to follow this outcome of the unfair action in the state from now on.
    fn respond(&mut self, state: &State, act: u32, outcome: u32) -> Result<(), NoMemory>;

    /// Proposes a cube around the state that may be losing, if a search finds one: from none of its states does a policy surely get to
    /// a goal.
    fn dead_cube(
        &mut self,
        alloc: Global,
        draft: &Draft,
        state: &State,
    ) -> Result<Option<Cube>, NoMemory>;

    /// Begins to look for layers around a state.
    fn begin_layers(&mut self, draft: &Draft, state: &State) -> Result<(), NoMemory>;

    /// Begins to look for layers around the state of a full cube.
    fn begin_layers_in(&mut self, draft: &Draft, cube: &Cube) -> Result<(), NoMemory>;

    /// Proposes a further layer, or tells that there is none. A cube is proposed once.
    fn next_layer(&mut self, alloc: Global, draft: &Draft) -> Result<LayerHint, NoMemory>;

    /// Takes the states of the full cubes of these layers, and no others, as losing.
    fn know_lost(&mut self, layers: &Layers) -> Result<(), NoMemory>;

    /// Takes no state as losing any more.
    fn forget_lost(&mut self) -> Result<(), NoMemory>;

    /// Forgets what was learnt from the rules and the pairs of the draft, since the rules are made anew. The draft keeps its pairs.
    fn forget_rules(&mut self);
}

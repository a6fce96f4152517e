//! The planner: a policy in the making, and where its rules come from.

ghost use Rattle.fond_task.specs.Certificates.{LiesInLayers};
ghost use Rattle.std.specs.Prelude.{◌≡◌, ◌≤◌, true, length, IfOk, OnOk};

use crate::limits::{has_opponent, quick_states};
use fond_draft::draft::Draft;
use fond_draft::plan::Plan;
use fond_draft::source::Source;
use fond_explicit::act_index::ActIndex;
use fond_explicit::filing::index_of;
use fond_moves::moves::Moves;
use fond_state::state::State;
use fond_task::shared::Shared;
use fond_task::task::Task;
use fond_text::fault::NoMemory;
use std::alloc::Global;

/// A draft of a policy for a task, the plans from which its rules are made, an index of the task's actions, its moves, which the source
/// and each sketch of a cover own too, and a source of hints. At most `budget` states are opened from one state. `quick` states are opened
/// before the source is asked next, and `too_few` is the largest number of opened states that settled nothing for some state. `crowded`
/// tells whether, when states were opened last and that settled nothing, many of those that were reached were never opened; `opposed`
/// whether an opponent picks some outcome, `stale` whether a plan came after rules that it makes needless, `restarts` how often rules
/// were dropped for one, and `sketches` whether covers are still sketched.
#[derive(Drop)]
pub(crate) struct Planner<'t, S> {
    pub(crate) task: &'t Task,
    pub(crate) budget: u32,
    pub(crate) draft: Draft,
    pub(crate) plans: Vec<Plan>,
    pub(crate) index: ActIndex,
    pub(crate) moves: Shared<Moves>,
    pub(crate) source: S,
    pub(crate) quick: u32,
    pub(crate) too_few: u32,
    pub(crate) crowded: bool,
    pub(crate) opposed: bool,
    pub(crate) stale: bool,
    pub(crate) restarts: u64,
    pub(crate) sketches: bool,
    ghost few: { budget ≤ 1000000 },
}

impl<'t, S: Source> Planner<'t, S> {
    ghost use Rattle.fond_planner.specs.Planners.{BarsMoreThan, IsPlanner, IsPlannerOf, Keeps};

    /// A planner for the task without rules and plans. Takes the time of `index_of`.
    pub(crate) fn new(
        alloc: Global,
        task: &'t Task,
        budget: u32,
    ) -> Result<Planner<'t, S>, NoMemory>
        requires { budget ≤ 1000000 }
        ensures { IfOk result (IsPlannerOf task.now budget) }
    {
        let opposed = has_opponent(task);
        Ok(Planner {
            task,
            budget,
            draft: Draft::new(alloc, task),
            plans: Vec::new(alloc),
            index: index_of(alloc, task)?,
            moves: Moves::shared(alloc, task)?,
            source: S::new(),
            quick: quick_states(opposed),
            too_few: 0,
            crowded: false,
            opposed,
            stale: false,
            restarts: 0,
            sketches: true,
        })
    }

    /// Appends a layer of the source's cube around the state, if it is dead. Returns whether it is.
    fn learn_proposed_cube(&mut self, alloc: Global, state: &State) -> Result<bool, NoMemory>
        requires planner { IsPlanner self.old }
        requires long { length state.now ≡ length self.old.task.now.atoms }
        ensures keeps { OnOk result (Keeps self.old self.new) }
        ensures lies { IfOk result (λ learnt. learnt ≡ true → LiesInLayers state.now self.new.draft.layers) }
    {
        match self.source.dead_cube(alloc, &self.draft, state)? {
            Some(cube) => self.draft.learn_cube(alloc, self.task, state, cube),
            None => Ok(false),
        }
    }

    /// Appends a layer of one cube with the state, if one is found: the source's, or that of a hopeless state. Returns whether one
    /// is.
    pub(crate) fn learn_cube(&mut self, alloc: Global, state: &State) -> Result<bool, NoMemory>
        requires planner { IsPlanner self.old }
        requires long { length state.now ≡ length self.old.task.now.atoms }
        ensures keeps { OnOk result (Keeps self.old self.new) }
        ensures lies { IfOk result (λ learnt. learnt ≡ true → LiesInLayers state.now self.new.draft.layers) }
    {
        if self.learn_proposed_cube(alloc, state)? {
            return Ok(true);
        }
        self.draft.learn_hopeless(alloc, self.task, state)
    }

    /// Appends layers of which one has the state, if some are found: one of a single cube, or else several. Returns whether one has.
    pub(crate) fn learn_dead(&mut self, alloc: Global, state: &State) -> Result<bool, NoMemory>
        requires planner { IsPlanner self.old }
        requires long { length state.now ≡ length self.old.task.now.atoms }
        ensures keeps { OnOk result (Keeps self.old self.new) }
        ensures lies { IfOk result (λ learnt. learnt ≡ true → LiesInLayers state.now self.new.draft.layers) }
    {
        if self.learn_cube(alloc, state)? {
            return Ok(true);
        }
        self.learn_layers(alloc, state)
    }

    /// What rounds have achieved: two for each pair, one for each time that rules were dropped for a plan, and one if they walk through
    /// states instead of sketching covers.
    pub(crate) fn achieved(&self) -> u64 {
        let walks = if self.sketches { 0 } else { 1 };
        self.draft
            .pairs
            .len()
            .saturating_mul(2)
            .saturating_add(self.restarts)
            .saturating_add(walks)
    }

    /// Heeds the fresh pairs of the draft, and drops all rules, to make them from the plan that has the initial state.
    fn start_over(&mut self, alloc: Global) -> Result<(), NoMemory>
        requires { IsPlanner self.old }
        ensures { OnOk result (IsPlannerOf self.old.task.now self.old.budget self.new) }
    {
        self.stale = false;
        self.restarts = self.restarts.saturating_add(1);
        self.draft.heed_fresh(alloc, self.task)?;
        self.source.forget_rules();
        Ok(())
    }

    /// Heeds the fresh pairs of the draft, and drops all rules. If there are none, a sketch missed a state without a rule, and no
    /// more are made: as long as some are made, a pair bars an action in a reachable state in which no pair of the last round did.
    fn begin_again(&mut self, alloc: Global) -> Result<(), NoMemory>
        requires { IsPlanner self.old }
        ensures planner { OnOk result (IsPlannerOf self.old.task.now self.old.budget self.new) }
        ensures more { OnOk result (self.new.sketches ≡ true → BarsMoreThan self.old.task.now self.old.draft.pairs self.new.draft.pairs) }
    {
        self.sketches = !self.draft.fresh.is_empty();
        self.draft.heed_fresh(alloc, self.task)?;
        self.source.forget_rules();
        Ok(())
    }

    /// Begins a further round: by the plan that made the rules needless, if there is one, or by the fresh pairs.
    pub(crate) fn next_round(&mut self, alloc: Global) -> Result<(), NoMemory>
        requires { IsPlanner self.old }
        ensures { OnOk result (IsPlannerOf self.old.task.now self.old.budget self.new) }
    {
        if self.stale {
            return self.start_over(alloc);
        }
        self.begin_again(alloc)
    }
}

//! Finding out about a state: rules are added until one holds in it, or it lies in a layer, or more states are reachable than the
//! budget.

ghost use Rattle.fond_planner.specs.Decisions.{IsPast};
ghost use Rattle.fond_draft.specs.Drafts.{IsDraft};
ghost use Rattle.fond_planner.specs.Finds.{IsFound};
ghost use Rattle.fond_planner.specs.Planners.{IsPlanner, Keeps};
ghost use Rattle.fond_draft.specs.Plans.{ArePlans, IsPlan};
ghost use Rattle.fond_draft.specs.Targets.{HasRule};
ghost use Rattle.fond_explicit.specs.Answers.{AreStuck, AreWinning, IsReachable};
ghost use Rattle.fond_task.specs.Certificates.{LiesInLayers};
ghost use Rattle.fond_task.specs.Policies.{IsGoal};
ghost use Rattle.std.specs.Prelude.{◌≡◌, ◌≤◌, None, true, length, IfOk, IfSome, OnOk};

use crate::limits::{Stage, is_crowded, last_stage, next_quick, stage_at};
use crate::planner::Planner;
use fond_draft::draft::Draft;
use fond_draft::make::make_rules;
use fond_draft::plan::{Plan, plan_of};
use fond_draft::source::Source;
use fond_explicit::answer::{Choices, Solved};
use fond_explicit::solve::solve_by;
use fond_layers::layers::Layers;
use fond_state::state::State;
use fond_task::task::Task;
use fond_text::fault::NoMemory;
use std::alloc::Global;

/// What is found out about a state.
#[derive(Clone, Copy)]
pub(crate) enum Found {
    /// A rule holds in it.
    Ruled,
    /// It lies in a layer.
    Dead,
}

/// Adds rules until one holds in the state, if it is one of a plan. Returns whether it is.
fn make_found(
    alloc: Global,
    t: &Task,
    draft: &mut Draft,
    plans: &[Plan],
    state: &State,
) -> Result<bool, NoMemory>
    requires draft { IsDraft t.now draft.old }
    requires plans { ArePlans t.now plans.now }
    ensures draft { OnOk result (IsDraft t.now draft.new) }
    ensures ruled { IfOk result (λ found. found ≡ true → HasRule draft.new.rules state.now) }
    ensures pairs { OnOk result (draft.new.pairs ≡ draft.old.pairs) }
{
    for plan in plans {
        if let Some(number) = plan.states.find(state) {
            make_rules(alloc, t, draft, plan, number as usize)?;
            return Ok(true);
        }
    }
    Ok(false)
}

/// Adds rules until one holds in a state from which the choices of a plan win.
fn make_won(
    alloc: Global,
    t: &Task,
    draft: &mut Draft,
    plan: &Plan,
    state: &State,
) -> Result<(), NoMemory>
    requires draft { IsDraft t.now draft.old }
    requires plan { IsPlan t.now plan.now }
    requires open { ¬ IsGoal t.now state.now }
    requires winning { AreWinning t.now state.now plan.now.choices }
    ensures draft { OnOk result (IsDraft t.now draft.new) }
    ensures ruled { OnOk result (HasRule draft.new.rules state.now) }
    ensures pairs { OnOk result (draft.new.pairs ≡ draft.old.pairs) }
{
    let Some(number) = plan.states.find(state) else {
        unreachable!()
    };
    make_rules(alloc, t, draft, plan, number as usize)?;
    Ok(())
}

/// Whether the initial state is one of a plan.
fn has_start(t: &Task, plans: &[Plan]) -> bool {
    for plan in plans {
        if plan.states.find(&t.init).is_some() {
            return true;
        }
    }
    false
}

impl<S: Source> Planner<'_, S> {
    /// Whether rules for all states that are reached had better be made from this plan: an opponent picks, there are rules from searches,
    /// which need not be as few, and no earlier plan has the initial state.
    fn makes_stale(&self, plan: &Plan) -> bool {
        self.opposed
            && self.draft.rules.len() > 0
            && plan.states.find(&self.task.init).is_some()
            && !has_start(self.task, self.plans.as_slice())
    }

    /// Adds rules until one holds in a state from which choices win, and keeps these as a plan.
    fn win(&mut self, alloc: Global, state: &State, choices: Choices) -> Result<(), NoMemory>
        requires planner { IsPlanner self.old }
        requires long { length state.now ≡ length self.old.task.now.atoms }
        requires open { ¬ IsGoal self.old.task.now state.now }
        requires winning { AreWinning self.old.task.now state.now choices }
        ensures keeps { OnOk result (Keeps self.old self.new) }
        ensures ruled { OnOk result (HasRule self.new.draft.rules state.now) }
    {
        let plan = plan_of(alloc, self.task, choices)?;
        self.stale |= self.makes_stale(&plan);
        make_won(alloc, self.task, &mut self.draft, &plan, state)?;
        self.plans.push(plan)?;
        Ok(())
    }

    /// Keeps layers for a state that is stuck in these: others of few cubes, if the source finds some, or else these.
    fn lose(&mut self, alloc: Global, state: &State, layers: Layers) -> Result<(), NoMemory>
        requires planner { IsPlanner self.old }
        requires long { length state.now ≡ length self.old.task.now.atoms }
        requires stuck { AreStuck self.old.task.now state.now layers }
        requires lies { LiesInLayers state.now layers }
        ensures keeps { OnOk result (Keeps self.old self.new) }
        ensures lies { OnOk result (LiesInLayers state.now self.new.draft.layers) }
    {
        self.learn_lost(alloc, &layers)?;
        if self.draft.layers.dead(state).is_some() {
            return Ok(());
        }
        self.draft.learn(alloc, self.task, layers)?;
        Ok(())
    }

    /// Finds out about a state by opening states from it. None only if more than `budget` states are reachable.
    fn find_by_states(
        &mut self,
        alloc: Global,
        budget: u32,
        state: &State,
    ) -> Result<Option<Found>, NoMemory>
        requires few { budget ≤ 1000000 }
        requires planner { IsPlanner self.old }
        requires reachable { IsReachable self.old.task.now self.old.task.now.init state.now }
        requires open { ¬ IsGoal self.old.task.now state.now }
        ensures keeps { OnOk result (Keeps self.old self.new) }
        ensures found { IfOk result (λ found. IfSome found (IsFound self.new.draft state.now)) }
        ensures past { IfOk result (λ found. found ≡ None → IsPast self.old.task.now budget) }
    {
        let mut opened = 0;
        match solve_by(alloc, self.task, &self.index, state, budget, &mut opened)? {
            Solved::Won(choices, _) => {
                self.win(alloc, state, choices)?;
                Ok(Some(Found::Ruled))
            }
            Solved::Lost(layers) => {
                self.lose(alloc, state, layers)?;
                Ok(Some(Found::Dead))
            }
            Solved::Spent => {
                self.crowded = is_crowded(opened, budget);
                Ok(None)
            }
        }
    }

    /// Finds out about a state by the layers and plans that are there.
    fn find_known(&mut self, alloc: Global, state: &State) -> Result<Option<Found>, NoMemory>
        requires planner { IsPlanner self.old }
        requires long { length state.now ≡ length self.old.task.now.atoms }
        ensures keeps { OnOk result (Keeps self.old self.new) }
        ensures found { IfOk result (λ found. IfSome found (IsFound self.new.draft state.now)) }
    {
        if self.draft.layers.dead(state).is_some() {
            return Ok(Some(Found::Dead));
        }
        if make_found(
            alloc,
            self.task,
            &mut self.draft,
            self.plans.as_slice(),
            state,
        )? {
            return Ok(Some(Found::Ruled));
        }
        Ok(None)
    }

    /// Finds out about a state by searches of the source.
    fn find_by_search(
        &mut self,
        alloc: Global,
        state: &State,
        stage: Stage,
    ) -> Result<Option<Found>, NoMemory>
        requires planner { IsPlanner self.old }
        requires reachable { IsReachable self.old.task.now self.old.task.now.init state.now }
        ensures keeps { OnOk result (Keeps self.old self.new) }
        ensures found { IfOk result (λ found. IfSome found (IsFound self.new.draft state.now)) }
    {
        if self.seek(alloc, state, stage)? {
            return Ok(Some(Found::Ruled));
        }
        if self.draft.layers.dead(state).is_some() {
            return Ok(Some(Found::Dead));
        }
        Ok(None)
    }

    /// Finds out about a state by opening states from it, unless that many were too few once, and then by searches.
    fn find_in_stage(
        &mut self,
        alloc: Global,
        state: &State,
        stage: Stage,
    ) -> Result<Option<Found>, NoMemory>
        requires few { stage.states ≤ 1000000 }
        requires planner { IsPlanner self.old }
        requires reachable { IsReachable self.old.task.now self.old.task.now.init state.now }
        requires open { ¬ IsGoal self.old.task.now state.now }
        ensures keeps { OnOk result (Keeps self.old self.new) }
        ensures found { IfOk result (λ found. IfSome found (IsFound self.new.draft state.now)) }
    {
        if stage.states <= self.too_few {
            return self.find_by_search(alloc, state, stage);
        }
        if let Some(found) = self.find_by_states(alloc, stage.states, state)? {
            return Ok(Some(found));
        }
        self.too_few = stage.states;
        self.find_by_search(alloc, state, stage)
    }

    /// Finds out about a state by opening states from it. If the budget was too few once, long searches come before, and if it is
    /// now, after. None only if more states than the budget are reachable.
    fn find_at_last(&mut self, alloc: Global, state: &State) -> Result<Option<Found>, NoMemory>
        requires planner { IsPlanner self.old }
        requires reachable { IsReachable self.old.task.now self.old.task.now.init state.now }
        requires open { ¬ IsGoal self.old.task.now state.now }
        ensures keeps { OnOk result (Keeps self.old self.new) }
        ensures found { IfOk result (λ found. IfSome found (IsFound self.new.draft state.now)) }
        ensures past { IfOk result (λ found. found ≡ None → IsPast self.old.task.now self.old.budget) }
    {
        if self.too_few >= self.budget {
            if let Some(found) = self.find_by_search(alloc, state, last_stage(self.budget))? {
                return Ok(Some(found));
            }
            return self.find_by_states(alloc, self.budget, state);
        }
        if let Some(found) = self.find_by_states(alloc, self.budget, state)? {
            return Ok(Some(found));
        }
        self.too_few = self.budget;
        self.find_by_search(alloc, state, last_stage(self.budget))
    }

    /// The stage of this number, if the first one opens `quick` states. The third one opens none in a crowded task with an opponent.
    fn stage(&self, number: u32, quick: u32) -> Stage
        ensures { result.states ≤ self.now.budget }
    {
        let acts = self.task.acts.len();
        let mut stage = stage_at(number, self.opposed, quick, acts, self.budget);
        if number == 2 && self.opposed && self.crowded {
            stage.states = 0;
        }
        stage
    }

    /// Finds out about a state that is no goal: by what is known, and then in stages, each of which opens more states and searches
    /// for longer. Rules are added until one holds in the state, or it lies in a layer afterwards. None only if more states than the
    /// budget are reachable.
    pub(crate) fn find(&mut self, alloc: Global, state: &State) -> Result<Option<Found>, NoMemory>
        requires planner { IsPlanner self.old }
        requires reachable { IsReachable self.old.task.now self.old.task.now.init state.now }
        requires open { ¬ IsGoal self.old.task.now state.now }
        ensures keeps { OnOk result (Keeps self.old self.new) }
        ensures found { IfOk result (λ found. IfSome found (IsFound self.new.draft state.now)) }
        ensures past { IfOk result (λ found. found ≡ None → IsPast self.old.task.now self.old.budget) }
    {
        if let Some(found) = self.find_known(alloc, state)? {
            return Ok(Some(found));
        }
        let quick = self.quick;
        self.quick = next_quick(self.opposed, quick);
        let first = self.stage(0, quick);
        if let Some(found) = self.find_in_stage(alloc, state, first)? {
            return Ok(Some(found));
        }
        let second = self.stage(1, quick);
        if let Some(found) = self.find_in_stage(alloc, state, second)? {
            return Ok(Some(found));
        }
        let third = self.stage(2, quick);
        if let Some(found) = self.find_in_stage(alloc, state, third)? {
            return Ok(Some(found));
        }
        self.find_at_last(alloc, state)
    }
}

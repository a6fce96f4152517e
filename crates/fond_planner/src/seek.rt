//! Rules from plans of the source.

ghost use Rattle.fond_planner.specs.Planners.{IsPlanner, Keeps};
ghost use Rattle.fond_planner.specs.Seeks.{IsSought};
ghost use Rattle.fond_draft.specs.Targets.{HasRule};
ghost use Rattle.fond_draft.specs.Turns.{AreReachable, AreTurns, IsTurn};
ghost use Rattle.fond_explicit.specs.Answers.{IsReachable};
ghost use Rattle.std.specs.Prelude.{◌≡◌, true, length, IfOk, IfSome, OnOk};

use crate::limits::{SEEKS, Stage};
use crate::planner::Planner;
use fond_draft::make::add_rule;
use fond_draft::replay::replay;
use fond_draft::source::Source;
use fond_draft::turn::{first_open, is_ready};
use fond_explicit::answer::{Choices, Pick};
use fond_state::state::State;
use fond_task::hint::Hint;
use fond_task::plan_step::PlanSteps;
use fond_task::truth::is_goal;
use fond_text::fault::NoMemory;
use std::alloc::Global;

/// What became of a state that was sought.
#[derive(Drop)]
enum Sought {
    /// It is a goal, a rule holds in it, or it lies in a layer.
    Known,
    /// This state has to be sought before.
    After(State),
    /// Nothing.
    GaveUp,
}

impl<S: Source> Planner<'_, S> {
    /// The next state of a turn in which no rule holds and which is no goal, if its action is unfair: it has to be sought before.
    /// The source goes on in it from now on. `next` is overwritten.
    fn open_next(
        &mut self,
        alloc: Global,
        turn: &Pick,
        next: &mut State,
    ) -> Result<Option<State>, NoMemory>
        requires planner { IsPlanner self.old }
        requires turn { IsTurn self.old.task.now turn.now }
        requires next_long { length next.old ≡ length self.old.task.now.atoms }
        ensures keeps { OnOk result (Keeps self.old self.new) }
        ensures reachable { IfOk result (λ found. IfSome found (IsReachable self.old.task.now self.old.task.now.init)) }
    {
        if !self.task.acts.get(turn.act as usize).unfair {
            return Ok(None);
        }
        let Some(outcome) = first_open(self.task, &self.draft.rules, turn, next) else {
            return Ok(None);
        };
        if self.draft.layers.dead(next).is_some() {
            return Ok(None);
        }
        self.source.respond(&turn.state, turn.act, outcome)?;
        Ok(Some(next.copy(alloc)?))
    }

    /// Adds rules for turns, the last first, as long as each of them is ready and unless a rule holds in its state. Returns the
    /// state that has to be sought before, if there is one. `next` is overwritten.
    fn make_turns(
        &mut self,
        alloc: Global,
        turns: &Choices,
        next: &mut State,
    ) -> Result<Option<State>, NoMemory>
        requires planner { IsPlanner self.old }
        requires turns { AreTurns self.old.task.now turns.now }
        requires next_long { length next.old ≡ length self.old.task.now.atoms }
        ensures keeps { OnOk result (Keeps self.old self.new) }
        ensures reachable { IfOk result (λ found. IfSome found (IsReachable self.old.task.now self.old.task.now.init)) }
    {
        for done in 0..turns.len() {
            let turn = turns.get(turns.len() - 1 - done);
            if self.draft.rules.select(&turn.state).is_some() {
                continue;
            }
            if !is_ready(alloc, self.task, &self.draft, turn, next)? {
                return self.open_next(alloc, turn, next);
            }
            add_rule(alloc, self.task, &mut self.draft, turn, next)?;
        }
        Ok(None)
    }

    /// Adds rules for the steps of a plan from the state.
    fn take_steps(
        &mut self,
        alloc: Global,
        state: &State,
        steps: &PlanSteps,
    ) -> Result<Sought, NoMemory>
        requires planner { IsPlanner self.old }
        requires reachable { IsReachable self.old.task.now self.old.task.now.init state.now }
        ensures keeps { OnOk result (Keeps self.old self.new) }
        ensures sought { IfOk result (IsSought self.old.task.now) }
    {
        let turns = replay(alloc, self.task, state, steps)?;
        let mut next = state.copy(alloc)?;
        if let Some(earlier) = self.make_turns(alloc, &turns, &mut next)? {
            return Ok(Sought::After(earlier));
        }
        if self.draft.rules.select(state).is_some() {
            return Ok(Sought::Known);
        }
        Ok(Sought::GaveUp)
    }

    /// Whether the state is a goal, a rule holds in it, or it lies in a layer.
    fn is_known(&self, state: &State) -> bool
        requires planner { IsPlanner self.now }
        requires long { length state.now ≡ length self.now.task.now.atoms }
    {
        if is_goal(self.task, state) {
            return true;
        }
        if self.draft.rules.select(state).is_some() {
            return true;
        }
        self.draft.layers.dead(state).is_some()
    }

    /// Asks the source for a plan from the state, and makes rules of it; if there is none, looks for a layer that has the state.
    fn seek_one(&mut self, alloc: Global, state: &State) -> Result<Sought, NoMemory>
        requires planner { IsPlanner self.old }
        requires reachable { IsReachable self.old.task.now self.old.task.now.init state.now }
        ensures keeps { OnOk result (Keeps self.old self.new) }
        ensures sought { IfOk result (IsSought self.old.task.now) }
    {
        if self.is_known(state) {
            return Ok(Sought::Known);
        }
        if let Hint::Steps(steps) = self.source.plan(alloc, &self.draft, state)? {
            return self.take_steps(alloc, state, &steps);
        }
        if self.learn_dead(alloc, state)? {
            return Ok(Sought::Known);
        }
        Ok(Sought::GaveUp)
    }

    /// Seeks the last of the waiting states, which waits no longer, unless another one has to be sought before: then both wait.
    /// Returns false if nothing became of it, or none waits.
    fn seek_last(&mut self, alloc: Global, waiting: &mut Vec<State>) -> Result<bool, NoMemory>
        requires planner { IsPlanner self.old }
        requires reached { AreReachable self.old.task.now waiting.old.items }
        ensures keeps { OnOk result (Keeps self.old self.new) }
        ensures reached { OnOk result (AreReachable self.new.task.now waiting.new.items) }
    {
        let Some(state) = waiting.pop() else {
            return Ok(false);
        };
        match self.seek_one(alloc, &state)? {
            Sought::Known => Ok(true),
            Sought::After(next) => {
                waiting.push(state)?;
                waiting.push(next)?;
                Ok(true)
            }
            Sought::GaveUp => Ok(false),
        }
    }

    /// Seeks the waiting states, the last first, and those that have to be sought before them, as long as there are no more rules than
    /// this.
    fn seek_all(
        &mut self,
        alloc: Global,
        waiting: &mut Vec<State>,
        rules: u32,
    ) -> Result<(), NoMemory>
        requires planner { IsPlanner self.old }
        requires reached { AreReachable self.old.task.now waiting.old.items }
        ensures { OnOk result (Keeps self.old self.new) }
    {
        for _seek in 0..SEEKS {
            if self.draft.rules.len() > rules || !self.seek_last(alloc, waiting)? {
                return Ok(());
            }
        }
        Ok(())
    }

    /// Adds rules by plans of the source until one holds in the state, within a stage. The state may lie in a layer afterwards,
    /// and there may be further rules and layers, also if nothing was found. Returns whether a rule holds in the state.
    pub(crate) fn seek(
        &mut self,
        alloc: Global,
        state: &State,
        stage: Stage,
    ) -> Result<bool, NoMemory>
        requires planner { IsPlanner self.old }
        requires reachable { IsReachable self.old.task.now self.old.task.now.init state.now }
        ensures keeps { OnOk result (Keeps self.old self.new) }
        ensures ruled { IfOk result (λ found. found ≡ true → HasRule self.new.draft.rules state.now) }
    {
        self.source
            .allow(alloc, self.task, &self.moves, stage.effort)?;
        let mut waiting = Vec::new(alloc);
        waiting.push(state.copy(alloc)?)?;
        self.seek_all(alloc, &mut waiting, stage.rules)?;
        Ok(self.draft.rules.select(state).is_some())
    }
}

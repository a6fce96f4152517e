//! The walk that finds states in which no rule holds, and what is done about them.

ghost use Rattle.fond_draft.specs.Drafts.{IsDraft, IsFitting};
ghost use Rattle.fond_planner.specs.Decisions.{IsPast};
ghost use Rattle.fond_planner.specs.Finds.{IsBegun, IsRound};
ghost use Rattle.fond_planner.specs.Planners.{IsPlanner, Keeps};
ghost use Rattle.fond_draft.specs.Turns.{AreReachable};
ghost use Rattle.fond_planner.specs.Walks.{IsOutset, IsSettled, IsStep};
ghost use Rattle.fond_explicit.specs.Answers.{IsReachable};
ghost use Rattle.fond_task.specs.Certificates.{LiesInLayers};
ghost use Rattle.fond_task.specs.Policies.{IsGoal};
ghost use Rattle.fond_task.specs.declared.rule.Pair.{Pair};
ghost use Rattle.fond_layers.specs.Deads.{IsFirstDead};
ghost use Rattle.fond_layers.specs.Over.{AreOver};
ghost use Rattle.fond_regress.specs.Barred.{Bars, IsBarred};
ghost use Rattle.std.specs.Prelude.{◌≡◌, ◌<◌, ◌≤◌, false, true, length, Contains, IfOk, OnOk};

use crate::find::Found;
use crate::limits::walk_limit;
use crate::planner::Planner;
use crate::sketched::Sketched;
use fond_draft::draft::Draft;
use fond_draft::source::Source;
use fond_layers::layers::Layers;
use fond_policy::items::Items;
use fond_policy::walk::one_state;
use fond_regress::barred::is_barred;
use fond_regress::pair::lean_pair;
use fond_state::state::State;
use fond_store::store::Store;
use fond_task::rule::Pair;
use fond_task::step::apply_into;
use fond_task::task::Task;
use fond_task::truth::is_goal;
use fond_text::fault::NoMemory;
use std::alloc::Global;

/// A step of a walk: an outcome of an action leads from a state to the next one.
#[derive(Drop)]
pub(crate) struct Step {
    pub(crate) state: State,
    pub(crate) act: u32,
    pub(crate) outcome: u32,
    pub(crate) next: State,
}

/// The step of a walk that has not begun: its states are the initial one.
pub(crate) fn first_step(alloc: Global, t: &Task) -> Result<Step, NoMemory>
    ensures state { IfOk result (λ step. step.state ≡ t.now.init) }
    ensures next { IfOk result (λ step. step.next ≡ t.now.init) }
{
    Ok(Step {
        state: t.init.copy(alloc)?,
        act: 0,
        outcome: 0,
        next: t.init.copy(alloc)?,
    })
}

/// What is found out about the initial state.
#[derive(Clone, Copy)]
enum Begun {
    /// It is a goal, or a rule holds in it.
    Ruled,
    /// It lies in a layer.
    Lost,
    /// More states are reachable than the budget.
    Past,
}

/// How a round ends.
#[derive(Drop)]
pub(crate) enum Round {
    /// No state without a rule is left to settle. If they were sketched, these items may cover the states that the rules reach.
    Walked(Option<Items>),
    /// The initial state lies in a layer.
    Lost,
    /// More states are reachable than the budget.
    Past,
}

/// The pair that bars the action of a step in its state, whose next state lies in this cube of this layer.
fn pair_of(
    alloc: Global,
    t: &Task,
    layers: &Layers,
    step: &Step,
    layer: u32,
    cube: u32,
) -> Result<Pair, NoMemory>
    requires over { AreOver (length t.now.atoms) layers.now }
    requires step { IsStep t.now step.now }
    requires dead { IsFirstDead step.now.next layers.now layer cube }
    ensures fitting { IfOk result (IsFitting t.now layers.now) }
    ensures bars { IfOk result (λ pair. Bars pair step.now.act step.now.state) }
{
    let pair = lean_pair(
        alloc,
        t,
        layers,
        &step.state,
        step.act,
        step.outcome,
        layer,
        cube,
    )?;
    Ok(pair)
}

/// Bars the action of a step in its state by a fresh pair, unless one bars it already.
fn bar(alloc: Global, t: &Task, draft: &mut Draft, step: &Step) -> Result<(), NoMemory>
    requires draft { IsDraft t.now draft.old }
    requires step { IsStep t.now step.now }
    requires lies { LiesInLayers step.now.next draft.old.layers }
    requires free { ¬ IsBarred draft.old.pairs step.now.act step.now.state }
    ensures draft { OnOk result (IsDraft t.now draft.new) }
    ensures layers { draft.new.layers ≡ draft.old.layers }
    ensures barred { OnOk result (IsBarred draft.new.fresh.items step.now.act step.now.state) }
    ensures pairs { OnOk result (draft.new.pairs ≡ draft.old.pairs) }
{
    if is_barred(draft.fresh.as_slice(), step.act, &step.state) {
        return Ok(());
    }
    let Some((layer, cube)) = draft.layers.dead(&step.next) else {
        unreachable!()
    };
    let pair = pair_of(alloc, t, &draft.layers, step, layer, cube)?;
    draft.fresh.push(pair)?;
    Ok(())
}

impl<S: Source> Planner<'_, S> {
    /// Finds out about the next state of a step, which is no goal and in which no rule holds. If it lies in a layer, the action of
    /// the step is barred. Returns false only if more states than the budget are reachable.
    fn settle(&mut self, alloc: Global, step: &Step) -> Result<bool, NoMemory>
        requires planner { IsPlanner self.old }
        requires step { IsStep self.old.task.now step.now }
        requires open { ¬ IsGoal self.old.task.now step.now.next }
        requires free { ¬ IsBarred self.old.draft.pairs step.now.act step.now.state }
        ensures keeps { OnOk result (Keeps self.old self.new) }
        ensures settled { IfOk result (λ within. within ≡ true → IsSettled self.old.task.now self.new.draft step.now) }
        ensures past { IfOk result (λ within. within ≡ false → IsPast self.old.task.now self.old.budget) }
    {
        self.source.leave(&step.state);
        match self.find(alloc, &step.next)? {
            Some(Found::Ruled) => Ok(true),
            Some(Found::Dead) => {
                bar(alloc, self.task, &mut self.draft, step)?;
                Ok(true)
            }
            None => Ok(false),
        }
    }

    /// Settles the next state of a step if it is no goal and no rule holds in it. Returns false only if more states than the budget
    /// are reachable.
    pub(crate) fn settle_next(&mut self, alloc: Global, step: &Step) -> Result<bool, NoMemory>
        requires planner { IsPlanner self.old }
        requires step { IsStep self.old.task.now step.now }
        requires free { ¬ IsBarred self.old.draft.pairs step.now.act step.now.state }
        ensures keeps { OnOk result (Keeps self.old self.new) }
        ensures past { IfOk result (λ within. within ≡ false → IsPast self.old.task.now self.old.budget) }
    {
        if is_goal(self.task, &step.next) {
            return Ok(true);
        }
        if self.draft.rules.select(&step.next).is_some() {
            return Ok(true);
        }
        let within = self.settle(alloc, step)?;
        Ok(within)
    }

    /// Takes a step: adds its next state to the states unless it is a goal, and settles it if no rule holds in it. Returns
    /// false only if more states than the budget are reachable, which is also so if there are too many states to walk on.
    fn take(&mut self, alloc: Global, step: &Step, states: &mut Store) -> Result<bool, NoMemory>
        requires planner { IsPlanner self.old }
        requires step { IsStep self.old.task.now step.now }
        requires reachable { AreReachable self.old.task.now states.old }
        requires free { ¬ IsBarred self.old.draft.pairs step.now.act step.now.state }
        ensures keeps { OnOk result (Keeps self.old self.new) }
        ensures reachable { OnOk result (AreReachable self.new.task.now states.new) }
        ensures past { IfOk result (λ within. within ≡ false → IsPast self.old.task.now self.old.budget) }
    {
        if is_goal(self.task, &step.next) || states.find(&step.next).is_some() {
            return Ok(true);
        }
        if states.len() >= walk_limit(self.task) {
            return Ok(false);
        }
        states.add(step.next.copy(alloc)?)?;
        let within = self.settle_next(alloc, step)?;
        Ok(within)
    }

    /// Takes the step of each outcome of a step's action in its state. Returns false only if more states than the budget are
    /// reachable.
    fn take_all(
        &mut self,
        alloc: Global,
        step: &mut Step,
        states: &mut Store,
    ) -> Result<bool, NoMemory>
        requires planner { IsPlanner self.old }
        requires outset { IsOutset self.old.task.now step.old }
        requires reachable { AreReachable self.old.task.now states.old }
        requires free { ¬ IsBarred self.old.draft.pairs step.old.act step.old.state }
        ensures keeps { OnOk result (Keeps self.old self.new) }
        ensures reachable { OnOk result (AreReachable self.new.task.now states.new) }
        ensures same { step.new.state ≡ step.old.state }
        ensures long { length step.new.next ≡ length step.old.next }
        ensures past { IfOk result (λ within. within ≡ false → IsPast self.old.task.now self.old.budget) }
    {
        let task = self.task;
        for outcome in 0..task.acts.get(step.act as usize).outcomes.len() {
            step.outcome = outcome as u32;
            apply_into(task, &step.state, step.act, step.outcome, &mut step.next);
            if !self.take(alloc, step, states)? {
                return Ok(false);
            }
        }
        Ok(true)
    }

    /// Sets the action of a step to that of the first rule that holds in its state. Returns false if the state is a goal, or if no
    /// rule holds in it.
    pub(crate) fn set_act(&self, step: &mut Step) -> bool
        requires planner { IsPlanner self.now }
        requires here { IsReachable self.now.task.now self.now.task.now.init step.old.state }
        requires next_long { length step.old.next ≡ length self.now.task.now.atoms }
        ensures same { step.new.state ≡ step.old.state }
        ensures next { step.new.next ≡ step.old.next }
        ensures outset { result ≡ true → IsOutset self.now.task.now step.new }
        ensures free { result ≡ true → ¬ IsBarred self.now.draft.pairs step.new.act step.new.state }
    {
        if is_goal(self.task, &step.state) {
            return false;
        }
        let Some(rule) = self.draft.rules.select(&step.state) else {
            return false;
        };
        step.act = self.draft.rules.get(rule).act;
        true
    }

    /// Takes the steps out of a state by the first rule that holds in it, unless it is a goal. Returns false only if more
    /// states than the budget are reachable.
    fn visit(
        &mut self,
        alloc: Global,
        step: &mut Step,
        states: &mut Store,
    ) -> Result<bool, NoMemory>
        requires planner { IsPlanner self.old }
        requires here { IsReachable self.old.task.now self.old.task.now.init step.old.state }
        requires next_long { length step.old.next ≡ length self.old.task.now.atoms }
        requires reachable { AreReachable self.old.task.now states.old }
        ensures keeps { OnOk result (Keeps self.old self.new) }
        ensures reachable { OnOk result (AreReachable self.new.task.now states.new) }
        ensures same { step.new.state ≡ step.old.state }
        ensures long { length step.new.next ≡ length step.old.next }
        ensures past { IfOk result (λ within. within ≡ false → IsPast self.old.task.now self.old.budget) }
    {
        if !self.set_act(step) {
            return Ok(true);
        }
        self.take_all(alloc, step, states)
    }

    /// Finds out about the initial state, if it is no goal and no rule holds in it.
    fn begin(&mut self, alloc: Global) -> Result<Begun, NoMemory>
        requires { IsPlanner self.old }
        ensures keeps { OnOk result (Keeps self.old self.new) }
        ensures begun { IfOk result (IsBegun self.old.task.now self.old.budget self.new.draft) }
    {
        if is_goal(self.task, &self.task.init) {
            return Ok(Begun::Ruled);
        }
        if self.draft.rules.select(&self.task.init).is_some() {
            return Ok(Begun::Ruled);
        }
        match self.find(alloc, &self.task.init)? {
            Some(Found::Ruled) => Ok(Begun::Ruled),
            Some(Found::Dead) => Ok(Begun::Lost),
            None => Ok(Begun::Past),
        }
    }

    /// Walks on from the states, which are reachable, as `walk` does. `step` is overwritten.
    fn walk_on(
        &mut self,
        alloc: Global,
        step: &mut Step,
        states: &mut Store,
    ) -> Result<bool, NoMemory>
        requires planner { IsPlanner self.old }
        requires reachable { AreReachable self.old.task.now states.old }
        requires state_long { length step.old.state ≡ length self.old.task.now.atoms }
        requires next_long { length step.old.next ≡ length self.old.task.now.atoms }
        ensures keeps { OnOk result (Keeps self.old self.new) }
        ensures past { IfOk result (λ within. within ≡ false → IsPast self.old.task.now self.old.budget) }
    {
        let mut at = 0;
        while at < states.len() {
            step.state.copy_from(states.get(at));
            if !self.visit(alloc, step, states)? {
                return Ok(false);
            }
            at += 1;
        }
        Ok(true)
    }

    /// Walks through all states that the rules reach from the initial state, as `round` does.
    fn walk(&mut self, alloc: Global) -> Result<bool, NoMemory>
        requires { IsPlanner self.old }
        ensures keeps { OnOk result (Keeps self.old self.new) }
        ensures past { IfOk result (λ within. within ≡ false → IsPast self.old.task.now self.old.budget) }
    {
        let mut step = first_step(alloc, self.task)?;
        let mut states = one_state(alloc, &self.task.init)?;
        self.walk_on(alloc, &mut step, &mut states)
    }

    /// Settles each state without a rule that the rules reach from the initial state, which is a goal or has a rule: along a sketch
    /// of a cover, or in a walk through all these states if there is none, or too much to do for it.
    fn settle_all(&mut self, alloc: Global) -> Result<Round, NoMemory>
        requires { IsPlanner self.old }
        ensures keeps { OnOk result (Keeps self.old self.new) }
        ensures round { IfOk result (IsRound self.old.task.now self.old.budget self.new.draft) }
    {
        if self.sketches {
            match self.walk_sketch(alloc)? {
                Sketched::Walked(items) => return Ok(Round::Walked(items)),
                Sketched::Past => return Ok(Round::Past),
                Sketched::GaveUp => {}
            }
        }
        if self.walk(alloc)? {
            Ok(Round::Walked(None))
        } else {
            Ok(Round::Past)
        }
    }

    /// Makes rules for the initial state, and settles each state that the rules reach in which none holds: rules are added, or a
    /// fresh pair bars the action that led there.
    pub(crate) fn round(&mut self, alloc: Global) -> Result<Round, NoMemory>
        requires { IsPlanner self.old }
        ensures keeps { OnOk result (Keeps self.old self.new) }
        ensures round { IfOk result (IsRound self.old.task.now self.old.budget self.new.draft) }
    {
        match self.begin(alloc)? {
            Begun::Ruled => self.settle_all(alloc),
            Begun::Lost => Ok(Round::Lost),
            Begun::Past => Ok(Round::Past),
        }
    }
}

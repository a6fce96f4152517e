//! The walk along a cover in the making. A sketch puts a next state under a partial state that it has already, if one holds
//! there, so only states for which a new partial state is made are kept and visited, and what the rules reach is never listed.

ghost use Rattle.fond_planner.specs.Decisions.{IsPast};
ghost use Rattle.fond_planner.specs.Planners.{IsPlanner, Keeps};
ghost use Rattle.fond_draft.specs.Turns.{AreReachable};
ghost use Rattle.fond_planner.specs.Walks.{IsStep, IsTrail};
ghost use Rattle.fond_planner.specs.declared.sketched.Followed.TheVariants.{Past as IsPastEnd};
ghost use Rattle.fond_planner.specs.declared.sketched.Sketched.TheVariants.{Past as IsPastSketch};
ghost use Rattle.fond_explicit.specs.Answers.{IsReachable};
ghost use Rattle.fond_regress.specs.Barred.{IsBarred};
ghost use Rattle.std.specs.Prelude.{◌≡◌, ◌≤◌, true, length, IfOk, OnOk};

use crate::planner::Planner;
use crate::walk::{Step, first_step};
use fond_covering::sketch::{Edge, Looked, Sketch};
use fond_draft::source::Source;
use fond_moves::moves::Moves;
use fond_policy::items::Items;
use fond_policy::walk::one_state;
use fond_store::store::Store;
use fond_task::shared::Shared;
use fond_task::step::apply_into;
use fond_task::task::Task;
use fond_text::fault::NoMemory;
use std::alloc::Global;

/// A walk along a sketch: the sketch, the states of its nodes by their numbers, and a step that is overwritten.
#[derive(Drop)]
pub(crate) struct Trail {
    sketch: Box<Sketch>,
    states: Store,
    step: Step,
}

/// What came of an edge, or of all.
#[derive(Clone, Copy)]
enum Followed {
    /// It leads into a node, or its action is barred.
    On,
    /// There was too much to do.
    GaveUp,
    /// More states are reachable than the budget.
    Past,
}

/// How a walk along a sketch ends.
#[derive(Drop)]
pub(crate) enum Sketched {
    /// With the items of the sketch, if it has them.
    Walked(Option<Items>),
    /// There was too much to do.
    GaveUp,
    /// More states are reachable than the budget.
    Past,
}

/// A trail that has not begun: its only state is the initial one. The moves are those of the task.
fn trail_of(alloc: Global, t: &Task, moves: &Shared<Moves>) -> Result<Trail, NoMemory>
    ensures { IfOk result (IsTrail t.now) }
{
    let sketch = Sketch::new(alloc, moves.share()?)?;
    let states = one_state(alloc, &t.init)?;
    let step = first_step(alloc, t)?;
    Ok(Trail {
        sketch,
        states,
        step,
    })
}

impl Trail {
    /// Lets the sketch look at an edge, whose next state is that of the step. If it makes a node for it, the state is kept.
    fn look(&mut self, alloc: Global, t: &Task, edge: Edge) -> Result<Followed, NoMemory>
        requires trail { IsTrail t.now self.old }
        requires next { IsReachable t.now t.now.init self.old.step.next }
        ensures trail { OnOk result (IsTrail t.now self.new) }
        ensures within { IfOk result (λ followed. ¬ followed ≡ IsPastEnd) }
    {
        if matches!(self.sketch.look(t, edge)?, Looked::Spent) {
            return Ok(Followed::GaveUp);
        }
        if self.sketch.len() == self.states.len() {
            return Ok(Followed::On);
        }
        if self.states.len() == u32::MAX {
            return Ok(Followed::GaveUp);
        }
        self.states.add(self.step.next.copy(alloc)?)?;
        if self.sketch.len() != self.states.len() {
            return Ok(Followed::GaveUp);
        }
        Ok(Followed::On)
    }
}

impl<S: Source> Planner<'_, S> {
    /// Adds the rules that the sketch does not have yet.
    fn tell(&self, sketch: &mut Sketch) -> Result<(), NoMemory> {
        for number in sketch.rules()..self.draft.rules.len() {
            let rule = self.draft.rules.get(number);
            sketch.add_rule(&rule.cond, rule.act)?;
        }
        Ok(())
    }

    /// Makes the step of this outcome out of its state, which is reachable, by the first rule that holds there. Returns false if
    /// there is no such step.
    fn set_out(&self, step: &mut Step, outcome: u32) -> bool
        requires planner { IsPlanner self.now }
        requires here { IsReachable self.now.task.now self.now.task.now.init step.old.state }
        requires next_long { length step.old.next ≡ length self.now.task.now.atoms }
        ensures same { step.new.state ≡ step.old.state }
        ensures long { length step.new.next ≡ length step.old.next }
        ensures step { result ≡ true → IsStep self.now.task.now step.new }
        ensures free { result ≡ true → ¬ IsBarred self.now.draft.pairs step.new.act step.new.state }
    {
        if !self.set_act(step) {
            return false;
        }
        step.outcome = outcome;
        if outcome as usize >= self.task.acts.get(step.act as usize).outcomes.len() {
            return false;
        }
        apply_into(self.task, &step.state, step.act, outcome, &mut step.next);
        true
    }

    /// Follows an edge: settles its next state if no rule holds there and it is no goal, and lets the sketch look at it.
    fn follow(&mut self, alloc: Global, edge: Edge, trail: &mut Trail) -> Result<Followed, NoMemory>
        requires planner { IsPlanner self.old }
        requires trail { IsTrail self.old.task.now trail.old }
        ensures keeps { OnOk result (Keeps self.old self.new) }
        ensures trail { OnOk result (IsTrail self.new.task.now trail.new) }
        ensures past { IfOk result (λ followed. followed ≡ IsPastEnd → IsPast self.old.task.now self.old.budget) }
    {
        if edge.node >= trail.states.len() {
            return Ok(Followed::GaveUp);
        }
        trail.step.state.copy_from(trail.states.get(edge.node));
        if !self.set_out(&mut trail.step, edge.outcome) {
            return Ok(Followed::GaveUp);
        }
        if !self.settle_next(alloc, &trail.step)? {
            return Ok(Followed::Past);
        }
        self.tell(&mut trail.sketch)?;
        trail.look(alloc, self.task, edge)
    }

    /// Follows the edges of a sketch until none is left to look at.
    fn follow_all(&mut self, alloc: Global, trail: &mut Trail) -> Result<Followed, NoMemory>
        requires planner { IsPlanner self.old }
        requires trail { IsTrail self.old.task.now trail.old }
        ensures keeps { OnOk result (Keeps self.old self.new) }
        ensures past { IfOk result (λ followed. followed ≡ IsPastEnd → IsPast self.old.task.now self.old.budget) }
    {
        for _edge in 0..u64::MAX {
            let Some(edge) = trail.sketch.next() else {
                return Ok(Followed::On);
            };
            let followed = self.follow(alloc, edge, trail)?;
            if !matches!(followed, Followed::On) {
                return Ok(followed);
            }
        }
        Ok(Followed::GaveUp)
    }

    /// Walks along a trail that has not begun, as `walk_sketch` does.
    fn walk_trail(&mut self, alloc: Global, trail: &mut Trail) -> Result<Sketched, NoMemory>
        requires planner { IsPlanner self.old }
        requires trail { IsTrail self.old.task.now trail.old }
        ensures keeps { OnOk result (Keeps self.old self.new) }
        ensures past { IfOk result (λ sketched. sketched ≡ IsPastSketch → IsPast self.old.task.now self.old.budget) }
    {
        self.tell(&mut trail.sketch)?;
        if !trail.sketch.begin(self.task)? {
            return Ok(Sketched::GaveUp);
        }
        match self.follow_all(alloc, trail)? {
            Followed::On => Ok(Sketched::Walked(trail.sketch.items(alloc)?)),
            Followed::GaveUp => Ok(Sketched::GaveUp),
            Followed::Past => Ok(Sketched::Past),
        }
    }

    /// Walks along a sketch from the initial state, which is a goal or has a rule, and settles each state that it meets in which no
    /// rule holds and that is no goal: rules are added, or a fresh pair bars the action that led there.
    pub(crate) fn walk_sketch(&mut self, alloc: Global) -> Result<Sketched, NoMemory>
        requires { IsPlanner self.old }
        ensures keeps { OnOk result (Keeps self.old self.new) }
        ensures past { IfOk result (λ sketched. sketched ≡ IsPastSketch → IsPast self.old.task.now self.old.budget) }
    {
        let mut trail = trail_of(alloc, self.task, &self.moves)?;
        self.walk_trail(alloc, &mut trail)
    }
}

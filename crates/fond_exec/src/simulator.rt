//! Stepping a rule list, where a chooser picks the outcomes.

ghost use Rattle.fond_task.specs.Truth.{is_true};
ghost use Rattle.fond_exec.specs.Simulations.{IsChooser, IsSimStep, steps_after};
ghost use Rattle.std.specs.Prelude.{◌≡◌, ◌<◌, ◌-◌, ◌^◌};

use crate::choice::Choice;
use crate::executor::Executor;
use crate::step::SimStep;
use fond_state::state::State;

/// A rule list at a state of a task, with a chooser that is asked at each step: it is called with the number of the steps before
/// and with how many outcomes the chosen action has, and answers the number of one of them.
#[derive(Drop)]
pub struct Simulator<'a, F: Fn(u64, u32) -> u32> {
    /// The rule list at its state.
    pub run: Executor<'a>,
    /// How many steps were taken.
    pub steps: u64,
    /// The chooser.
    pub pick: F,
}

impl<'a, F: Fn(u64, u32) -> u32> Simulator<'a, F> {
    /// A simulation that goes on from the state of a run.
    pub fn new(run: Executor<'a>, pick: F) -> Simulator<'a, F>
        requires { IsChooser (F.pre pick) (F.post pick) }
        ensures run { result.run ≡ run.entry }
        ensures steps { result.steps ≡ 0 }
        ensures pick { result.pick ≡ pick }
    {
        Simulator {
            run,
            steps: 0,
            pick,
        }
    }

    /// How many steps were taken.
    pub fn steps(&self) -> u64
        ensures { result ≡ self.now.steps }
    {
        self.steps
    }

    /// Whether the state is a goal.
    pub fn done(&self) -> bool
        ensures { result ≡ is_true self.now.run.state self.now.run.task.goal }
    {
        self.run.done()
    }

    /// The state.
    pub fn state(&self) -> &State
        ensures { result.now ≡ self.now.run.state }
    {
        self.run.state()
    }

    /// Takes the action of the first rule that holds, with the outcome that the chooser picks, who may be asked for one of 1 to
    /// 2^32 - 1 outcomes and answers one of them: no outcome that is picked is a bad one. A step that is not taken changes
    /// nothing. Takes time in the number of rules times that of atoms and in the size of the action, and no memory but that of
    /// the chooser.
    pub fn step(&mut self) -> SimStep
        requires few { self.old.steps < 2 ^ 64 - 1 }
        requires chooser { IsChooser (F.pre self.old.pick) (F.post self.old.pick) }
        ensures step { IsSimStep (F.post self.old.pick) self.old.run self.old.steps result self.new.run.state }
        ensures task { self.new.run.task ≡ self.old.run.task }
        ensures rules { self.new.run.rules ≡ self.old.run.rules }
        ensures steps { self.new.steps ≡ steps_after result self.old.steps }
        ensures pick { self.new.pick ≡ self.old.pick }
    {
        match self.run.choice() {
            Choice::Done => SimStep::Done,
            Choice::Stuck => SimStep::Stuck,
            Choice::Chosen { rule, act, count } => {
                let outcome = (self.pick)(self.steps, count);
                self.run.take(rule, act, count, outcome);
                self.steps += 1;
                SimStep::Took { rule, act, outcome }
            }
        }
    }
}

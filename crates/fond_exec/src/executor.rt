//! Stepping a rule list through the states of a task.

ghost use Rattle.std.specs.Prelude.{◌≡◌, ◌<◌, List, IfOk, Some, length, slice_get};
ghost use Rattle.fond_task.specs.Steps.{next_state};
ghost use Rattle.fond_task.specs.Truth.{is_true};
ghost use Rattle.fond_task.specs.declared.task.Act.{Act};
ghost use Rattle.fond_task.specs.declared.task.Entry.{Entry};
ghost use Rattle.fond_rules.specs.Belongs.{BelongTo};
ghost use Rattle.fond_exec.specs.Choices.{IsChoice};
ghost use Rattle.fond_exec.specs.Duels.{weight};
ghost use Rattle.fond_exec.specs.Steps.{IsChosen, IsStep, IsTaken};
ghost use Rattle.fond_exec.specs.declared.choice.Choice.TheVariants.{Chosen};

use crate::choice::Choice;
use crate::step::Step;
use fond_rules::rules::Rules;
use fond_rules::selector::Selector;
use fond_state::state::State;
use fond_task::step::apply_into;
use fond_task::task::Task;
use fond_task::truth::{applicable, is_goal};
use fond_text::fault::NoMemory;
use std::alloc::Global;
use std::marker::Model;

/// A rule list at a state of a task, with what selects its rules. It keeps a second state of the same length, so that a step takes no
/// memory, unless rules are indexed anew.
#[derive(Drop)]
pub struct Executor<'a> {
    task: &'a Task,
    rules: &'a Rules,
    selector: Selector<'a>,
    state: State,
    next: State,
}

impl<'a> Model for Executor<'a> {
    ghost use Rattle.std.specs.Prelude.{◌≡◌, length};
    ghost use Rattle.fond_rules.specs.Belongs.{BelongTo};
    ghost use Rattle.fond_exec.specs.Runs.{Run};
    ghost use Rattle.fond_task.specs.contracts.form.Form as form;
    ghost use Rattle.std.specs.Coded.{codes};

    ghost Value = { Run };

    ghost coded = { Prim.hlevel (codes, form.the_row.coded) };

    ghost view = { λ e. record { task = e.task.now; rules = e.rules.now; state = e.state } };

    ghost invariant = { λ e. BelongTo e.task.now e.rules.now
        × (e.selector ≡ e.rules.now)
        × (length e.state ≡ length e.task.now.atoms)
        × (length e.next ≡ length e.task.now.atoms) };
}

/// How far a state is from a goal, as an opponent sees it: 0 at a goal; otherwise one more than the number of the first rule that
/// holds, or 2^32 if none does.
fn weight_of(task: &Task, rules: &Selector, state: &State) -> u64
    requires belong { BelongTo task.now rules.now }
    requires long { length state.now ≡ length task.now.atoms }
    ensures { result ≡ weight task.now rules.now state.now }
{
    if is_goal(task, state) {
        return 0;
    }
    match rules.select(state) {
        Some(rule) => rule as u64 + 1,
        None => 1 << 32,
    }
}

impl<'a> Executor<'a> {
    /// The rules at the initial state of the task.
    pub fn start(alloc: Global, task: &'a Task, rules: &'a Rules) -> Result<Executor<'a>, NoMemory>
        requires { BelongTo task.now rules.now }
        ensures { IfOk result (λ e. e ≡ record { task = task.now; rules = rules.now; state = task.now.init }) }
    {
        let state = task.init.copy(alloc)?;
        let next = task.init.copy(alloc)?;
        Ok(Executor {
            task,
            rules,
            selector: Selector::new(alloc, rules),
            state,
            next,
        })
    }

    /// Whether the state is a goal.
    pub fn done(&self) -> bool
        ensures { result ≡ is_true self.now.state self.now.task.goal }
    {
        is_goal(self.task, &self.state)
    }

    /// The state.
    pub fn state(&self) -> &State
        ensures { result.now ≡ self.now.state }
    {
        &self.state
    }

    /// What the rules choose in the state. Takes time in the number of rules times that of atoms, and no memory.
    pub fn choice(&self) -> Choice
        ensures { IsChoice self.now.task self.now.rules self.now.state result }
    {
        if self.done() {
            return Choice::Done;
        }
        let Some(rule) = self.selector.select(&self.state) else {
            return Choice::Stuck;
        };
        let act = self.rules.get(rule).act;
        if !applicable(self.task, &self.state, act) {
            return Choice::Stuck;
        }
        let count = self.task.acts.get(act as usize).outcomes.len() as u32;
        Choice::Chosen { rule, act, count }
    }

    /// The weight of the state to which an outcome of the chosen action leads. Takes time in the size of the outcome and in that of a
    /// choice, and no memory.
    pub(crate) fn weight_after(&mut self, act: u32, outcome: u32) -> u64
        requires { (a : Act) × IsChosen self.old.task self.old.rules self.old.state act a × (outcome < length a.outcomes) }
        ensures weight { (a : Act) (entries : List Entry) → slice_get self.old.task.acts act ≡ Some a → slice_get a.outcomes outcome ≡ Some entries
            → result ≡ weight self.old.task self.old.rules (next_state self.old.state entries) }
        ensures same { self.new ≡ self.old }
    {
        apply_into(self.task, &self.state, act, outcome, &mut self.next);
        weight_of(self.task, &self.selector, &self.next)
    }

    /// Takes the action that the rules choose, with one of its outcomes.
    pub(crate) fn take(&mut self, rule: u32, act: u32, count: u32, outcome: u32)
        requires chosen { IsChoice self.old.task self.old.rules self.old.state (Chosen rule act count) }
        requires one { outcome < count }
        ensures taken { IsTaken self.old.task self.old.rules self.old.state outcome rule act self.new.state }
        ensures task { self.new.task ≡ self.old.task }
        ensures rules { self.new.rules ≡ self.old.rules }
    {
        apply_into(self.task, &self.state, act, outcome, &mut self.next);
        std::mem::swap(&mut self.state, &mut self.next);
        self.selector.heed(&self.state);
    }

    /// Takes the action of the first rule that holds, with its outcome of this number. A step that is not taken changes
    /// nothing. Takes time in the number of rules times that of atoms and in the size of the action, and no memory.
    pub fn step(&mut self, outcome: u32) -> Step
        ensures step { IsStep self.old.task self.old.rules self.old.state outcome result self.new.state }
        ensures task { self.new.task ≡ self.old.task }
        ensures rules { self.new.rules ≡ self.old.rules }
    {
        match self.choice() {
            Choice::Done => Step::Done,
            Choice::Stuck => Step::Stuck,
            Choice::Chosen { rule, act, count } => {
                if outcome >= count {
                    return Step::BadOutcome { count };
                }
                self.take(rule, act, count, outcome);
                Step::Took { rule, act }
            }
        }
    }
}

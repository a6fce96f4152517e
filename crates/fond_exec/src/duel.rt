//! The picks of an opponent who looks one step ahead: of the outcomes of an action, the opponent picks one that leads to a state in
//! which the first rule that holds has the greatest number.

ghost use Rattle.std.specs.Prelude.{◌≡◌, ◌<◌, Some, IfOk, length, slice_get};
ghost use Rattle.fond_exec.specs.Choices.{IsChoice};
ghost use Rattle.fond_exec.specs.Duels.{ArePicks, IsHeaviest, IsPick, named_pick};
ghost use Rattle.fond_exec.specs.Picked.{IsWord};
ghost use Rattle.fond_exec.specs.Steps.{IsChosen};
ghost use Rattle.fond_exec.specs.declared.choice.Choice.TheVariants.{Chosen};
ghost use Rattle.fond_rules.specs.Belongs.{BelongTo};
ghost use Rattle.fond_task.specs.declared.task.Act.{Act};

use crate::choice::Choice;
use crate::executor::Executor;
use fond_rules::rules::Rules;
use fond_task::rule::Targets;
use fond_task::task::Task;
use fond_text::fault::NoMemory;
use std::alloc::Global;

/// The first outcome of the chosen action that leads to a state of greatest weight.
fn heaviest(run: &mut Executor, act: u32, count: u32) -> u32
    requires { (a : Act) × IsChosen run.old.task run.old.rules run.old.state act a × (count ≡ length a.outcomes) }
    ensures heaviest { (a : Act) → slice_get run.old.task.acts act ≡ Some a → IsHeaviest run.old.task run.old.rules run.old.state a result }
    ensures same { run.new ≡ run.old }
{
    let mut best = 0;
    let mut greatest = 0;
    for outcome in 0..count {
        let found = run.weight_after(act, outcome);
        if found > greatest {
            best = outcome;
            greatest = found;
        }
    }
    best
}

/// The outcome that the targets name, if it is below the count, and else outcome 0.
fn named(targets: &Targets, count: u32) -> u32
    ensures { result ≡ named_pick targets.now count }
{
    match targets {
        Targets::One { outcome, .. } => { if *outcome < count { *outcome } else { 0 } }
        Targets::All(_) => 0,
    }
}

/// The outcome that is picked for the action that the rule chooses.
fn pick(task: &Task, rules: &Rules, run: &mut Executor, rule: u32, act: u32, count: u32) -> u32
    requires task { run.old.task ≡ task.now }
    requires rules { run.old.rules ≡ rules.now }
    requires chosen { IsChoice run.old.task run.old.rules run.old.state (Chosen rule act count) }
    ensures picked { (a : Act) → slice_get run.old.task.acts act ≡ Some a → IsPick run.old.task run.old.rules run.old.state rule a result }
    ensures one { result < count }
    ensures same { run.new ≡ run.old }
{
    if task.acts.get(act as usize).unfair {
        return heaviest(run, act, count);
    }
    named(&rules.get(rule).targets, count)
}

/// Takes a step, with the outcome that is picked, which is returned. At a goal or stuck, there is no step, and 0 is returned.
fn next_word(task: &Task, rules: &Rules, run: &mut Executor) -> u32
    requires task { run.old.task ≡ task.now }
    requires rules { run.old.rules ≡ rules.now }
    ensures word { IsWord run.old.task run.old.rules run.old.state result run.new.state }
    ensures task { run.new.task ≡ run.old.task }
    ensures rules { run.new.rules ≡ run.old.rules }
{
    let Choice::Chosen { rule, act, count } = run.choice() else {
        return 0;
    };
    let outcome = pick(task, rules, run, rule, act, count);
    run.take(rule, act, count, outcome);
    outcome
}

/// The picks of the outcomes of so many steps of the rules, from the initial state of the task on: the opponent picks for an unfair
/// action, and for a fair one it is the outcome that the rule names. Once the run is at a goal or stuck, they are 0. Takes the time of
/// a choice for each outcome of each action that is taken, and memory for the picks and two states.
pub fn worst_picks(alloc: Global, t: &Task, rules: &Rules, steps: u32) -> Result<Vec<u32>, NoMemory>
    requires { BelongTo t.now rules.now }
    ensures picks { IfOk result (λ words. ArePicks t.now rules.now t.now.init words.items) }
    ensures long { IfOk result (λ words. length words.items ≡ steps) }
{
    let mut run = Executor::start(alloc, t, rules)?;
    let mut words = Vec::new(alloc);
    for _ in 0..steps {
        words.push(next_word(t, rules, &mut run))?;
    }
    Ok(words)
}

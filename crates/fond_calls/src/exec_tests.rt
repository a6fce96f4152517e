ghost use Rattle.std.specs.Prelude.{◌≡◌, ◌<◌, ◌-◌};

use crate::coin::ground_coin;
use fond_exec::executor::Executor;
use fond_exec::laws::{duels_end, lucky_steps_descend, lucky_steps_end};
use fond_exec::simulator::Simulator;
use fond_exec::step::SimStep;
use fond_rules::rules::Rules;
use fond_state::cube::Cube;
use fond_task::rule::{Rule, Target, Targets};
use fond_task::task::Task;
use fond_text::fault::NoMemory;
use std::alloc::Global;
use std::test::Fail;

/// The rule that flips the coin in each state.
fn rules(alloc: Global) -> Result<Rules, NoMemory> {
    let cond = Cube::new(alloc, 1)?;
    let mut rules = Rules::new(alloc);
    rules.push(Rule {
        cond,
        act: 0,
        targets: Targets::One {
            outcome: 0,
            target: Target::Goal,
        },
    })?;
    Ok(rules)
}

/// Whether the step takes the last outcome of the coin.
fn is_last(step: SimStep) -> bool {
    match step {
        SimStep::Took {
            rule: 0,
            act: 0,
            outcome: 1,
        } => true,
        _ => false,
    }
}

/// Whether three steps take the last outcome of the coin if it is picked, and the number of steps, if the rules are over the coin.
fn last_steps(alloc: Global, coin: &Task, rules: &Rules) -> Result<Option<(bool, u64)>, NoMemory> {
    if !rules.belong_to(coin) {
        return Ok(None);
    }
    let run = Executor::start(alloc, coin, rules)?;
    let last = |_step: u64, count: u32|
        requires { 0 < count }
        ensures { result ≡ count - 1 }
    { count - 1 };
    let mut sim = Simulator::new(run, last);
    let are_two_last = is_last(sim.step()) && sim.steps() < 10 && is_last(sim.step());
    let are_last = are_two_last && sim.steps() < 10 && is_last(sim.step());
    Ok(Some((are_last && !sim.done(), sim.steps())))
}

#[test]
fn the_last_outcome_is_picked(rt: HostRuntime) -> Result<(), Fail> {
    let coin = ground_coin(rt.alloc())?;
    let rules = rules(rt.alloc())?;
    assert!(rt; last_steps(rt.alloc(), &coin, &rules)? == Some((true, 3)));
    Ok(())
}

#[test]
fn laws_of_steps_can_be_called() {
    lucky_steps_descend();
    lucky_steps_end();
    duels_end();
}

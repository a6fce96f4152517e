//! Steps by so many rules, whose conditions are drawn at random, that they are indexed again near the states of the walk.

use crate::coin::ground_task;
use fond_exec::executor::Executor;
use fond_exec::step::Step;
use fond_rules::rules::Rules;
use fond_state::cube::Cube;
use fond_task::rule::{Rule, Target, Targets};
use fond_task::task::Task;
use fond_text::fault::NoMemory;
use std::alloc::Global;
use std::test::Fail;

const DOMAIN: &[u8] = b"(define (domain squares) (:predicates (done) (marked ?x ?y))
  (:action mark :parameters (?x ?y) :effect (oneof (and) (marked ?x ?y))))";

const PROBLEM: &[u8] = b"(define (problem board) (:domain squares)
  (:objects a b c d e f g h i j k l m n o p) (:goal (done)))";

/// How many literals a condition has.
const LITERALS: u32 = 16;

/// The number that is drawn after another one (Knuth, The art of computer programming 2, 3.3.4: the generator of MMIX).
fn draw(number: u64) -> u64 {
    number
        .wrapping_mul(6364136223846793005)
        .wrapping_add(1442695040888963407)
}

/// A rule for the first action with a condition over this many atoms that is drawn from a number.
fn drawn_rule(alloc: Global, atoms: u32, number: u64, literals: u32) -> Result<Rule, NoMemory> {
    let mut cond = Cube::new(alloc, atoms)?;
    let mut drawn = number;
    for _ in 0..literals {
        drawn = draw(drawn);
        let atom = ((drawn >> 40) % u64::from(atoms.max(1))) as u32;
        if (atom as usize) < cond.len() {
            cond.put_literal(atom, drawn >> 63 == 1);
        }
    }
    Ok(Rule {
        cond,
        act: 0,
        targets: Targets::One {
            outcome: 0,
            target: Target::Goal,
        },
    })
}

/// So many drawn rules over this many atoms, and one that holds in each state.
fn drawn_rules(alloc: Global, atoms: u32, count: u32) -> Result<Rules, NoMemory> {
    let mut rules = Rules::new(alloc);
    for number in 0..=count {
        let literals = if number < count { LITERALS } else { 0 };
        if rules.len() == u32::MAX {
            return Err(NoMemory);
        }
        rules.push(drawn_rule(alloc, atoms, u64::from(number), literals)?)?;
    }
    Ok(rules)
}

/// How many of so many steps take an action, if the rules belong to the task.
fn taken_steps(alloc: Global, task: &Task, rules: &Rules, steps: u32) -> Result<u32, NoMemory> {
    if !rules.belong_to(task) {
        return Ok(0);
    }
    let mut run = Executor::start(alloc, task, rules)?;
    let mut taken: u32 = 0;
    for _ in 0..steps {
        if let Step::Took { .. } = run.step(1) {
            taken = taken.saturating_add(1);
        }
    }
    Ok(taken)
}

#[test]
fn a_walk_goes_on_by_rules_that_are_indexed_near_it(rt: HostRuntime) -> Result<(), Fail> {
    let task = ground_task(rt.alloc(), DOMAIN, PROBLEM)?;
    let rules = drawn_rules(rt.alloc(), task.atoms.len() as u32, 4000)?;
    assert!(rt; taken_steps(rt.alloc(), &task, &rules, 300)? == 300);
    Ok(())
}

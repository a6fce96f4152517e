use crate::coin::{ground_coin, ground_task};
use fond_layers::layers::Layers;
use fond_rules::pairs::Pairs;
use fond_task::task::Task;
use fond_text::fault::{FrontError, NoMemory};
use fond_weak::weak::{Weak, weak_plan};
use std::alloc::Global;
use std::test::Fail;

const SWAP: &[u8] =
    b"(define (domain swap) (:predicates (p) (q))\n(:action left :precondition (q) :effect (and (p) (not (q))))\n(:action right :precondition (p) :effect (and (q) (not (p)))))\n";

const SWAP_P: &[u8] = b"(define (problem s) (:domain swap) (:init (p)) (:goal (and (p) (q))))\n";

/// The ground task in which one of two atoms is true, and the goal is both.
fn ground_swap(alloc: Global) -> Result<Box<Task>, FrontError> {
    ground_task(alloc, SWAP, SWAP_P)
}

/// What is found out about the initial state, with no layers and pairs.
fn found(alloc: Global, game: &Task, limit: u64) -> Result<Weak, NoMemory> {
    let layers = Layers::new(alloc);
    let pairs = Pairs::new(alloc);
    weak_plan(alloc, game, &game.init, &layers, &pairs, limit)
}

/// Whether it is a plan of one step: the first outcome of the first action.
fn is_first_step(weak: &Weak) -> bool {
    let Weak::Plan(steps) = weak else {
        return false;
    };
    if steps.len() != 1 {
        return false;
    }
    steps.get(0).act == 0 && steps.get(0).outcome == 0
}

/// Whether it is a layer of two cubes.
fn is_layer_of_two(weak: &Weak) -> bool {
    match weak {
        Weak::Unreachable(layer) => layer.len() == 2,
        _ => false,
    }
}

#[test]
fn the_coin_is_flipped_until_it_shows_heads(rt: HostRuntime) -> Result<(), Fail> {
    let game = ground_coin(rt.alloc())?;
    let weak = found(rt.alloc(), &game, 10)?;
    assert!(rt; is_first_step(&weak));
    Ok(())
}

#[test]
fn one_state_is_too_few_for_the_swap(rt: HostRuntime) -> Result<(), Fail> {
    let game = ground_swap(rt.alloc())?;
    let weak = found(rt.alloc(), &game, 1)?;
    assert!(rt; matches!(&weak, Weak::Spent));
    Ok(())
}

#[test]
fn two_states_of_the_swap_are_closed(rt: HostRuntime) -> Result<(), Fail> {
    let game = ground_swap(rt.alloc())?;
    let weak = found(rt.alloc(), &game, 2)?;
    assert!(rt; is_layer_of_two(&weak));
    Ok(())
}

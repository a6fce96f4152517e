use crate::coin::ground_task;
use fond_regress::estimate::{Guess, estimate};
use std::test::Fail;

const IDLE: &[u8] =
    b"(define (domain idle) (:predicates (p) (g))\n(:action go :precondition (p) :effect (g)))\n";

const IDLE_P: &[u8] = b"(define (problem i) (:domain idle) (:goal (g)))\n";

/// Whether a state is hopeless because of the partial state in which the first atom is false.
fn lacks_first(guess: &Guess) -> bool {
    match guess {
        Guess::Never(cube) => cube.literal(0) == Some(false),
        Guess::Reach(_) => false,
    }
}

#[test]
fn a_goal_that_no_action_adds_is_hopeless(rt: HostRuntime) -> Result<(), Fail> {
    let game = ground_task(rt.alloc(), IDLE, IDLE_P)?;
    let guess = estimate(rt.alloc(), &game, &game.init)?;
    assert!(rt; lacks_first(&guess));
    Ok(())
}

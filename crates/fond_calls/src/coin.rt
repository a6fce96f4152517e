//! A small task: a coin that is flipped until it shows heads.

use fond_ast::task::LiftedTask;
use fond_front::task::read_task;
use fond_front::texts::TaskTexts;
use fond_ground::ground::ground;
use fond_task::task::Task;
use fond_text::fault::FrontError;
use std::alloc::Global;

const DOMAIN: &[u8] =
    b"(define (domain coin) (:predicates (heads)) (:action flip :effect (oneof (heads) (and))))";

const PROBLEM: &[u8] = b"(define (problem c) (:domain coin) (:goal (heads)))";

/// The task of a domain and a problem without unfair schemas. Tasks are in boxes, since the time that the proof of a test
/// takes grows with the fields of the values that it owns.
fn lifted(alloc: Global, domain: &[u8], problem: &[u8]) -> Result<Box<LiftedTask>, FrontError> {
    let task = read_task(alloc, &TaskTexts::new(domain, problem, &[]))?;
    Ok(Box::new(alloc, task)?)
}

/// The ground task of a task.
fn grounded(alloc: Global, task: &LiftedTask) -> Result<Box<Task>, FrontError> {
    let game = ground(alloc, task)?;
    Ok(Box::new(alloc, game)?)
}

/// The ground task of a domain and a problem without unfair schemas.
pub fn ground_task(alloc: Global, domain: &[u8], problem: &[u8]) -> Result<Box<Task>, FrontError> {
    let task = lifted(alloc, domain, problem)?;
    grounded(alloc, &task)
}

/// The ground task of the coin: the atom `(heads)` and the action `(flip)`.
pub fn ground_coin(alloc: Global) -> Result<Box<Task>, FrontError> {
    ground_task(alloc, DOMAIN, PROBLEM)
}

//! How much a literal is worth as a reason why actions do not apply: the more preconditions it contradicts, and the fewer
//! actions change it, the more.

use crate::boxes::boxed;
use crate::index::{Literal, at, put};
use fond_task::form::Form;
use fond_task::task::{Act, Outcome, Task};
use fond_text::fault::NoMemory;
use std::alloc::Global;

/// The weight of a literal that contradicts one precondition and that no action changes.
const SCALE: u32 = 1_000;

/// The weights of all literals: two for each atom, the negative literal first.
#[derive(Drop)]
pub struct Weights {
    weights: Vec<u32>,
}

/// The place of a literal among all.
fn place(atom: u32, sign: bool) -> u32 {
    atom.saturating_mul(2).saturating_add(sign as u32)
}

/// Counts one more at a place.
fn count(counts: &mut [u32], i: u32) {
    let before = at(counts, i);
    put(counts, i, before.saturating_add(1));
}

/// Counts the opposites of a condition's literals.
fn count_opposites(form: &Form, counts: &mut [u32]) {
    match form {
        Form::Truth(_) => {}
        Form::Lit(atom, sign) => count(counts, place(*atom, !*sign)),
        Form::And(parts) | Form::Or(parts) => {
            for part in parts {
                count_opposites(part, counts);
            }
        }
    }
}

/// Counts the literals that the entries of an outcome may take away.
fn count_entries(outcome: &Outcome, counts: &mut [u32]) {
    for entry in outcome {
        count(counts, place(entry.atom, !entry.add));
    }
}

/// Counts the literals that an action's entries may take away.
fn count_changes(act: &Act, counts: &mut [u32]) {
    for outcome in act.outcomes.as_slice() {
        count_entries(outcome, counts);
    }
}

/// Counts what the actions of a task ask for and change.
fn count_acts(task: &Task, opposites: &mut [u32], changes: &mut [u32]) {
    for act in &task.acts {
        count_opposites(&act.pre, opposites);
        count_changes(act, changes);
    }
}

/// Makes the numbers of opposites the weights.
fn weigh(opposites: &mut [u32], changes: &[u32]) {
    for i in 0..opposites.len().min(changes.len()) {
        let change = changes[i].saturating_add(1).max(1);
        opposites[i] = opposites[i].saturating_mul(SCALE) / change;
    }
}

impl Weights {
    /// The weights of a task's literals.
    pub fn new(alloc: Global, task: &Task, atoms: u32) -> Result<Box<Weights>, NoMemory> {
        let places = (atoms as usize).saturating_mul(2);
        let mut weights = vec![in alloc; 0; places]?;
        let mut changes = vec![in alloc; 0; places]?;
        count_acts(task, &mut weights, &mut changes);
        weigh(&mut weights, &changes);
        boxed(alloc, Weights { weights })
    }

    /// The weight of a literal.
    pub fn of(&self, literal: Literal) -> u32 {
        at(&self.weights, place(literal.atom, literal.sign))
    }
}

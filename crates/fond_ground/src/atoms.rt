//! The fluent atoms. They are counted before they are listed, so that a task with too many of them is refused at once.

ghost use Rattle.fond_ast.specs.Ranges.{objects_of};
ghost use Rattle.fond_ground.specs.Atoms.{atoms_over, fluent_atoms as all_atoms};
ghost use Rattle.fond_ast.specs.Conditions.{tuples};
ghost use Rattle.std.specs.Prelude.{◌≡◌, ◌++◌, ◌-◌, ◌^◌, [], length, min, IfOk, OnOk, if◌then◌else◌};

use crate::tuples::Tuples;
use fond_ast::form::Ranges;
use fond_ast::task::{LPredicate, LiftedTask};
use fond_text::atom::{Atom, Atoms, Objects};
use fond_text::fault::NoMemory;
use std::alloc::Global;

/// The number of lists of one object of each range, or `usize::MAX` if there are more.
pub(crate) fn tuple_count(ranges: &Ranges) -> usize
    ensures { result ≡ min (length (tuples (objects_of ranges.now))) (2 ^ 64 - 1) }
{
    let mut count: usize = 1;
    for range in ranges.as_slice() {
        count = count.saturating_mul(range.len());
    }
    count
}

/// The number of fluent atoms of a predicate, or `usize::MAX` if there are more.
fn predicate_count(predicate: &LPredicate) -> usize
    ensures { result ≡ (if predicate.now.fluent then min (length (tuples (objects_of predicate.now.ranges))) (2 ^ 64 - 1) else 0) }
{
    if predicate.fluent {
        tuple_count(&predicate.ranges)
    } else {
        0
    }
}

/// The number of fluent atoms, or `usize::MAX` if there are more.
pub(crate) fn atom_count(task: &LiftedTask) -> usize
    ensures { result ≡ min (length (all_atoms task.now)) (2 ^ 64 - 1) }
{
    let mut count: usize = 0;
    for i in 0..task.predicates.len() {
        count = count.saturating_add(predicate_count(task.predicates.get(i)));
    }
    count
}

/// Appends the atoms of a predicate, in order.
fn put_atoms(
    alloc: Global,
    predicate: u32,
    ranges: &Ranges,
    atoms: &mut Atoms,
) -> Result<(), NoMemory>
    ensures { OnOk result (atoms.new ≡ atoms.old ++ atoms_over predicate ranges.now) }
{
    let mut tuples = Tuples::of(alloc, ranges.as_slice())?;
    while !tuples.is_done() {
        let mut objects = Vec::with_capacity(alloc, ranges.len())?;
        tuples.put_next(&mut objects)?;
        atoms.push(Atom {
            predicate,
            objects: Objects::of(objects),
        })?;
    }
    Ok(())
}

/// Appends the atoms of a predicate, in order, if the predicate is fluent.
fn put_fluent(
    alloc: Global,
    number: u32,
    predicate: &LPredicate,
    atoms: &mut Atoms,
) -> Result<(), NoMemory>
    ensures { OnOk result (atoms.new ≡ atoms.old ++ (if predicate.now.fluent then atoms_over number predicate.now.ranges else [])) }
{
    if !predicate.fluent {
        return Ok(());
    }
    put_atoms(alloc, number, &predicate.ranges, atoms)
}

/// The fluent atoms, in order.
pub(crate) fn fluent_atoms(alloc: Global, task: &LiftedTask) -> Result<Atoms, NoMemory>
    ensures { IfOk result (λ atoms. atoms ≡ all_atoms task.now) }
{
    let mut atoms = Atoms::new(alloc);
    for i in 0..task.predicates.len() {
        put_fluent(alloc, i as u32, task.predicates.get(i), &mut atoms)?;
    }
    Ok(atoms)
}

//! The numbers of the fluent atoms and the initial atoms, each found by a hash of the atom's numbers.

ghost use Rattle.fond_ast.specs.declared.form.LAtom.{LAtom};
ghost use Rattle.fond_ground.specs.Atoms.{atom_number, fluent_atoms, is_same_atom};
ghost use Rattle.fond_join.specs.Kept.{static_value};
ghost use Rattle.fond_store.specs.Texts.{number_beside};
ghost use Rattle.fond_ast.specs.Conditions.{ground_atom, object_of};
ghost use Rattle.fond_task.specs.Distinct.{atom_numbers};
ghost use Rattle.fond_text.specs.declared.atom.Atom.{Atom};
ghost use Rattle.std.specs.Prelude.{◌≡◌, ◌<◌, ◌^◌, length, position, IfOk, IfSome};

use fond_ast::form::{LAtom, LTerm};
use fond_ast::task::LiftedTask;
use fond_join::facts::Facts;
use fond_store::index::TupleIndex;
use fond_text::atom::{Atom, Atoms};
use fond_text::fault::NoMemory;
use std::alloc::Global;

/// A task with its initial atoms, and with the number of each fluent atom by the numbers of its predicate and objects.
#[derive(Drop)]
pub(crate) struct Table<'a> {
    pub(crate) facts: Facts<'a>,
    numbers: TupleIndex,
    ghost numbered: { (atom : Atom) → number_beside numbers (atom_numbers atom) ≡ atom_number facts.task.now atom },
}

/// The numbers of an atom: that of its predicate, and those of its objects.
fn numbers_of(alloc: Global, atom: &Atom) -> Result<Vec<u32>, NoMemory>
    ensures { IfOk result (λ numbers. numbers.items ≡ atom_numbers atom.now) }
{
    let mut numbers = Vec::with_capacity(alloc, atom.objects.len().saturating_add(1))?;
    numbers.push(atom.predicate)?;
    numbers.extend_from_slice(atom.objects.as_slice())?;
    Ok(numbers)
}

/// The atoms by their numbers, each with its index.
fn indexed(alloc: Global, atoms: &Atoms) -> Result<TupleIndex, NoMemory>
    requires { length atoms.now < 2 ^ 32 }
    ensures { IfOk result (λ numbers. (atom : Atom) → number_beside numbers (atom_numbers atom) ≡ position (is_same_atom atom) atoms.now) }
{
    let mut numbers = TupleIndex::new(alloc);
    for i in 0..atoms.len() {
        numbers.insert(numbers_of(alloc, atoms.get(i))?, i as u32)?;
    }
    Ok(numbers)
}

/// The object of a term, where these are the objects of the variables around it.
pub(crate) fn object(term: LTerm, env: &[u32]) -> u32
    ensures { result ≡ object_of env.now term }
{
    match term {
        LTerm::Object(number) => number,
        LTerm::Variable(number) => env.get(number as usize).copied().unwrap_or(0),
    }
}

/// The numbers of the ground atom of an atom.
pub(crate) fn ground_numbers(alloc: Global, atom: &LAtom, env: &[u32]) -> Result<Vec<u32>, NoMemory>
    ensures { IfOk result (λ numbers. numbers.items ≡ atom_numbers (ground_atom env.now atom.now)) }
{
    let mut numbers = Vec::with_capacity(alloc, atom.terms.len().saturating_add(1))?;
    numbers.push(atom.predicate)?;
    for term in atom.terms.as_slice() {
        numbers.push(object(*term, env))?;
    }
    Ok(numbers)
}

impl<'a> Table<'a> {
    /// The table of a task and its fluent atoms. Takes time and memory in the size of the fluent and the initial atoms.
    pub(crate) fn of(
        alloc: Global,
        task: &'a LiftedTask,
        atoms: &Atoms,
    ) -> Result<Table<'a>, NoMemory>
        requires few { length atoms.now < 2 ^ 32 }
        requires all { atoms.now ≡ fluent_atoms task.now }
        ensures { IfOk result (λ table. table.facts.task.now ≡ task.now) }
    {
        let facts = Facts::of(alloc, task)?;
        let numbers = indexed(alloc, atoms)?;
        Ok(Table { facts, numbers })
    }

    /// The number of the atom with these numbers, if it is fluent.
    pub(crate) fn number(&self, numbers: &[u32]) -> Option<u32>
        ensures number { (atom : Atom) → numbers.now ≡ atom_numbers atom → result ≡ atom_number self.now.facts.task.now atom }
    {
        self.numbers.find(numbers)
    }
}

//! The initial atoms of a task, found by a hash.

ghost use Rattle.fond_join.specs.Rows.{AreRowed};
ghost use Rattle.fond_join.specs.Fixed.{AreBare};
ghost use Rattle.fond_join.specs.Kept.{open_value};
ghost use Rattle.fond_join.specs.Tables.{is_entered, IsEnteredBeside};
ghost use Rattle.fond_ast.specs.Ranges.{is_among};
ghost use Rattle.fond_text.specs.declared.atom.Atom.{Atom};
ghost use Rattle.fond_ast.specs.Solutions.{initial};
ghost use Rattle.std.specs.FinSet as set;
ghost use Rattle.std.specs.Prelude.{◌≡◌, ◌<◌, ℕ, List, Some, true, false, not, map, vec_len, length, slice_get, slice_index_or, IfOk, IfSome, OnOk};

use crate::rows::{MOST_ROWED, Rows, row_of, rows_of};
use fond_ast::task::LiftedTask;
use fond_store::index::TupleIndex;
use fond_text::atom::Atom;
use fond_text::fault::NoMemory;
use std::alloc::Global;

/// A task with an index of its initial atoms: for each predicate the lists of objects of its initial atoms, for each object
/// at a position of one of them the objects beside it, and for each predicate whether it is bare: static and without initial
/// atoms.
#[derive(Drop)]
pub struct Facts<'a> {
    pub task: &'a LiftedTask,
    tables: Vec<TupleIndex>,
    rows: Rows,
    pub(crate) bare: Vec<bool>,
    ghost rowed: { AreRowed rows.numbers rows.lists.items task.now.init },
    ghost entered: { (predicate : ℕ) (objects : List ℕ)
        → is_entered tables.items predicate objects ≡ set.contains (initial task.now) (record { predicate = predicate; objects = objects }) },
    ghost bared: { AreBare (open_value task.now) bare.items },
}

/// An empty table for each of some predicates.
fn no_entries(alloc: Global, predicates: usize) -> Result<Vec<TupleIndex>, NoMemory>
    ensures long { IfOk result (λ tables. vec_len tables ≡ predicates) }
    ensures empty { IfOk result (λ tables. (predicate : ℕ) (objects : List ℕ) → is_entered tables.items predicate objects ≡ false) }
{
    let mut tables = Vec::new(alloc);
    for _ in 0..predicates {
        tables.push(TupleIndex::new(alloc))?;
    }
    Ok(tables)
}

/// Enters an atom.
fn enter(alloc: Global, tables: &mut Vec<TupleIndex>, atom: &Atom) -> Result<(), NoMemory>
    requires { atom.now.predicate < vec_len tables.old }
    ensures long { vec_len tables.new ≡ vec_len tables.old }
    ensures entered { OnOk result (IsEnteredBeside tables.old.items atom.now tables.new.items) }
{
    let objects = Vec::from_slice(alloc, atom.objects.as_slice())?;
    tables[atom.predicate as usize].insert(objects, 0)?;
    Ok(())
}

/// The tables of the initial atoms of a task.
fn tables_of(alloc: Global, task: &LiftedTask) -> Result<Vec<TupleIndex>, NoMemory>
    ensures { IfOk result (λ tables. (predicate : ℕ) (objects : List ℕ)
        → is_entered tables.items predicate objects ≡ set.contains (initial task.now) (record { predicate = predicate; objects = objects })) }
{
    let mut tables = no_entries(alloc, task.predicates.len())?;
    for atom in task.init.as_slice() {
        enter(alloc, &mut tables, atom)?;
    }
    Ok(tables)
}

/// For each predicate whether it is static.
fn static_tests(alloc: Global, task: &LiftedTask) -> Result<Vec<bool>, NoMemory>
    ensures { IfOk result (λ tests. tests.items ≡ map (λ predicate. not predicate.fluent) task.now.predicates) }
{
    let mut tests = Vec::with_capacity(alloc, task.predicates.len())?;
    for i in 0..task.predicates.len() {
        tests.push(!task.predicates.get(i).fluent)?;
    }
    Ok(tests)
}

/// For each predicate whether it is static and has no initial atom.
fn bare_tests(alloc: Global, task: &LiftedTask) -> Result<Vec<bool>, NoMemory>
    ensures { IfOk result (λ bare. AreBare (open_value task.now) bare.items) }
{
    let mut bare = static_tests(alloc, task)?;
    for atom in task.init.as_slice() {
        bare[atom.predicate as usize] = false;
    }
    Ok(bare)
}

impl<'a> Facts<'a> {
    /// The index of a task. Takes time and memory in the number of the objects of initial atoms.
    pub fn of(alloc: Global, task: &'a LiftedTask) -> Result<Facts<'a>, NoMemory>
        ensures { IfOk result (λ facts. facts.task.now ≡ task.now) }
    {
        let tables = tables_of(alloc, task)?;
        let rows = rows_of(alloc, task.init.as_slice())?;
        let bare = bare_tests(alloc, task)?;
        Ok(Facts {
            task,
            tables,
            rows,
            bare,
        })
    }

    /// The objects at a position of the initial atoms of a predicate that have this object at another position, if both are
    /// among the first positions. Takes the time of one lookup, and no memory.
    pub(crate) fn beside(
        &self,
        predicate: u32,
        position: u32,
        object: u32,
        other: u32,
    ) -> Option<&[u32]>
        ensures { IfSome result (λ row. (k : ℕ) (atom : Atom) → slice_get self.now.task.now.init k ≡ Some atom → atom.predicate ≡ predicate → position < length atom.objects → slice_index_or atom.objects position 0 ≡ object
            → other < length atom.objects → is_among row.now (slice_index_or atom.objects other 0) ≡ true) }
    {
        if position as usize >= MOST_ROWED {
            return None;
        }
        if other as usize >= MOST_ROWED {
            return None;
        }
        Some(row_of(&self.rows, &[predicate, position, object, other]))
    }

    /// Whether the atom of a predicate and objects is initial. Takes time in the number of the objects, and no memory.
    pub fn contains(&self, predicate: u32, objects: &[u32]) -> bool
        ensures { result ≡ set.contains (initial self.now.task.now) (record { predicate = predicate; objects = objects.now }) }
    {
        match self.tables.get(predicate as usize) {
            None => false,
            Some(table) => table.find(objects).is_some(),
        }
    }
}

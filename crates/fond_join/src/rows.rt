//! The initial atoms by an object at one of their positions. The row of a predicate, a position, an object there and
//! another position lists the objects at the other position. Only the first positions have rows.

ghost use Rattle.fond_ast.specs.Ranges.{is_among};
ghost use Rattle.fond_join.specs.declared.rows.TheConstants.{MOST_ROWED};
ghost use Rattle.fond_join.specs.Rows.{AreNumbered, AreRowed, IsGrown, IsRowed, IsRowedAt, row_at};
ghost use Rattle.fond_store.specs.Texts.{number_beside};
ghost use Rattle.std.specs.Prelude.{◌≡◌, ◌<◌, ℕ, true, None, length, IfOk, IfSome, OnOk};

use fond_store::index::TupleIndex;
use fond_text::atom::{Atom, Objects};
use fond_text::fault::NoMemory;
use fond_text::list::List;
use std::alloc::Global;

/// How many positions of an atom have rows: the first ones. So an atom of any length has few rows.
pub(crate) const MOST_ROWED: usize = 16;

/// Lists of objects, and the number of the list of each key.
#[derive(Drop)]
pub(crate) struct Rows {
    pub numbers: TupleIndex,
    pub lists: Vec<Objects>,
}

/// The row of a key, which is empty if the key has none.
pub(crate) fn row_of<'a>(rows: &'a Rows, key: &[u32]) -> &'a [u32]
    ensures { result.now ≡ row_at rows.now.numbers rows.now.lists.items key.now }
{
    match rows.numbers.find(key) {
        None => &[],
        Some(number) => match rows.lists.get(number as usize) {
            None => &[],
            Some(list) => list.as_slice(),
        },
    }
}

/// A number as one of 32 bits, if it is small enough.
pub(crate) fn narrow(number: usize) -> Option<u32>
    ensures { IfSome result (λ same. same ≡ number) }
{
    match u32::try_from(number) {
        Ok(same) => Some(same),
        Err(_) => None,
    }
}

/// Adds a row of one object for a key that has none.
fn begin(alloc: Global, rows: &mut Rows, key: &[u32], object: u32) -> Result<(), NoMemory>
    requires numbered { AreNumbered rows.old.numbers rows.old.lists.items }
    requires none { number_beside rows.old.numbers key.now ≡ None }
    ensures numbered { OnOk result (AreNumbered rows.new.numbers rows.new.lists.items) }
    ensures grown { OnOk result (IsGrown rows.old.numbers rows.old.lists.items rows.new.numbers rows.new.lists.items) }
    ensures added { OnOk result (is_among (row_at rows.new.numbers rows.new.lists.items key.now) object ≡ true) }
{
    let number = narrow(rows.lists.len()).ok_or(NoMemory)?;
    let mut list = List::new(alloc);
    list.push(object)?;
    rows.lists.push(list)?;
    rows.numbers.insert(Vec::from_slice(alloc, key)?, number)?;
    Ok(())
}

/// Adds an object to the row of a key.
fn add(alloc: Global, rows: &mut Rows, key: &[u32], object: u32) -> Result<(), NoMemory>
    requires numbered { AreNumbered rows.old.numbers rows.old.lists.items }
    ensures numbered { OnOk result (AreNumbered rows.new.numbers rows.new.lists.items) }
    ensures grown { OnOk result (IsGrown rows.old.numbers rows.old.lists.items rows.new.numbers rows.new.lists.items) }
    ensures added { OnOk result (is_among (row_at rows.new.numbers rows.new.lists.items key.now) object ≡ true) }
{
    match rows.numbers.find(key) {
        None => begin(alloc, rows, key, object),
        Some(number) => {
            rows.lists[number as usize].push(object)?;
            Ok(())
        }
    }
}

/// Adds the first objects of an atom to the rows beside one of its positions.
fn enter_beside(
    alloc: Global,
    rows: &mut Rows,
    atom: &Atom,
    position: usize,
) -> Result<(), NoMemory>
    requires within { position < length atom.now.objects }
    requires numbered { AreNumbered rows.old.numbers rows.old.lists.items }
    ensures numbered { OnOk result (AreNumbered rows.new.numbers rows.new.lists.items) }
    ensures grown { OnOk result (IsGrown rows.old.numbers rows.old.lists.items rows.new.numbers rows.new.lists.items) }
    ensures rowed { OnOk result ((other : ℕ) → other < MOST_ROWED → other < length atom.now.objects → IsRowedAt rows.new.numbers rows.new.lists.items atom.now position other) }
{
    let first = narrow(position).ok_or(NoMemory)?;
    let object = *atom.objects.get(position);
    for other in 0..atom.objects.len().min(MOST_ROWED) {
        let key = [
            atom.predicate,
            first,
            object,
            narrow(other).ok_or(NoMemory)?,
        ];
        add(alloc, rows, &key, *atom.objects.get(other))?;
    }
    Ok(())
}

/// Adds the first objects of an atom to its rows.
fn enter(alloc: Global, rows: &mut Rows, atom: &Atom) -> Result<(), NoMemory>
    requires numbered { AreNumbered rows.old.numbers rows.old.lists.items }
    ensures numbered { OnOk result (AreNumbered rows.new.numbers rows.new.lists.items) }
    ensures grown { OnOk result (IsGrown rows.old.numbers rows.old.lists.items rows.new.numbers rows.new.lists.items) }
    ensures rowed { OnOk result (IsRowed rows.new.numbers rows.new.lists.items atom.now) }
{
    for position in 0..atom.objects.len().min(MOST_ROWED) {
        enter_beside(alloc, rows, atom, position)?;
    }
    Ok(())
}

/// The rows of some atoms. Takes time and memory in the number of the atoms.
pub(crate) fn rows_of(alloc: Global, atoms: &[Atom]) -> Result<Rows, NoMemory>
    ensures { IfOk result (λ rows. AreRowed rows.numbers rows.lists.items atoms.now) }
{
    let mut rows = Rows {
        numbers: TupleIndex::new(alloc),
        lists: Vec::new(alloc),
    };
    for atom in atoms {
        enter(alloc, &mut rows, atom)?;
    }
    Ok(rows)
}

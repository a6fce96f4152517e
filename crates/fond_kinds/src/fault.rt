//! The first fault of declared types: a cycle, or a type that is declared again with another parent.

ghost use Rattle.fond_kinds.specs.Faults.{StandsInKinds};
ghost use Rattle.fond_kinds.specs.Kinds.{declares, is_passed_over as is_empty};
ghost use Rattle.fond_kinds.specs.Tables.{IsChangeAt, IsCycleAt, IsFaultAt};
ghost use Rattle.fond_text.specs.Firsts.{IsFirst};
ghost use Rattle.std.specs.Bool.{Decides};
ghost use Rattle.std.specs.Prelude.{◌≡◌, ◌<◌, false, Some, length, position, slice_get};

use crate::table::{TypeTable, is_passed_over, only_kind};
use fond_ast::names::TypedName;
use fond_text::code::{REPEATED_NAME, TYPE_CYCLE};
use fond_text::first::{Found, earlier, found_if};

/// Whether the declaration of a type at an index closes a cycle.
fn is_cyclic(table: &TypeTable, declared: &TypedName, i: usize) -> bool
    requires { slice_get table.now.types.now i ≡ Some declared.now }
    ensures { Decides result (IsCycleAt table.now.types.now i declared.now) }
{
    if declared.name.bytes() == b"object".as_slice() {
        only_kind(declared) != b"object".as_slice()
    } else {
        is_first(table, declared, i) && table.is_own_ancestor(declared.name.bytes())
    }
}

/// Whether a declaration is the first one of its type.
fn is_first(table: &TypeTable, declared: &TypedName, i: usize) -> bool
    requires { slice_get table.now.types.now i ≡ Some declared.now }
    ensures { Decides result (position (declares declared.now.name) table.now.types.now ≡ Some i) }
{
    match table.first(declared.name.bytes()) {
        Some(first) => first as usize == i,
        None => false,
    }
}

/// Whether the declaration of a type at an index gives another parent than the first one, which is at this index.
fn differs(table: &TypeTable, declared: &TypedName, i: usize, first: u32) -> bool
    requires there { slice_get table.now.types.now i ≡ Some declared.now }
    requires on { is_empty declared.now ≡ false }
    requires first { position (declares declared.now.name) table.now.types.now ≡ Some first }
    ensures { Decides result (IsChangeAt table.now.types.now i declared.now) }
{
    if first as usize == i {
        return false;
    }
    only_kind(table.types.get(first as usize)) != only_kind(declared)
}

/// Whether the declaration of a type at an index gives another parent than the first one.
fn is_changed(table: &TypeTable, declared: &TypedName, i: usize) -> bool
    requires { slice_get table.now.types.now i ≡ Some declared.now }
    ensures { Decides result (IsChangeAt table.now.types.now i declared.now) }
{
    if is_passed_over(declared) {
        return false;
    }
    match table.first(declared.name.bytes()) {
        None => unreachable!(),
        Some(first) => differs(table, declared, i, first),
    }
}

/// The first fault of the declaration at an index.
fn fault_at(table: &TypeTable, i: usize) -> Option<Found>
    requires { i < length table.now.types.now }
    ensures { IsFirst (IsFaultAt table.now.types.now i) result }
{
    let declared = table.types.get(i);
    let cycle = found_if(is_cyclic(table, declared, i), declared.place, TYPE_CYCLE);
    let change = found_if(
        is_changed(table, declared, i),
        declared.place,
        REPEATED_NAME,
    );
    earlier(cycle, change)
}

/// The first fault of declared types, if there is one: F14, or F19 (docs/FAULTS.md). Takes a logarithmic number of steps for
/// each declaration.
pub fn first_fault(table: &TypeTable) -> Option<Found>
    ensures { IsFirst (StandsInKinds table.now.types.now) result }
{
    let mut first = None;
    for i in 0..table.types.len() {
        first = earlier(first, fault_at(table, i));
    }
    first
}

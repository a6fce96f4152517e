//! The types of names, and whether they fit those of a parameter.

ghost use Rattle.fond_kinds.specs.Kinds.{is_type, are_types};
ghost use Rattle.fond_names.specs.Subtypes.{is_below, is_below_some, are_misfits};
ghost use Rattle.std.specs.List.{list_all};
ghost use Rattle.std.specs.Prelude.{◌≡◌, IfOk, true};

use fond_ast::names::Kinds;
use fond_kinds::table::TypeTable;
use fond_text::fault::NoMemory;
use fond_text::name::Name;
use std::alloc::Global;

/// If one of two lists is at most this long, each pair of their types is compared.
pub(crate) const FEW: usize = 8;

/// Whether a type is declared.
pub(crate) fn is_type(types: &TypeTable, name: &Name) -> bool
    ensures { result ≡ is_type types.now.types.now name.now }
{
    types.number(name.bytes()).is_some()
}

/// Whether two types are declared, and the first is a subtype of the second.
pub(crate) fn is_below(types: &TypeTable, name: &Name, other: &Name) -> bool
    ensures { result ≡ is_below types.now.types.now name.now other.now }
{
    match (types.number(name.bytes()), types.number(other.bytes())) {
        (Some(number), Some(above)) => types.is_subtype(number, above),
        _ => false,
    }
}

/// Whether each of some types is declared.
fn are_types(types: &TypeTable, kinds: &Kinds) -> bool
    ensures { result ≡ are_types types.now.types.now kinds.now }
{
    kinds
        .as_slice()
        .iter()
        .all(|kind| is_type(types, &kind.name))
}

/// Whether a type is below one of some types.
pub fn is_below_some(types: &TypeTable, name: &Name, parameter: &Kinds) -> bool
    ensures { result ≡ is_below_some types.now.types.now name.now parameter.now }
{
    parameter
        .as_slice()
        .iter()
        .any(|other| is_below(types, name, &other.name))
}

/// Some types of a list, none of which is below another, by their places in an order of all types (`TypeTable::places`). What is
/// found by it is tested, so no contract speaks of it.
#[derive(Drop)]
pub(crate) struct Guide {
    places: Vec<u32>,
    indexes: Vec<usize>,
}

/// The declared types of a list as places and indexes, in order; `object` has the first place.
fn placed(alloc: Global, types: &TypeTable, kinds: &Kinds) -> Result<Vec<(u32, usize)>, NoMemory> {
    let mut placed = Vec::with_capacity(alloc, kinds.len())?;
    for i in 0..kinds.len() {
        match types.number(kinds.get(i).name.bytes()) {
            Some(0) => placed.push((0, i))?,
            Some(number) => placed.push((types.places(number).0, i))?,
            None => {}
        }
    }
    placed.sort_unstable();
    Ok(placed)
}

/// Whether a type of a list is below the last one in a guide, if there is one.
fn is_guided(types: &TypeTable, kinds: &Kinds, guide: &Guide, index: usize) -> bool {
    match guide.indexes.last() {
        Some(last) if *last < kinds.len() && index < kinds.len() => is_below(
            types,
            &kinds.get(index).name,
            &kinds.get(*last).name,
        ),
        _ => false,
    }
}

/// The guide to a list of types. Takes time in its length, times logarithms.
fn guide_to(alloc: Global, types: &TypeTable, kinds: &Kinds) -> Result<Guide, NoMemory> {
    let mut guide = Guide {
        places: Vec::new(alloc),
        indexes: Vec::new(alloc),
    };
    for (place, index) in placed(alloc, types, kinds)? {
        if !is_guided(types, kinds, &guide, index) {
            guide.places.push(place)?;
            guide.indexes.push(index)?;
        }
    }
    Ok(guide)
}

/// Whether a type is below the type of the list that the guide has for a place.
fn is_below_at(types: &TypeTable, name: &Name, kinds: &Kinds, guide: &Guide, place: u32) -> bool
    ensures { result ≡ true → is_below_some types.now.types.now name.now kinds.now ≡ true }
{
    let after = match guide.places.binary_search(&place) {
        Ok(at) => at.saturating_add(1),
        Err(at) => at,
    };
    match guide.indexes.get(after.saturating_sub(1)) {
        Some(index) if *index < kinds.len() => is_below(types, name, &kinds.get(*index).name),
        _ => false,
    }
}

/// Whether a type is below one of some types, to which there is a guide. Takes a logarithmic number of steps if it is, and else
/// looks at each of them.
fn is_below_guided(types: &TypeTable, name: &Name, kinds: &Kinds, guide: &Guide) -> bool
    ensures { result ≡ is_below_some types.now.types.now name.now kinds.now }
{
    if let Some(number) = types.number(name.bytes()) {
        let (own, lost) = types.places(number);
        if is_below_at(types, name, kinds, guide, own)
            || is_below_at(types, name, kinds, guide, lost)
        {
            return true;
        }
    }
    is_below_some(types, name, kinds)
}

/// Whether each of some types is below one of the others, by a guide to these.
fn are_below_guided(
    alloc: Global,
    types: &TypeTable,
    kinds: &Kinds,
    parameter: &Kinds,
) -> Result<bool, NoMemory>
    ensures { IfOk result (λ fit. fit ≡ list_all (λ kind. is_below_some types.now.types.now kind.name parameter.now) kinds.now) }
{
    let guide = guide_to(alloc, types, parameter)?;
    Ok(kinds.as_slice().iter().all(|kind| is_below_guided(types, &kind.name, parameter, &guide)))
}

/// Whether each of some types is below one of the others.
fn are_below(
    alloc: Global,
    types: &TypeTable,
    kinds: &Kinds,
    parameter: &Kinds,
) -> Result<bool, NoMemory>
    ensures { IfOk result (λ fit. fit ≡ list_all (λ kind. is_below_some types.now.types.now kind.name parameter.now) kinds.now) }
{
    if kinds.len() > FEW && parameter.len() > FEW {
        return are_below_guided(alloc, types, kinds, parameter);
    }
    Ok(
        kinds
            .as_slice()
            .iter()
            .all(|kind| is_below_some(types, &kind.name, parameter)),
    )
}

/// Whether types are declared, those of a parameter are declared, and they do not fit it. Takes time in the lengths of both
/// lists, times logarithms.
pub(crate) fn are_misfits(
    alloc: Global,
    types: &TypeTable,
    kinds: &Kinds,
    parameter: &Kinds,
) -> Result<bool, NoMemory>
    ensures { IfOk result (λ bad. bad ≡ are_misfits types.now.types.now kinds.now parameter.now) }
{
    Ok(
        are_types(types, kinds)
            && are_types(types, parameter)
            && !are_below(alloc, types, kinds, parameter)?,
    )
}

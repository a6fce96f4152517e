//! Declared types by their numbers.

ghost use Rattle.fond_kinds.specs.Kinds.{declares, IsAncestor, is_passed_over, is_type, only_kind as only_kind_of, parent_of as parent_of_type, IsSubtype};
ghost use Rattle.fond_kinds.specs.Parents.{are_within, parent_of};
ghost use Rattle.fond_kinds.specs.Tables.{IsNumber, firsts_with, number_of, type_names};
ghost use Rattle.fond_store.specs.Texts.{number_beside, InsertsText};
ghost use Rattle.fond_text.specs.declared.code.TheConstants.{LONGEST_TEXT};
ghost use Rattle.std.specs.Bool.{Decides};
ghost use Rattle.std.specs.List.{list_all};
ghost use Rattle.std.specs.Option.{is_some, option_map_or};
ghost use Rattle.std.specs.Prelude.{◌≡◌, ◌<◌, ◌≤◌, ◌^◌, ℕ, List, [], IsTrue, Some, None, true, length, option_and_then, position, replicate, slice_get, slice_index_or, vec_len, IfOk, OnOk};

use crate::ancestry::Ancestry;
use crate::links::parent_at;
use fond_ast::names::{TypedName, TypedNames};
use fond_store::index::TextIndex;
use fond_text::fault::NoMemory;
use std::alloc::Global;

/// The types of a domain by numbers: for each its first declaration, and the types above it.
#[derive(Drop)]
pub struct TypeTable<'a> {
    pub types: &'a TypedNames,
    numbers: TextIndex,
    pub(crate) firsts: Vec<Option<u32>>,
    ancestry: Ancestry,
    ghost numbered: { (name : List ℕ) → number_beside numbers name ≡ number_of types.now name },
    pub(crate) ghost declared: { (name : List ℕ) (number : ℕ) → number_of types.now name ≡ Some number
        → slice_index_or firsts.items number None ≡ position (declares name) types.now },
    ghost ascends: { (name : List ℕ) (number : ℕ) → number_of types.now name ≡ Some number
        → parent_of ancestry number ≡ number_of types.now (parent_of_type types.now name) },
    ghost over: { length ancestry ≡ length (type_names types.now) },
}

/// The type of a declared name that has exactly one.
pub(crate) fn only_kind(declared: &TypedName) -> &[u8]
    ensures { result.now ≡ only_kind_of declared.now }
{
    match declared.kinds.as_slice() {
        [] => b"object",
        [kind, ..] => kind.name.bytes(),
    }
}

/// Whether a type is `object` without a written parent.
pub(crate) fn is_passed_over(declared: &TypedName) -> bool
    ensures { result ≡ is_passed_over declared.now }
{
    declared.name.bytes() == b"object".as_slice()
        && match declared.kinds.as_slice() {
            [] => false,
            [kind, ..] => kind.place == declared.place,
        }
}

/// Inserts a text with its number, unless the text is there.
fn put(alloc: Global, numbers: &mut TextIndex, text: &[u8], number: u32) -> Result<(), NoMemory>
    ensures { OnOk result (InsertsText numbers.old text.now number numbers.new) }
{
    numbers.insert(Vec::from_slice(alloc, text)?, number)
}

/// Inserts the names of types, each with its first number.
fn put_names(alloc: Global, types: &TypedNames, numbers: &mut TextIndex) -> Result<(), NoMemory>
    requires few { length types.now ≤ LONGEST_TEXT }
    requires empty { numbers.old ≡ [] }
    ensures { OnOk result ((name : List ℕ) → number_beside numbers.new name ≡ number_of types.now name) }
{
    put(alloc, numbers, b"object", 0)?;
    for i in 0..types.len() {
        let declared = types.get(i);
        let at = 2 * i as u32;
        put(alloc, numbers, declared.name.bytes(), at + 1)?;
        put(alloc, numbers, only_kind(declared), at + 2)?;
    }
    Ok(())
}

/// The numbers of the names of types.
fn numbers_of(alloc: Global, types: &TypedNames) -> Result<TextIndex, NoMemory>
    requires { length types.now ≤ LONGEST_TEXT }
    ensures { IfOk result (λ numbers. (name : List ℕ) → number_beside numbers name ≡ number_of types.now name) }
{
    let mut numbers = TextIndex::new(alloc);
    put_names(alloc, types, &mut numbers)?;
    Ok(numbers)
}

/// Keeps a declaration as the first one of its type, unless there is an earlier one, or it declares nothing.
fn put_first(firsts: &mut Vec<Option<u32>>, numbers: &TextIndex, declared: &TypedName, at: u32)
    ensures { firsts.new.items ≡ firsts_with numbers.now firsts.old.items declared.now at }
{
    if is_passed_over(declared) {
        return;
    }
    if let Some(number) = numbers.find(declared.name.bytes()) {
        let number = number as usize;
        if number < firsts.len() && firsts[number].is_none() {
            firsts[number] = Some(at);
        }
    }
}

/// The number of the parent in the declaration at an index, or that of `object` if there is none.
fn parent_number(types: &TypedNames, numbers: &TextIndex, first: Option<u32>) -> Option<u32>
    ensures { result ≡ option_map_or (λ declared. number_beside numbers.now (only_kind_of declared)) (option_and_then (λ at. slice_get types.now at) first) (Some 0) }
{
    match first {
        Some(at) if (at as usize) < types.len() => numbers.find(only_kind(types.get(at as usize))),
        _ => Some(0),
    }
}

/// This many times no index.
fn nothing(alloc: Global, count: usize) -> Result<Vec<Option<u32>>, NoMemory>
    ensures { IfOk result (λ v. v.items ≡ replicate count None) }
{
    Ok(vec![in alloc; None; count]?)
}

/// For each number of a type the index of its first declaration, if it has one.
fn firsts_of(
    alloc: Global,
    types: &TypedNames,
    numbers: &TextIndex,
) -> Result<Vec<Option<u32>>, NoMemory>
    requires few { length types.now ≤ LONGEST_TEXT }
    requires numbered { (name : List ℕ) → number_beside numbers.now name ≡ number_of types.now name }
    ensures declared { IfOk result (λ firsts. (name : List ℕ) (number : ℕ) → number_of types.now name ≡ Some number
        → slice_index_or firsts.items number None ≡ position (declares name) types.now) }
    ensures over { IfOk result (λ firsts. length firsts.items ≡ length (type_names types.now)) }
{
    let mut firsts = nothing(alloc, 2 * types.len() + 1)?;
    for i in 0..types.len() {
        put_first(&mut firsts, numbers, types.get(i), i as u32);
    }
    Ok(firsts)
}

/// The parents of the numbers of types, by the first declarations.
fn parents_of(
    alloc: Global,
    types: &TypedNames,
    numbers: &TextIndex,
    firsts: &[Option<u32>],
) -> Result<Vec<Option<u32>>, NoMemory>
    requires numbered { (name : List ℕ) → number_beside numbers.now name ≡ number_of types.now name }
    requires declared { (name : List ℕ) (number : ℕ) → number_of types.now name ≡ Some number
        → slice_index_or firsts.now number None ≡ position (declares name) types.now }
    requires over { length firsts.now ≡ length (type_names types.now) }
    ensures ascends { IfOk result (λ parents. (name : List ℕ) (number : ℕ) → number_of types.now name ≡ Some number
        → parent_of parents.items number ≡ number_of types.now (parent_of_type types.now name)) }
    ensures over { IfOk result (λ parents. length parents.items ≡ length firsts.now) }
    ensures within { IfOk result (λ parents. are_within parents.items ≡ true) }
{
    let mut parents = Vec::with_capacity(alloc, firsts.len())?;
    for first in firsts {
        parents.push(parent_number(types, numbers, *first))?;
    }
    Ok(parents)
}

/// The parents of the numbers of types, with a forest among them.
fn ancestry_of(
    alloc: Global,
    types: &TypedNames,
    numbers: &TextIndex,
    firsts: &[Option<u32>],
) -> Result<Ancestry, NoMemory>
    requires few { length types.now ≤ LONGEST_TEXT }
    requires numbered { (name : List ℕ) → number_beside numbers.now name ≡ number_of types.now name }
    requires declared { (name : List ℕ) (number : ℕ) → number_of types.now name ≡ Some number
        → slice_index_or firsts.now number None ≡ position (declares name) types.now }
    requires over { length firsts.now ≡ length (type_names types.now) }
    ensures ascends { IfOk result (λ ancestry. (name : List ℕ) (number : ℕ) → number_of types.now name ≡ Some number
        → parent_of ancestry number ≡ number_of types.now (parent_of_type types.now name)) }
    ensures over { IfOk result (λ ancestry. length ancestry ≡ length (type_names types.now)) }
{
    let parents = parents_of(alloc, types, numbers, firsts)?;
    Ancestry::of(alloc, parents)
}

impl<'a> TypeTable<'a> {
    /// The table of these declarations. Takes time and memory in the length of their names.
    pub fn of(alloc: Global, types: &'a TypedNames) -> Result<TypeTable<'a>, NoMemory>
        requires { length types.now ≤ LONGEST_TEXT }
        ensures { IfOk result (λ table. table.types.now ≡ types.now) }
    {
        let numbers = numbers_of(alloc, types)?;
        let firsts = firsts_of(alloc, types, &numbers)?;
        let ancestry = ancestry_of(alloc, types, &numbers, &firsts)?;
        Ok(TypeTable {
            types,
            numbers,
            firsts,
            ancestry,
        })
    }

    /// The number of a type, if it is declared.
    pub fn number(&self, name: &[u8]) -> Option<u32>
        ensures numbered { result ≡ number_of self.now.types.now name.now }
        ensures known { is_some result ≡ is_type self.now.types.now name.now }
    {
        self.numbers.find(name)
    }

    /// Whether the first type is a subtype of the second, both by their numbers. Takes a number of steps that is logarithmic
    /// in the number of types above the first.
    pub fn is_subtype(&self, number: u32, other: u32) -> bool
        requires number { IsNumber self.now.types.now number }
        requires other { IsNumber self.now.types.now other }
        ensures { (name above : List ℕ) → number_of self.now.types.now name ≡ Some number → number_of self.now.types.now above ≡ Some other
            → Decides result (IsSubtype self.now.types.now name above) }
    {
        other == 0 || self.ancestry.is_below(number, other)
    }

    /// Two places in an order of the types in which each type comes right before all types below it: the place of this type,
    /// and, if the types above it close a cycle, that of the type at which the order has cut the cycle, or else 0. Of types none
    /// of which is below another, only the last one whose place is not after one of the two can be above this type. That makes
    /// a guess; `is_subtype` tells whether it is right.
    pub fn places(&self, number: u32) -> (u32, u32)
        requires { IsNumber self.now.types.now number }
    {
        self.ancestry.places(number)
    }

    /// The index of the first declaration of a type.
    pub(crate) fn first(&self, name: &[u8]) -> Option<u32>
        requires { (number : ℕ) × (number_of self.now.types.now name.now ≡ Some number) }
        ensures { result ≡ position (declares name.now) self.now.types.now }
    {
        match self.numbers.find(name) {
            Some(number) => parent_at(&self.firsts, number),
            None => unreachable!(),
        }
    }

    /// Whether a type is its own ancestor.
    pub(crate) fn is_own_ancestor(&self, name: &[u8]) -> bool
        requires { (number : ℕ) × (number_of self.now.types.now name.now ≡ Some number) }
        ensures { Decides result (IsAncestor self.now.types.now name.now name.now) }
    {
        match self.numbers.find(name) {
            Some(number) => match self.ancestry.parent(number) {
                Some(parent) => self.ancestry.is_below(parent, number),
                None => false,
            },
            None => unreachable!(),
        }
    }
}

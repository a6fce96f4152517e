//! The first fault of names in an atom, an equality or a list of variables.

ghost use Rattle.fond_text.specs.Firsts.{IsFirst};
ghost use Rattle.fond_names.specs.Fits.{AreTold, key_of, parameter_of};
ghost use Rattle.fond_names.specs.Faults.{HasMismatch, HasWrongArity, IsUnknownTerm, HasUnknownTerm, IsFirstAt, declaration_of};
ghost use Rattle.fond_names.specs.Files.{declarations_of};
ghost use Rattle.fond_names.specs.Names.{predicate_of};
ghost use Rattle.fond_names.specs.Sites.{AnAtom, AnEquality, AList};
ghost use Rattle.fond_names.specs.Subtypes.{are_misfits};
ghost use Rattle.fond_names.specs.Unknown.{IsMisfit};
ghost use Rattle.std.specs.Prelude.{◌≡◌, IfOk, OnOk, Some, if◌then◌else◌};

use crate::files::Files;
use crate::lookup::find_predicate;
use crate::repeated::repeated_variable;
use crate::scope::{Around, Variables};
use crate::types::{FEW, are_misfits};
use crate::unknown::unknown_type;
use crate::variable::find_term;
use fond_ast::files::Declared;
use fond_ast::names::{ReadAtom, Term, TypedName};
use fond_store::index::Index;
use fond_text::code::{TYPE_MISMATCH, UNKNOWN_PREDICATE, UNKNOWN_TERM, WRONG_ARITY};
use fond_text::fault::NoMemory;
use fond_text::first::{Found, earlier, found_if};
use fond_text::name::Name;
use std::alloc::Global;

/// What comparisons have found: beside the key of an argument at a position of a predicate there is 1 if it does not fit the
/// parameter there, and 0 if it does.
pub(crate) type Fits = Index<usize>;

/// A term, if it is unknown.
fn unknown_one(files: &Files, around: &Around, term: &Term) -> Option<Found>
    ensures { IsFirst (IsUnknownTerm (declarations_of files.now) around.now term.now) result }
{
    let unknown = find_term(files, around, term).is_none();
    found_if(unknown, term.place, UNKNOWN_TERM)
}

/// The first unknown term of an atom.
fn unknown_term(files: &Files, around: &Around, atom: &ReadAtom) -> Option<Found>
    ensures { IsFirst (HasUnknownTerm (declarations_of files.now) around.now atom.now) result }
{
    let mut first = None;
    for i in 0..atom.terms.len() {
        first = earlier(first, unknown_one(files, around, atom.terms.get(i)));
    }
    first
}

/// 1 for true, 0 for false.
fn number_of(so: bool) -> u32
    ensures { result ≡ (if so then 1 else 0) }
{
    if so { 1 } else { 0 }
}

/// The key of an argument at a position of a predicate.
fn key_of(
    alloc: Global,
    argument: &Term,
    predicate: &Name,
    at: usize,
) -> Result<Vec<usize>, NoMemory>
    ensures { IfOk result (λ key. key.items ≡ key_of argument.now.variable argument.now.name predicate.now at) }
{
    let mut key = Vec::new(alloc);
    key.push(number_of(argument.variable) as usize)?;
    key.push(at)?;
    key.push(argument.name.bytes().len())?;
    for byte in argument.name.bytes() {
        key.push(*byte as usize)?;
    }
    for byte in predicate.bytes() {
        key.push(*byte as usize)?;
    }
    Ok(key)
}

/// Whether a declared argument does not fit the parameter at a position of a predicate. If one of their lists of types is long,
/// the answer is kept beside their key, and they are compared only once.
fn is_misfit(
    alloc: Global,
    files: &Files,
    around: &Around,
    fits: &mut Fits,
    argument: &Term,
    declared: &TypedName,
    predicate: &Name,
    at: usize,
    parameter: &TypedName,
) -> Result<bool, NoMemory>
    requires known { declaration_of (declarations_of files.now) around.now argument.now ≡ Some declared.now }
    requires parameter { parameter_of files.now.domain.now predicate.now at ≡ Some parameter.now }
    requires told { AreTold (declarations_of files.now) around.now fits.old }
    ensures bad { IfOk result (λ bad. bad ≡ are_misfits files.now.domain.now.kinds declared.now.kinds parameter.now.kinds) }
    ensures told { OnOk result (AreTold (declarations_of files.now) around.now fits.new) }
{
    if declared.kinds.len() <= FEW && parameter.kinds.len() <= FEW {
        return are_misfits(alloc, &files.types, &declared.kinds, &parameter.kinds);
    }
    let key = key_of(alloc, argument, predicate, at)?;
    if let Some(bad) = fits.find(&key) {
        return Ok(bad == 1);
    }
    let bad = are_misfits(alloc, &files.types, &declared.kinds, &parameter.kinds)?;
    fits.insert(key, number_of(bad))?;
    Ok(bad)
}

/// An argument, if it does not fit the parameter at its position of a predicate.
fn misfit(
    alloc: Global,
    files: &Files,
    around: &Around,
    fits: &mut Fits,
    argument: &Term,
    predicate: &Name,
    at: usize,
    parameter: &TypedName,
) -> Result<Option<Found>, NoMemory>
    requires parameter { parameter_of files.now.domain.now predicate.now at ≡ Some parameter.now }
    requires told { AreTold (declarations_of files.now) around.now fits.old }
    ensures first { IfOk result (IsFirst (IsMisfit (declarations_of files.now) around.now argument.now parameter.now)) }
    ensures told { OnOk result (AreTold (declarations_of files.now) around.now fits.new) }
{
    match find_term(files, around, argument) {
        Some(declared) => {
            let bad = is_misfit(
                alloc, files, around, fits, argument, declared, predicate, at, parameter,
            )?;
            Ok(found_if(bad, argument.place, TYPE_MISMATCH))
        }
        None => Ok(None),
    }
}

/// The first argument of an atom that does not fit its parameter.
fn mismatch(
    alloc: Global,
    files: &Files,
    around: &Around,
    fits: &mut Fits,
    predicate: &Declared,
    atom: &ReadAtom,
) -> Result<Option<Found>, NoMemory>
    requires named { predicate_of files.now.domain.now atom.now.name ≡ Some predicate.now }
    requires told { AreTold (declarations_of files.now) around.now fits.old }
    ensures first { IfOk result (IsFirst (HasMismatch (declarations_of files.now) around.now atom.now)) }
    ensures told { OnOk result (AreTold (declarations_of files.now) around.now fits.new) }
{
    let mut first = None;
    for i in 0..atom.terms.len().min(predicate.parameters.len()) {
        let (argument, parameter) = (atom.terms.get(i), predicate.parameters.get(i));
        let found = misfit(
            alloc, files, around, fits, argument, &atom.name, i, parameter,
        )?;
        first = earlier(first, found);
    }
    Ok(first)
}

/// An atom, if it has another number of terms than its predicate has parameters.
fn wrong_arity(files: &Files, predicate: &Declared, atom: &ReadAtom) -> Option<Found>
    requires { predicate_of files.now.domain.now atom.now.name ≡ Some predicate.now }
    ensures { IsFirst (HasWrongArity (declarations_of files.now) atom.now) result }
{
    let wrong = atom.terms.len() != predicate.parameters.len();
    found_if(wrong, atom.place, WRONG_ARITY)
}

/// The first fault of names in an atom.
pub(crate) fn atom_fault(
    alloc: Global,
    files: &Files,
    around: &Around,
    fits: &mut Fits,
    atom: &ReadAtom,
) -> Result<Option<Found>, NoMemory>
    requires { AreTold (declarations_of files.now) around.now fits.old }
    ensures first { IfOk result (IsFirstAt (declarations_of files.now) (AnAtom around.now atom.now)) }
    ensures told { OnOk result (AreTold (declarations_of files.now) around.now fits.new) }
{
    let terms = unknown_term(files, around, atom);
    match find_predicate(files, &atom.name) {
        Some(predicate) => {
            let arity = wrong_arity(files, predicate, atom);
            let misfit = mismatch(alloc, files, around, fits, predicate, atom)?;
            let arguments = earlier(misfit, terms);
            Ok(earlier(arity, arguments))
        }
        None => Ok(earlier(found_if(true, atom.head, UNKNOWN_PREDICATE), terms)),
    }
}

/// The first fault of names in an equality.
pub(crate) fn equality_fault(
    files: &Files,
    around: &Around,
    term: &Term,
    other: &Term,
) -> Option<Found>
    ensures { IsFirstAt (declarations_of files.now) (AnEquality around.now term.now other.now) result }
{
    let first = unknown_one(files, around, term);
    earlier(first, unknown_one(files, around, other))
}

/// The first fault of names in a list of variables.
pub(crate) fn list_fault(files: &Files, variables: &Variables) -> Option<Found>
    ensures { IsFirstAt (declarations_of files.now) (AList variables.now) result }
{
    let unknown = unknown_type(&files.types, variables.names());
    earlier(unknown, repeated_variable(variables))
}

//! The names of predicates and of objects, each at its first declaration.

ghost use Rattle.fond_names.specs.Files.{declarations_of};
ghost use Rattle.fond_names.specs.Names.{all_objects};
ghost use Rattle.fond_text.specs.declared.code.TheConstants.{LONGEST_TEXT};
ghost use Rattle.fond_types.specs.Meanings.{IsNumbering, name_also, names_once};
ghost use Rattle.std.specs.Prelude.{◌≡◌, ◌<◌, ◌≤◌, ◌+◌, ◌^◌, IfOk, OnOk, length};

use crate::numbers::Numbers;
use fond_names::files::Files;
use fond_names::index::{insert_name, joined_get};
use fond_store::index::TextIndex;
use fond_text::fault::NoMemory;
use fond_text::name::{Name, Names};
use std::alloc::Global;

/// Gives a name the next number, unless it has one.
fn declare(
    alloc: Global,
    names: &mut Names,
    numbers: &mut TextIndex,
    name: &Name,
) -> Result<(), NoMemory>
    requires few { length names.old < 2 ^ 32 }
    requires numbered { IsNumbering numbers.old names.old }
    ensures few { OnOk result (length names.new ≤ length names.old + 1) }
    ensures named { OnOk result (names.new ≡ name_also names.old name.now) }
    ensures numbered { OnOk result (IsNumbering numbers.new names.new) }
{
    if numbers.find(name.bytes()).is_some() {
        return Ok(());
    }
    insert_name(alloc, numbers, name, names.len() as u32)?;
    names.push(name.copy(alloc)?)?;
    Ok(())
}

/// The predicates of the domain.
pub(crate) fn declared_predicates(alloc: Global, files: &Files) -> Result<Numbers, NoMemory>
    ensures { IfOk result (λ all. all.names ≡ names_once (λ one. one.name) files.now.domain.now.predicates) }
{
    let mut names = Names::new(alloc);
    let mut numbers = Box::new(alloc, TextIndex::new(alloc))?;
    for i in 0..files.domain.predicates.len() {
        declare(
            alloc,
            &mut names,
            &mut numbers,
            &files.domain.predicates.get(i).name,
        )?;
    }
    Ok(Numbers { names, numbers })
}

/// The constants and the objects of the problem.
pub(crate) fn declared_objects(alloc: Global, files: &Files) -> Result<Numbers, NoMemory>
    ensures { IfOk result
        (λ all. all.names ≡ names_once (λ one. one.name) (all_objects (declarations_of files.now))) }
{
    let (constants, objects) = (&files.domain.constants, &files.problem.objects);
    let mut names = Names::new(alloc);
    let mut numbers = Box::new(alloc, TextIndex::new(alloc))?;
    for i in 0..constants.len() + objects.len() {
        declare(
            alloc,
            &mut names,
            &mut numbers,
            &joined_get(constants, objects, i).name,
        )?;
    }
    Ok(Numbers { names, numbers })
}

//! Reading the literals of a rule.

ghost use Rattle.fond_cert.specs.Refusals.{LineRefuses};
ghost use Rattle.fond_cert.specs.Checked.{rises, IsCubeAt, IsLiteralRefused, IsValueText, Means, IsValueRefused};
ghost use Rattle.fond_form.specs.Parts.{IsLiteralsText};
ghost use Rattle.fond_form.specs.declared.table.Sort.TheVariants.{Literals as LiteralsSort};
ghost use Rattle.std.specs.Prelude.{◌≡◌, ◌+◌, ◌<◌, ◌^◌, ◌&&◌, None, Some, length, replicate, slice_set, IfOk, IfErr};

use crate::code::{OUT_OF_FORM, UNKNOWN_ATOM};
use crate::error::LineError;
use crate::task_index::TaskIndex;
use fond_form::part::Part;
use fond_form::scan::literal;
use fond_state::cube::Cube;
use fond_task::task::Task;
use fond_text::fault::NoMemory;
use std::alloc::Global;

/// The literals that were read, the atom of the last one, and whether the atoms strictly increase.
#[derive(Drop)]
struct Literals {
    cube: Cube,
    last: Option<u32>,
    is_ordered: bool,
}

/// Whether the number is greater than the one before it, if there is one.
fn rises(last: Option<u32>, number: u32) -> bool
    ensures { result ≡ rises last number }
{
    match last {
        Some(before) => before < number,
        None => true,
    }
}

/// The cube over the atoms of the task without literals.
fn whole_cube(alloc: Global, task: &Task) -> Result<Cube, NoMemory>
    ensures { IfOk result (λ cube. cube ≡ replicate (length task.now.atoms) None) }
{
    Cube::new(alloc, task.atoms.len() as u32)
}

impl Literals {
    /// Adds a literal.
    fn put(&mut self, atom: u32, sign: bool)
        requires { atom < length self.old.cube }
        ensures cube { self.new.cube ≡ slice_set self.old.cube atom (Some sign) }
        ensures last { self.new.last ≡ Some atom }
        ensures ordered { self.new.is_ordered ≡ (self.old.is_ordered && rises self.old.last atom) }
    {
        self.is_ordered = self.is_ordered && rises(self.last, atom);
        self.last = Some(atom);
        self.cube.put_literal(atom, sign);
    }
}

/// The literals of the text, which begins at this byte of its line.
fn read_literals(
    alloc: Global,
    index: &TaskIndex,
    text: &[u8],
    at: usize,
) -> Result<Literals, LineError>
    requires spelled { IsLiteralsText text.now }
    requires within { at + length text.now < 2 ^ 64 }
    ensures read { IfOk result (λ literals. IsCubeAt index.now at text.now literals.cube literals.is_ordered) }
    ensures wrong { IfErr result (LineRefuses (IsLiteralRefused index.now at text.now)) }
{
    let mut literals = Literals {
        cube: whole_cube(alloc, index.task())?,
        last: None,
        is_ordered: true,
    };
    let mut rest = text;
    while let Some((sign, atom, further)) = literal(rest) {
        let Some(number) = index.atom(atom) else {
            return Err(LineError::Refused {
                code: UNKNOWN_ATOM,
                at: at + (text.len() - rest.len()) + 2,
            });
        };
        literals.put(number, sign);
        rest = further;
    }
    Ok(literals)
}

/// The cube of literals. Takes time in the length of their text and in the number of the task's atoms; memory for the
/// cube.
pub(crate) fn read_cube(alloc: Global, index: &TaskIndex, literals: Part) -> Result<Cube, LineError>
    requires { IsValueText LiteralsSort literals.text.now }
    ensures read { IfOk result (Means index.now literals.entry.at LiteralsSort literals.entry.text.now) }
    ensures wrong { IfErr result (LineRefuses (IsValueRefused index.now literals.entry.at LiteralsSort literals.entry.text.now)) }
{
    let read = read_literals(alloc, index, literals.text, literals.at)?;
    if read.is_ordered {
        Ok(read.cube)
    } else {
        Err(LineError::Refused {
            code: OUT_OF_FORM,
            at: 0,
        })
    }
}

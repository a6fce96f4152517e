//! Atoms with each name replaced by its number.

ghost use Rattle.fond_ast.specs.Within.{is_fluent};
ghost use Rattle.fond_names.specs.Sites.{AnAtom, variables_of};
ghost use Rattle.fond_text.specs.declared.code.TheConstants.{LONGEST_TEXT};
ghost use Rattle.fond_types.specs.Meanings.{meanings, are_typed_around};
ghost use Rattle.fond_types.specs.Numbered.{is_atom_in};
ghost use Rattle.fond_types.specs.Resolves.{is_atom};
ghost use Rattle.fond_types.specs.Sound.{is_sound, is_mentioned};
ghost use Rattle.std.specs.Prelude.{◌≡◌, ◌≤◌, IfOk, length, true};

use crate::context::Context;
use crate::terms::numbered_terms;
use fond_ast::form::LAtom;
use fond_ast::names::ReadAtom;
use fond_names::scope::Around;
use fond_text::fault::NoMemory;
use std::alloc::Global;

/// A sound atom over numbers.
pub(crate) fn numbered_atom(
    alloc: Global,
    context: &Context,
    around: &Around,
    atom: &ReadAtom,
) -> Result<LAtom, NoMemory>
    requires sound { is_sound context.now.files (AnAtom around.now atom.now) ≡ true }
    requires typed { are_typed_around context.now.files.domain.kinds around.now ≡ true }
    requires few { length (variables_of around.now) ≤ LONGEST_TEXT }
    ensures resolved { IfOk result
        (λ number. is_atom (meanings context.now.files) around.now atom.now number ≡ true) }
    ensures within { IfOk result (λ number. is_atom_in context.now around.now number ≡ true) }
    ensures fluent { IfOk result (λ number. is_fluent context.now.predicates number.predicate
        ≡ is_mentioned context.now.files.domain atom.now.name) }
{
    let terms = numbered_terms(alloc, context, around, &atom.terms)?;
    match context.predicate_number(&atom.name) {
        Some(predicate) => Ok(LAtom { predicate, terms }),
        None => unreachable!(),
    }
}

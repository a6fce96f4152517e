//! Initial atoms with each name replaced by its number.

ghost use Rattle.fond_ast.specs.Within.{is_initial_within};
ghost use Rattle.fond_names.specs.Sites.{AnAtom, initial_sites};
ghost use Rattle.fond_types.specs.Ground.{are_initial, objects_in};
ghost use Rattle.fond_types.specs.Meanings.{meanings};
ghost use Rattle.fond_types.specs.Resolves.{is_ground_atom};
ghost use Rattle.fond_types.specs.Sound.{are_sound, is_sound};
ghost use Rattle.std.specs.List.{list_all};
ghost use Rattle.std.specs.Prelude.{◌≡◌, [], IfOk, true};

use crate::context::Context;
use crate::numbered_atom::numbered_atom;
use fond_ast::form::{LTerm, LTerms};
use fond_ast::names::ReadAtom;
use fond_names::scope::outside;
use fond_text::atom::{Atom, Atoms, Objects};
use fond_text::fault::NoMemory;
use std::alloc::Global;

/// The objects among some terms.
fn objects_in(alloc: Global, terms: &LTerms) -> Result<Objects, NoMemory>
    ensures { IfOk result (λ objects. objects ≡ objects_in terms.now) }
{
    let mut objects = Objects::new(alloc);
    for i in 0..terms.len() {
        match *terms.get(i) {
            LTerm::Object(number) => objects.push(number)?,
            LTerm::Variable(_) => {}
        }
    }
    Ok(objects)
}

/// A sound atom without variables over numbers.
fn ground_atom(alloc: Global, context: &Context, atom: &ReadAtom) -> Result<Atom, NoMemory>
    requires { is_sound context.now.files (AnAtom [] atom.now) ≡ true }
    ensures resolved { IfOk result (λ number. is_ground_atom (meanings context.now.files) atom.now number ≡ true) }
    ensures within { IfOk result (λ number. is_initial_within context.now.predicates number ≡ true) }
{
    let outside = outside();
    let number = numbered_atom(alloc, context, &outside, atom)?;
    Ok(Atom {
        predicate: number.predicate,
        objects: objects_in(alloc, &number.terms)?,
    })
}

/// The initial atoms that are not negated, over numbers, in order.
pub(crate) fn numbered_init(alloc: Global, context: &Context) -> Result<Atoms, NoMemory>
    requires { are_sound context.now.files (initial_sites context.now.files.problem) ≡ true }
    ensures resolved { IfOk result (λ all. are_initial context.now.files all ≡ true) }
    ensures within { IfOk result (λ all. list_all (is_initial_within context.now.predicates) all ≡ true) }
{
    let init = &context.problem().init;
    let mut all = Atoms::new(alloc);
    for i in 0..init.len() {
        let initial = init.get(i);
        if initial.positive {
            all.push(ground_atom(alloc, context, &initial.atom)?)?;
        }
    }
    Ok(all)
}

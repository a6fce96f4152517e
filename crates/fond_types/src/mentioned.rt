//! The predicates of which an effect of some schema has a literal.

ghost use Rattle.fond_names.specs.Indexes.{GainsNames, HasNames};
ghost use Rattle.fond_types.specs.Resolves.{mentions};
ghost use Rattle.fond_types.specs.Sound.{is_mentioned};
ghost use Rattle.std.specs.Prelude.{IfOk, OnOk};
ghost use Rattle.std.specs.Str.{bytes_eq};

use fond_ast::files::Domain;
use fond_ast::names::ReadAtom;
use fond_ast::syntax::Effect;
use fond_names::index::insert_name;
use fond_store::index::TextIndex;
use fond_text::fault::NoMemory;
use std::alloc::Global;

/// Adds the name of an atom.
fn add_atom(alloc: Global, index: &mut TextIndex, atom: &ReadAtom) -> Result<(), NoMemory>
    ensures { OnOk result (GainsNames (bytes_eq atom.now.name) index.old index.new) }
{
    insert_name(alloc, index, &atom.name, 0)
}

/// Adds the names of the predicates of all literals of an effect.
fn add_effect(alloc: Global, index: &mut TextIndex, effect: &Effect) -> Result<(), NoMemory>
    ensures { OnOk result (GainsNames (λ name. mentions name effect.now) index.old index.new) }
{
    match effect {
        Effect::Nothing => Ok(()),
        Effect::Add(atom) | Effect::Delete(atom) => add_atom(alloc, index, atom),
        Effect::And(parts) | Effect::OneOf(parts) => {
            for part in parts {
                add_effect(alloc, index, part)?;
            }
            Ok(())
        }
        Effect::Forall(_, part) | Effect::When(_, part) => add_effect(alloc, index, part),
    }
}

/// The names of the predicates of all literals of effects, all with the number 0.
pub(crate) fn mentioned(alloc: Global, domain: &Domain) -> Result<TextIndex, NoMemory>
    ensures { IfOk result (HasNames (is_mentioned domain.now)) }
{
    let mut index = TextIndex::new(alloc);
    for i in 0..domain.schemas.len() {
        add_effect(alloc, &mut index, &domain.schemas.get(i).effect)?;
    }
    Ok(index)
}

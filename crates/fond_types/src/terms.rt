//! Terms with each name replaced by its number.

ghost use Rattle.fond_names.specs.Sites.{variables_of};
ghost use Rattle.fond_text.specs.declared.code.TheConstants.{LONGEST_TEXT};
ghost use Rattle.fond_types.specs.Meanings.{meanings};
ghost use Rattle.fond_types.specs.Numbered.{are_terms, is_term_in};
ghost use Rattle.fond_types.specs.Resolves.{is_term, variable_number};
ghost use Rattle.fond_types.specs.Sound.{is_known};
ghost use Rattle.std.specs.List.{list_all};
ghost use Rattle.std.specs.Prelude.{◌≡◌, ◌≤◌, IfOk, length, true};

use crate::context::Context;
use fond_ast::form::{LTerm, LTerms};
use fond_ast::names::{Term, Terms};
use fond_names::scope::{Around, Lists};
use fond_text::fault::NoMemory;
use fond_text::name::Name;
use std::alloc::Global;

/// The number of variables around a place.
fn count_around(around: &Around) -> u32
    requires { length (variables_of around.now) ≤ LONGEST_TEXT }
    ensures { result ≡ length (variables_of around.now) }
{
    match around.lists {
        Lists::Nothing => 0,
        Lists::Inside(variables, outer) => variables.names().len() as u32 + count_around(outer),
    }
}

/// The number of a variable among those around a place, if one of them has the name.
fn variable_number(around: &Around, name: &Name) -> Option<u32>
    requires { length (variables_of around.now) ≤ LONGEST_TEXT }
    ensures { result ≡ variable_number around.now name.now }
{
    match around.lists {
        Lists::Nothing => None,
        Lists::Inside(variables, outer) => match variables.position(name) {
            Some(at) => Some(count_around(outer) + at),
            None => variable_number(outer, name),
        },
    }
}

/// A declared term over numbers.
pub(crate) fn numbered_term(context: &Context, around: &Around, term: &Term) -> LTerm
    requires known { is_known context.now.files around.now term.now ≡ true }
    requires few { length (variables_of around.now) ≤ LONGEST_TEXT }
    ensures resolved { is_term (meanings context.now.files) around.now term.now result ≡ true }
    ensures within { is_term_in context.now.files around.now result ≡ true }
{
    if term.variable {
        match variable_number(around, &term.name) {
            Some(number) => LTerm::Variable(number),
            None => unreachable!(),
        }
    } else {
        match context.object_number(&term.name) {
            Some(number) => LTerm::Object(number),
            None => unreachable!(),
        }
    }
}

/// Declared terms over numbers, in order.
pub(crate) fn numbered_terms(
    alloc: Global,
    context: &Context,
    around: &Around,
    terms: &Terms,
) -> Result<LTerms, NoMemory>
    requires known { list_all (is_known context.now.files around.now) terms.now ≡ true }
    requires few { length (variables_of around.now) ≤ LONGEST_TEXT }
    ensures { IfOk result (λ numbers. are_terms context.now.files around.now terms.now numbers ≡ true) }
{
    let mut numbers = LTerms::new(alloc);
    for i in 0..terms.len() {
        numbers.push(numbered_term(context, around, terms.get(i)))?;
    }
    Ok(numbers)
}

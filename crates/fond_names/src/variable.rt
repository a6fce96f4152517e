//! First declarations of variables and of terms.

ghost use Rattle.fond_names.specs.Faults.{declaration_of};
ghost use Rattle.fond_names.specs.Files.{declarations_of};
ghost use Rattle.fond_names.specs.Names.{first_of};
ghost use Rattle.fond_names.specs.Sites.{variable_of};
ghost use Rattle.std.specs.Option.{option_copied};
ghost use Rattle.std.specs.Prelude.{◌≡◌};

use crate::files::Files;
use crate::lookup::find_object;
use crate::scope::{Around, Lists, Variables};
use fond_ast::names::{Term, TypedName};
use fond_text::name::Name;

/// The first declaration of a variable in one list.
fn find_in<'t>(variables: &'t Variables, name: &Name) -> Option<&'t TypedName>
    ensures { option_copied result ≡ first_of variables.now name.now }
{
    match variables.position(name) {
        Some(at) => Some(variables.names().get(at as usize)),
        None => None,
    }
}

/// The declaration of a variable in the innermost list that declares it.
fn find_variable<'t>(around: &'t Around, name: &Name) -> Option<&'t TypedName>
    ensures { option_copied result ≡ variable_of around.now name.now }
{
    match around.lists {
        Lists::Nothing => None,
        Lists::Inside(variables, outer) => match find_in(variables, name) {
            Some(found) => Some(found),
            None => find_variable(outer, name),
        },
    }
}

/// The declaration of a term: that of a variable around it, or of an object.
pub(crate) fn find_term<'t>(
    files: &'t Files,
    around: &'t Around,
    term: &Term,
) -> Option<&'t TypedName>
    ensures { option_copied result ≡ declaration_of (declarations_of files.now) around.now term.now }
{
    if term.variable {
        find_variable(around, &term.name)
    } else {
        find_object(files, &term.name)
    }
}

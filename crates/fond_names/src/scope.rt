//! The variables around a place in a condition or an effect. Lists of variables nest at most as deep as parentheses,
//! 128 levels, so a variable costs at most that many lookups.

ghost use Rattle.fond_text.specs.declared.code.TheConstants.{LONGEST_TEXT};
ghost use Rattle.std.specs.Prelude.{◌≡◌, ◌≤◌, ◌∷◌, [], IfOk, length, position};
ghost use Rattle.std.specs.Str.{bytes_eq};

use crate::index::index_variables;
use fond_ast::names::TypedNames;
use fond_store::index::TextIndex;
use fond_text::fault::NoMemory;
use fond_text::name::Name;
use std::alloc::Global;
use std::marker::Model;

/// A list of variables with an index of their positions. Contracts see the list.
#[derive(Drop)]
pub struct Variables<'a> {
    names: &'a TypedNames,
    index: TextIndex,
}

impl<'a> Model for Variables<'a> {
    ghost use Rattle.std.specs.Prelude.{List};
    ghost use Rattle.fond_ast.specs.declared.names.TypedName.{TypedName};
    ghost use Rattle.fond_names.specs.Indexes.{IsIndex};

    ghost Value = { List TypedName };

    ghost view = { λ v. v.names.now };

    ghost invariant = { λ v. IsIndex (λ name. name.name) v.index v.names.now };
}

impl<'a> Variables<'a> {
    /// A list of variables, indexed.
    pub fn of(alloc: Global, names: &'a TypedNames) -> Result<Variables<'a>, NoMemory>
        requires { length names.now ≤ LONGEST_TEXT }
        ensures { IfOk result (λ variables. variables ≡ names.now) }
    {
        let index = index_variables(alloc, names)?;
        Ok(Variables { names, index })
    }

    /// The list.
    pub fn names(&self) -> &'a TypedNames
        ensures { result.now ≡ self.now }
    {
        self.names
    }

    /// The position of the first variable of a name.
    pub fn position(&self, name: &Name) -> Option<u32>
        ensures { result ≡ position (λ variable. bytes_eq variable.name name.now) self.now }
    {
        self.index.find(name.bytes())
    }
}

/// The lists of variables around a place. Contracts see the lists, the innermost first.
#[cycle(around)]
#[derive(Drop)]
pub struct Around<'a> {
    pub lists: Lists<'a>,
}

/// No list of variables, or the innermost one and the lists around it.
#[cycle(around)]
#[derive(Clone, Copy)]
pub enum Lists<'a> {
    Nothing,
    Inside(&'a Variables<'a>, &'a Around<'a>),
}

impl<'a> Model for Around<'a> {
    ghost use Rattle.std.specs.Prelude.{length};
    ghost use Rattle.fond_names.specs.Sites.{Scope};

    ghost Value = { Scope };

    ghost use Rattle.fond_names.specs.Scopes.{scope_of};

    ghost view = { λ a. scope_of a.lists };

    ghost size = { length };

    ghost use Rattle.fond_names.specs.ScopeFalls.{depth_le-length};

    ghost size_decreases = { λ a h. depth_le-length a.lists };
}

/// The place outside all lists of variables.
pub fn outside<'a>() -> Around<'a>
    ensures { result ≡ [] }
{
    Around {
        lists: Lists::Nothing,
    }
}

/// The place inside a list of variables.
pub fn inside<'a>(variables: &'a Variables<'a>, outer: &'a Around<'a>) -> Around<'a>
    ensures { result ≡ variables.now ∷ outer.now }
{
    Around {
        lists: Lists::Inside(variables, outer),
    }
}

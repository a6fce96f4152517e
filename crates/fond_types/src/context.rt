//! What conditions and effects are numbered by.

ghost use Rattle.fond_store.specs.Texts.{number_beside};
ghost use Rattle.fond_types.specs.Context.{are_predicates};
ghost use Rattle.fond_types.specs.Meanings.{meanings, numbered_from};
ghost use Rattle.fond_types.specs.Numbered.{AreNumbered};
ghost use Rattle.std.specs.Prelude.{◌≡◌, true};

use crate::table::Table;
use fond_ast::files::{Domain, Problem};
use fond_ast::task::LPredicates;
use fond_text::name::Name;
use std::marker::Model;

/// The numbers of names, and the predicates over numbers. Contracts see the declarations with these predicates.
#[derive(Drop)]
pub(crate) struct Context<'a> {
    table: &'a Table<'a>,
    predicates: &'a LPredicates,
}

impl<'a> Model for Context<'a> {
    ghost use Rattle.std.specs.Prelude.{◌≡◌};
    ghost use Rattle.std.specs.Coded.{codes};
    ghost use Rattle.fond_ast.specs.contracts.syntax.Cond as condition;
    ghost use Rattle.fond_ast.specs.contracts.syntax.Effect as effect;
    ghost use Rattle.fond_types.specs.Numbered.{AreNumbered, Numbered};

    ghost Value = { Numbered };

    ghost coded = { Prim.hlevel (codes, condition.the_row.coded, effect.the_row.coded) };

    ghost view = { λ c. record { files = c.table.now; predicates = c.predicates.now } };

    ghost invariant = { λ c. AreNumbered (record { files = c.table.now; predicates = c.predicates.now }) };
}

impl<'a> Context<'a> {
    /// The numbers of a table, with its predicates over numbers.
    pub(crate) fn of(table: &'a Table<'a>, predicates: &'a LPredicates) -> Context<'a>
        requires { are_predicates table.now predicates.now ≡ true }
        ensures { result ≡ record { files = table.now; predicates = predicates.now } }
    {
        table.is_well_named();
        Context { table, predicates }
    }

    /// The numbers of names.
    pub(crate) fn table(&self) -> &'a Table<'a>
        ensures { result.now ≡ self.now.files }
    {
        self.table
    }

    /// The domain.
    pub(crate) fn domain(&self) -> &'a Domain
        ensures { result.now ≡ self.now.files.domain }
    {
        self.table.domain()
    }

    /// The problem.
    pub(crate) fn problem(&self) -> &'a Problem
        ensures { result.now ≡ self.now.files.problem }
    {
        self.table.problem()
    }

    /// The number of a predicate, if it is declared.
    pub(crate) fn predicate_number(&self, name: &Name) -> Option<u32>
        ensures found { result ≡ number_beside (numbered_from 0 (meanings self.now.files).predicates) name.now }
        ensures numbered { AreNumbered self.now }
    {
        self.table.predicate_number(name)
    }

    /// The number of an object, if it is declared.
    pub(crate) fn object_number(&self, name: &Name) -> Option<u32>
        ensures { result ≡ number_beside (numbered_from 0 (meanings self.now.files).objects) name.now }
    {
        self.table.object_number(name)
    }
}

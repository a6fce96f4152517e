//! Declarations without a fault of names, and the numbers of their names.

ghost use Rattle.fond_store.specs.Texts.{number_beside};
ghost use Rattle.fond_names.specs.Faults.{StandsInNames};
ghost use Rattle.fond_names.specs.Files.{declarations_of};
ghost use Rattle.fond_names.specs.Names.{all_objects, first_of, predicate_of};
ghost use Rattle.fond_text.specs.Faults.{AreClean};
ghost use Rattle.fond_types.specs.Meanings.{meanings, numbered_from};
ghost use Rattle.fond_types.specs.Numbered.{AreWellNamed};
ghost use Rattle.std.specs.Option.{option_copied};
ghost use Rattle.std.specs.Prelude.{◌≡◌, ◌<◌, ◌^◌, IfOk, length, position};
ghost use Rattle.std.specs.Str.{bytes_eq};

use crate::declare::{declared_objects, declared_predicates};
use crate::numbers::Numbers;
use fond_ast::files::{Declared, Domain, Problem, Side};
use fond_ast::names::TypedName;
use fond_kinds::table::TypeTable;
use fond_names::files::Files;
use fond_names::lookup::{find_object, find_predicate};
use fond_text::fault::NoMemory;
use fond_text::name::{Name, Names};
use std::alloc::Global;
use std::marker::Model;

/// The declarations of three files in which each type is declared, schemas have distinct names, and patterns are sound;
/// and the numbers of their predicates and objects. Contracts see the declarations.
#[derive(Drop)]
pub(crate) struct Table<'a> {
    files: &'a Files<'a>,
    predicates: Numbers,
    objects: Numbers,
}

impl<'a> Model for Table<'a> {
    ghost use Rattle.std.specs.Prelude.{◌≡◌};
    ghost use Rattle.std.specs.Coded.{codes};
    ghost use Rattle.fond_ast.specs.contracts.syntax.Cond as condition;
    ghost use Rattle.fond_ast.specs.contracts.syntax.Effect as effect;
    ghost use Rattle.fond_names.specs.Files.{declarations_of};
    ghost use Rattle.fond_names.specs.Names.{Declarations};
    ghost use Rattle.fond_types.specs.Meanings.{meanings};
    ghost use Rattle.fond_types.specs.Numbered.{AreWellNamed};

    ghost Value = { Declarations };

    ghost coded = { Prim.hlevel (codes, condition.the_row.coded, effect.the_row.coded) };

    ghost view = { λ t. declarations_of t.files.now };

    ghost invariant = { λ t. AreWellNamed (declarations_of t.files.now)
        × (t.predicates.names ≡ (meanings (declarations_of t.files.now)).predicates)
        × (t.objects.names ≡ (meanings (declarations_of t.files.now)).objects) };
}

impl<'a> Table<'a> {
    /// The numbers of the names of clean declarations.
    pub(crate) fn of(alloc: Global, files: &'a Files<'a>) -> Result<Table<'a>, NoMemory>
        requires { AreClean (StandsInNames (declarations_of files.now)) }
        ensures { IfOk result (λ table. table ≡ declarations_of files.now) }
    {
        let predicates = declared_predicates(alloc, files)?;
        let objects = declared_objects(alloc, files)?;
        Ok(Table {
            files,
            predicates,
            objects,
        })
    }

    /// The domain.
    pub(crate) fn domain(&self) -> &'a Domain
        ensures { result.now ≡ self.now.domain }
    {
        self.files.domain
    }

    /// The problem.
    pub(crate) fn problem(&self) -> &'a Problem
        ensures { result.now ≡ self.now.problem }
    {
        self.files.problem
    }

    /// The side list.
    pub(crate) fn side(&self) -> &'a Side
        ensures { result.now ≡ self.now.side }
    {
        self.files.side
    }

    /// The names of the predicates by their numbers.
    pub(crate) fn predicates(&self) -> &Names
        ensures { result.now ≡ (meanings self.now).predicates }
    {
        &self.predicates.names
    }

    /// The names of the objects by their numbers.
    pub(crate) fn objects(&self) -> &Names
        ensures named { result.now ≡ (meanings self.now).objects }
        ensures few { length result.now < 2 ^ 32 }
    {
        &self.objects.names
    }

    /// The number of a predicate, if it is declared.
    pub(crate) fn predicate_number(&self, name: &Name) -> Option<u32>
        ensures { result ≡ number_beside (numbered_from 0 (meanings self.now).predicates) name.now }
    {
        self.predicates.numbers.find(name.bytes())
    }

    /// The number of an object, if it is declared.
    pub(crate) fn object_number(&self, name: &Name) -> Option<u32>
        ensures { result ≡ number_beside (numbered_from 0 (meanings self.now).objects) name.now }
    {
        self.objects.numbers.find(name.bytes())
    }

    /// The types of the domain.
    pub(crate) fn types(&self) -> &'a TypeTable<'a>
        ensures { result.now.types.now ≡ self.now.domain.kinds }
    {
        &self.files.types
    }

    /// The first declaration of a predicate.
    pub(crate) fn find_predicate(&self, name: &Name) -> Option<&'a Declared>
        ensures { option_copied result ≡ predicate_of self.now.domain name.now }
    {
        find_predicate(self.files, name)
    }

    /// The first declaration of an object.
    pub(crate) fn find_object(&self, name: &Name) -> Option<&'a TypedName>
        ensures { option_copied result ≡ first_of (all_objects self.now) name.now }
    {
        find_object(self.files, name)
    }

    /// The position of the first schema of a name.
    pub(crate) fn schema_position(&self, name: &Name) -> Option<u32>
        ensures { result ≡ position (λ schema. bytes_eq schema.name name.now) self.now.domain.schemas }
    {
        self.files.schemas.find(name.bytes())
    }

    /// The names of the objects by their numbers.
    pub(crate) fn into_objects(self) -> Names
        ensures objects { result ≡ (meanings self.entry).objects }
        ensures few { length (meanings self.entry).objects < 2 ^ 32 }
        ensures few_predicates { length (meanings self.entry).predicates < 2 ^ 32 }
    {
        let Table {
            files: _,
            predicates: _,
            objects,
        } = self;
        let Numbers { names, numbers: _ } = objects;
        names
    }

    /// Does nothing: its contract says what each table keeps.
    pub(crate) fn is_well_named(&self)
        ensures { AreWellNamed self.now }
    {
        let _ = &self.files;
    }
}

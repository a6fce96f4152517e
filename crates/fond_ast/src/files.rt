//! Domains, problems and side lists as they are read.

ghost use Rattle.fond_ast.specs.Read.{has_one_kind, is_schema_with_choices, has_few_variables, condition_variables};
ghost use Rattle.fond_text.specs.declared.code.TheConstants.{LONGEST_TEXT};
ghost use Rattle.std.specs.List.{list_all};
ghost use Rattle.std.specs.Prelude.{◌≤◌, IsTrue, length};

use crate::names::{Kind, Kinds, ReadAtom, Terms, TypedNames};
use crate::syntax::{Cond, Effect};
use fond_text::list::List;
use fond_text::name::Name;
use fond_text::place::Place;

/// An action schema, at the place of its name. A missing precondition is the true condition, and a missing effect the empty one.
#[derive(Drop)]
pub struct Schema {
    pub place: Place,
    pub name: Name,
    pub parameters: TypedNames,
    pub pre: Cond,
    pub effect: Effect,
}

/// Action schemas, in order.
pub type Schemas = List<Schema>;

/// A declared predicate, at the place of its name.
#[derive(Drop)]
pub struct Declared {
    pub place: Place,
    pub name: Name,
    pub parameters: TypedNames,
}

/// Declared predicates, in order.
pub type DeclaredList = List<Declared>;

/// A domain, at the place of its root: its types, constants, predicates and schemas, each in the order of the text. By its
/// facts, each type and each constant has exactly one type, each `oneof` has a member, and there are no more types,
/// constants, predicates and schemas, and no more variables in any one schema, than a text may have bytes.
#[derive(Drop)]
pub struct Domain {
    pub place: Place,
    pub kinds: TypedNames,
    pub constants: TypedNames,
    pub predicates: DeclaredList,
    pub schemas: Schemas,
    pub ghost one_parent: { IsTrue (list_all has_one_kind kinds) },
    pub ghost one_kind: { IsTrue (list_all has_one_kind constants) },
    pub ghost choices: { IsTrue (list_all is_schema_with_choices schemas) },
    pub ghost few_kinds: { length kinds ≤ LONGEST_TEXT },
    pub ghost few_constants: { length constants ≤ LONGEST_TEXT },
    pub ghost few_predicates: { length predicates ≤ LONGEST_TEXT },
    pub ghost few_schemas: { length schemas ≤ LONGEST_TEXT },
    pub ghost few_variables: { IsTrue (list_all has_few_variables schemas) },
}

/// An atom of `:init`, which may be negated.
#[derive(Drop)]
pub struct InitAtom {
    pub positive: bool,
    pub atom: ReadAtom,
}

/// The atoms of `:init`, in order.
pub type InitAtoms = List<InitAtom>;

/// A problem, at the place of its root: its objects, each of exactly one type, its initial atoms and its goal. By its facts, it declares no more
/// objects, and no more variables in its goal, than a text may have bytes.
#[derive(Drop)]
pub struct Problem {
    pub place: Place,
    pub objects: TypedNames,
    pub init: InitAtoms,
    pub goal: Cond,
    pub ghost one_kind: { IsTrue (list_all has_one_kind objects) },
    pub ghost few_objects: { length objects ≤ LONGEST_TEXT },
    pub ghost few_variables: { condition_variables goal ≤ LONGEST_TEXT },
}

/// A pattern of unfair actions, at the place of its node: the name of a schema, and terms that stand for its parameters.
#[derive(Drop)]
pub struct Pattern {
    pub place: Place,
    pub schema: Kind,
    pub terms: Terms,
}

/// Patterns, in order.
pub type Patterns = List<Pattern>;

/// A side list: its leaves outside parentheses, which should be the names of unfair schemas, and its patterns, each in
/// the order of the text.
#[derive(Drop)]
pub struct Side {
    pub names: Kinds,
    pub patterns: Patterns,
}

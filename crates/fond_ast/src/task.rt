//! Tasks whose names are resolved to numbers.

ghost use Rattle.fond_ast.specs.Patterns.{are_patterns_within};
ghost use Rattle.fond_ast.specs.Within.{are_ranges_within, is_condition_within, is_initial_within, is_schema_fluent, is_schema_within};
ghost use Rattle.fond_text.specs.Lists.{are_distinct_texts};
ghost use Rattle.std.specs.List.{list_all};
ghost use Rattle.std.specs.Prelude.{◌<◌, ◌^◌, [], IsTrue, length, map};

use crate::form::{LCond, LEffect, LPatterns, Ranges};
use fond_text::atom::Atoms;
use fond_text::list::List;
use fond_text::name::{Name, Names};
use fond_text::place::Place;

/// A predicate with the ranges of its arguments. It is fluent if an effect of some schema has a literal of it.
#[derive(Drop)]
pub struct LPredicate {
    pub name: Name,
    pub ranges: Ranges,
    pub fluent: bool,
}

/// Predicates, in the order of their first declarations.
pub type LPredicates = List<LPredicate>;

/// An action schema at the place of its name, with the ranges of its parameters. It is unfair if a leaf of the side list
/// outside parentheses names it; the patterns of the side list that name it say which of its actions are unfair otherwise.
#[derive(Drop)]
pub struct LSchema {
    pub place: Place,
    pub name: Name,
    pub ranges: Ranges,
    pub pre: LCond,
    pub effect: LEffect,
    pub unfair: bool,
    pub patterns: LPatterns,
}

/// Action schemas, in the order of their declarations.
pub type LSchemas = List<LSchema>;

/// A task at the place of its domain: objects, predicates and schemas, the initial atoms, and the goal.
///
/// By its facts, there are fewer than 2^32 objects, predicates and schemas, and no two of one sort have the same name.
/// Every number names something, every range lists objects in rising order, every argument lies in the range of its
/// parameter, every literal of an effect has a fluent predicate, and every `OneOf` has a member. Around each term are
/// fewer than 2^32 variables. Every pattern has a term for each parameter of its schema, and its variables are numbered
/// by one of their positions.
#[derive(Drop)]
pub struct LiftedTask {
    pub place: Place,
    pub objects: Names,
    pub predicates: LPredicates,
    pub schemas: LSchemas,
    pub init: Atoms,
    pub goal: LCond,
    pub ghost few_objects: { length objects < 2 ^ 32 },
    pub ghost few_predicates: { length predicates < 2 ^ 32 },
    pub ghost few_schemas: { length schemas < 2 ^ 32 },
    pub ghost distinct_objects: { IsTrue (are_distinct_texts objects) },
    pub ghost distinct_predicates: { IsTrue (are_distinct_texts (map (λ predicate. predicate.name) predicates)) },
    pub ghost distinct_schemas: { IsTrue (are_distinct_texts (map (λ schema. schema.name) schemas)) },
    pub ghost predicates_within: { IsTrue (list_all (λ predicate. are_ranges_within (length objects) predicate.ranges) predicates) },
    pub ghost effects_fluent: { IsTrue (list_all (is_schema_fluent predicates) schemas) },
    pub ghost schemas_within: { IsTrue (list_all (is_schema_within (length objects) predicates) schemas) },
    pub ghost patterns_within: { IsTrue (list_all (are_patterns_within (length objects)) schemas) },
    pub ghost init_within: { IsTrue (list_all (is_initial_within predicates) init) },
    pub ghost goal_within: { IsTrue (is_condition_within (length objects) predicates goal []) },
}

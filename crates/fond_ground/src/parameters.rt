//! Which parameters of a schema occur in its precondition and in its effect. Actions whose objects agree on the parameters that
//! occur in the precondition have the same precondition, and so it is with the effect and the outcomes.

ghost use Rattle.fond_ast.specs.Laws.{has_variable};
ghost use Rattle.fond_ast.specs.Patterns.{is_variable};
ghost use Rattle.fond_ground.specs.Shares.{AddedWhere, AgreeWhere, AreMarked, has_effect_variable};
ghost use Rattle.std.specs.List.{list_any};
ghost use Rattle.std.specs.Prelude.{◌≡◌, ℕ, Bool, true, map, IfOk};

use fond_ast::form::{LCond, LEffect, LTerm};
use fond_ast::task::LSchema;
use fond_text::fault::NoMemory;
use std::alloc::Global;

/// A schema, and a mark for each of its parameters that occurs in its precondition, and for each that occurs in its effect.
#[derive(Drop)]
pub(crate) struct Parameters<'a> {
    pub(crate) schema: &'a LSchema,
    pub(crate) pre: Vec<bool>,
    pub(crate) effect: Vec<bool>,
    ghost pre_marked: { AreMarked (λ number. has_variable number schema.now.pre) pre.items },
    ghost effect_marked: { AreMarked (λ number. has_effect_variable number schema.now.effect) effect.items },
}

/// Marks a term, if it is a variable that has a mark.
fn mark_term(term: LTerm, marks: &mut [bool])
    ensures { AddedWhere (λ number. is_variable number term) marks.old marks.new }
{
    if let LTerm::Variable(number) = term {
        let number = number as usize;
        if number < marks.len() {
            marks[number] = true;
        }
    }
}

/// Marks the variables among terms.
fn mark_terms(terms: &[LTerm], marks: &mut [bool])
    ensures { AddedWhere (λ number. list_any (is_variable number) terms.now) marks.old marks.new }
{
    for term in terms {
        mark_term(*term, marks);
    }
}

/// Marks the variables of a condition. Takes time in its size.
#[cycle(marking)]
fn mark_condition(condition: &LCond, marks: &mut [bool])
    ensures { AddedWhere (λ number. has_variable number condition.now) marks.old marks.new }
{
    match condition {
        LCond::Truth => {}
        LCond::Holds(atom) => mark_terms(atom.terms.as_slice(), marks),
        LCond::Equal(term, other) => {
            mark_term(*term, marks);
            mark_term(*other, marks);
        }
        LCond::And(parts) => mark_conditions(parts, marks),
        LCond::Or(parts) => mark_conditions(parts, marks),
        LCond::Not(part) => mark_condition(part, marks),
        LCond::Imply(part, other) => {
            mark_condition(part, marks);
            mark_condition(other, marks);
        }
        LCond::Forall(_, part) => mark_condition(part, marks),
        LCond::Exists(_, part) => mark_condition(part, marks),
    }
}

/// Marks the variables of conditions.
#[cycle(marking)]
fn mark_conditions(parts: &[LCond], marks: &mut [bool])
    ensures { AddedWhere (λ number. list_any (λ found. found) (map (has_variable number) parts.now)) marks.old marks.new }
{
    for part in parts {
        mark_condition(part, marks);
    }
}

/// Marks the variables of an effect. Takes time in its size.
#[cycle(marking_effects)]
fn mark_effect(effect: &LEffect, marks: &mut [bool])
    ensures { AddedWhere (λ number. has_effect_variable number effect.now) marks.old marks.new }
{
    match effect {
        LEffect::Nothing => {}
        LEffect::Add(atom) => mark_terms(atom.terms.as_slice(), marks),
        LEffect::Delete(atom) => mark_terms(atom.terms.as_slice(), marks),
        LEffect::And(parts) => mark_effects(parts, marks),
        LEffect::Forall(_, part) => mark_effect(part, marks),
        LEffect::When(condition, part) => {
            mark_condition(condition, marks);
            mark_effect(part, marks);
        }
        LEffect::OneOf(parts) => mark_effects(parts, marks),
    }
}

/// Marks the variables of effects.
#[cycle(marking_effects)]
fn mark_effects(parts: &[LEffect], marks: &mut [bool])
    ensures { AddedWhere (λ number. list_any (λ found. found) (map (has_effect_variable number) parts.now)) marks.old marks.new }
{
    for part in parts {
        mark_effect(part, marks);
    }
}

impl<'a> Parameters<'a> {
    /// The parameters of a schema that occur in its precondition and in its effect.
    pub(crate) fn of(alloc: Global, schema: &'a LSchema) -> Result<Parameters<'a>, NoMemory>
        ensures { IfOk result (λ parameters. parameters.schema.now ≡ schema.now) }
    {
        let mut pre = vec![in alloc; false; schema.ranges.len()]?;
        let mut effect = vec![in alloc; false; schema.ranges.len()]?;
        mark_condition(&schema.pre, &mut pre);
        mark_effect(&schema.effect, &mut effect);
        Ok(Parameters {
            schema,
            pre,
            effect,
        })
    }
}

/// Whether two lists of objects agree on the marked parameters.
pub(crate) fn agree(marks: &[bool], objects: &[u32], others: &[u32]) -> bool
    ensures { result ≡ true → (test : ℕ → Bool) → AreMarked test marks.now → AgreeWhere test objects.now others.now }
{
    if objects.len() != others.len() {
        return false;
    }
    for i in 0..objects.len() {
        let is_marked = i >= marks.len() || marks[i];
        if is_marked && objects[i] != others[i] {
            return false;
        }
    }
    true
}

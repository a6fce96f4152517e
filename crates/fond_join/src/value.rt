//! The value of a condition while some variables around it have no object yet. An atom or an equality with an unknown
//! object is Unknown, and so is a fluent atom. A value other than Unknown stays the same whatever the unknown objects are.

ghost use Rattle.fond_ast.specs.Ranges.{objects_of};
ghost use Rattle.fond_ast.specs.Within.{is_fluent as is_fluent_predicate};
ghost use Rattle.fond_join.specs.Partial.{all_known, known_object, partial_atom, partial_equal, partial_value};
ghost use Rattle.fond_ast.specs.Conditions.{tuples};
ghost use Rattle.fond_task.specs.Junctions.{joined, joined_all};
ghost use Rattle.fond_task.specs.declared.form.Kleene.{Kleene};
ghost use Rattle.std.specs.Prelude.{◌≡◌, ◌++◌, List, Some, None, true, map, fold, if◌then◌else◌, IfOk, OnOk};

use crate::facts::Facts;
use crate::fixed::{fixed_value, over};
use crate::variables::has_variables;
use fond_ast::form::{LAtom, LCond, LTerm, Range};
use fond_task::form::{Junction, Kleene};
use fond_text::fault::NoMemory;

/// The objects of the variables around a condition as far as they are known, the outermost first, and room for the
/// objects of one atom.
#[derive(Drop)]
pub(crate) struct Scope {
    pub env: Vec<Option<u32>>,
    pub key: Vec<u32>,
}

/// Whether no further part changes a joined value: No decides a conjunction, and Yes a disjunction.
fn is_decided(junction: Junction, value: Kleene) -> bool
    ensures { result ≡ true → (values : List Kleene) → fold (joined junction) value values ≡ value }
{
    value == junction.dual().neutral()
}

/// The object of a term, if it is known.
pub(crate) fn object_of(scope: &Scope, term: LTerm) -> Option<u32>
    ensures { result ≡ known_object scope.now.env.items term }
{
    match term {
        LTerm::Object(number) => Some(number),
        LTerm::Variable(number) => match scope.env.get(number as usize) {
            None => Some(0),
            Some(object) => *object,
        },
    }
}

/// Whether a predicate is fluent.
pub(crate) fn is_fluent(facts: &Facts, predicate: u32) -> bool
    ensures { result ≡ is_fluent_predicate facts.now.task.now.predicates predicate }
{
    let predicates = &facts.task.predicates;
    (predicate as usize) < predicates.len() && predicates.get(predicate as usize).fluent
}

/// Puts the objects of terms into the room for them, and returns whether all of them are known.
fn put_objects(scope: &mut Scope, terms: &[LTerm]) -> Result<bool, NoMemory>
    ensures known { IfOk result (λ known. all_known (map (known_object scope.old.env.items) terms.now) ≡ (if known then Some scope.new.key.items else None)) }
    ensures same { scope.new.env.items ≡ scope.old.env.items }
{
    scope.key.clear();
    for term in terms {
        match object_of(scope, *term) {
            None => return Ok(false),
            Some(object) => scope.key.push(object)?,
        }
    }
    Ok(true)
}

/// The value of an atom.
fn atom_value(facts: &Facts, scope: &mut Scope, atom: &LAtom) -> Result<Kleene, NoMemory>
    ensures value { IfOk result (λ value. value ≡ partial_atom facts.now.task.now scope.old.env.items atom.now) }
    ensures same { scope.new.env.items ≡ scope.old.env.items }
{
    if is_fluent(facts, atom.predicate) || !put_objects(scope, atom.terms.as_slice())? {
        return Ok(Kleene::Unknown);
    }
    Ok(Kleene::of(facts.contains(atom.predicate, &scope.key)))
}

/// The value of an equality of these objects.
fn equal_value(object: Option<u32>, other: Option<u32>) -> Kleene
    ensures { result ≡ partial_equal object other }
{
    match (object, other) {
        (Some(object), Some(other)) => Kleene::of(object == other),
        _ => Kleene::Unknown,
    }
}

/// The value of a condition. Takes no memory apart from the room that the objects need, and stops at the first part that
/// decides.
#[cycle(evaluating)]
pub(crate) fn value(facts: &Facts, scope: &mut Scope, condition: &LCond) -> Result<Kleene, NoMemory>
    ensures value { IfOk result (λ value. value ≡ partial_value facts.now.task.now scope.old.env.items condition.now) }
    ensures same { OnOk result (scope.new.env.items ≡ scope.old.env.items) }
{
    match condition {
        LCond::Truth => Ok(Kleene::Yes),
        LCond::Holds(atom) => atom_value(facts, scope, atom),
        LCond::Equal(term, other) => {
            Ok(equal_value(object_of(scope, *term), object_of(scope, *other)))
        }
        LCond::And(parts) => parts_value(facts, scope, parts, Junction::All),
        LCond::Or(parts) => parts_value(facts, scope, parts, Junction::Any),
        LCond::Not(part) => Ok(value(facts, scope, part)?.opposite()),
        LCond::Imply(part, other) => {
            let first = value(facts, scope, part)?.opposite();
            Ok(first.greater(value(facts, scope, other)?))
        }
        LCond::Forall(ranges, part) => {
            quantified_value(facts, scope, ranges.as_slice(), part, Junction::All)
        }
        LCond::Exists(ranges, part) => {
            quantified_value(facts, scope, ranges.as_slice(), part, Junction::Any)
        }
    }
}

/// The value of the junction of some conditions.
#[cycle(evaluating)]
fn parts_value(
    facts: &Facts,
    scope: &mut Scope,
    parts: &[LCond],
    junction: Junction,
) -> Result<Kleene, NoMemory>
    ensures value { IfOk result (λ value. value ≡ joined_all junction (map (partial_value facts.now.task.now scope.old.env.items) parts.now)) }
    ensures same { OnOk result (scope.new.env.items ≡ scope.old.env.items) }
{
    let mut all = junction.neutral();
    for part in parts {
        all = junction.joined(all, value(facts, scope, part)?);
        if is_decided(junction, all) {
            return Ok(all);
        }
    }
    Ok(all)
}

/// The value of the junction of a condition over the lists of objects of some ranges. If the value of the condition follows
/// from its form, it is not looked at for each list.
#[cycle(evaluating)]
fn quantified_value(
    facts: &Facts,
    scope: &mut Scope,
    ranges: &[Range],
    part: &LCond,
    junction: Junction,
) -> Result<Kleene, NoMemory>
    ensures value { IfOk result (λ value. value ≡ joined_all junction (map (λ objects. partial_value facts.now.task.now (scope.old.env.items ++ map Some objects) part.now) (tuples (objects_of ranges.now)))) }
    ensures same { OnOk result (scope.new.env.items ≡ scope.old.env.items) }
{
    match fixed_value(&[], part) {
        Kleene::Unknown => range_value(facts, scope, ranges, part, junction),
        fixed => Ok(over(ranges, junction, fixed)),
    }
}

/// The value of the junction of a condition over the lists of objects of some ranges, list by list. Of the objects of a
/// variable that does not occur in the condition, the first one decides.
#[cycle(evaluating)]
fn range_value(
    facts: &Facts,
    scope: &mut Scope,
    ranges: &[Range],
    part: &LCond,
    junction: Junction,
) -> Result<Kleene, NoMemory>
    ensures value { IfOk result (λ value. value ≡ joined_all junction (map (λ objects. partial_value facts.now.task.now (scope.old.env.items ++ map Some objects) part.now) (tuples (objects_of ranges.now)))) }
    ensures same { OnOk result (scope.new.env.items ≡ scope.old.env.items) }
{
    match ranges {
        [] => value(facts, scope, part),
        [range, rest @ ..] => {
            let number = scope.env.len();
            let varies = has_variables(part, number, number + 1);
            let mut all = junction.neutral();
            for object in range.as_slice() {
                scope.env.push(Some(*object))?;
                let one = range_value(facts, scope, rest, part, junction)?;
                scope.env.pop();
                all = junction.joined(all, one);
                if is_decided(junction, all) {
                    return Ok(all);
                }
                if !varies {
                    return Ok(all);
                }
            }
            Ok(all)
        }
    }
}

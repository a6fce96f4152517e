//! Ground conditions, in negation normal form: only literals are negated, and a quantifier is the conjunction or the
//! disjunction over the lists of objects of its ranges. Equalities and static atoms are constants, and constants are
//! folded.

ghost use Rattle.fond_ast.specs.Ranges.{objects_of};
ghost use Rattle.fond_ground.specs.Atoms.{fluent_atoms};
ghost use Rattle.fond_ground.specs.Signs.{signed, signed_junction};
ghost use Rattle.fond_ground.specs.Values.{atom_value, StandsFor};
ghost use Rattle.fond_join.specs.Values.{condition_value};
ghost use Rattle.fond_ast.specs.Conditions.{ground_atom, tuples};
ghost use Rattle.fond_task.specs.Junctions.{joined_all};
ghost use Rattle.fond_task.specs.Values.{value};
ghost use Rattle.fond_task.specs.Within.{is_form_within};
ghost use Rattle.fond_task.specs.declared.form.Kleene.{Kleene};
ghost use Rattle.fond_text.specs.declared.atom.Atom.{Atom};
ghost use Rattle.std.specs.Prelude.{◌≡◌, ◌+◌, ◌++◌, ℕ, List, Bool, Option, true, map, length, IfOk, OnOk};

use crate::junction::{JunctionForm, junction_of};
use crate::table::{Table, ground_numbers, object};
use crate::tuples::Tuples;
use fond_ast::form::{LAtom, LCond, Range};
use fond_join::fixed::fixed_value;
use fond_join::variables::has_variables;
use fond_task::form::{Form, Junction, Kleene};
use fond_text::fault::NoMemory;
use std::alloc::Global;

/// An atom, or its negation if the sign is false. A static atom is constant.
fn literal_form(
    alloc: Global,
    table: &Table,
    atom: &LAtom,
    env: &[u32],
    sign: bool,
) -> Result<Form, NoMemory>
    ensures within { IfOk result (λ form. is_form_within (length (fluent_atoms table.now.facts.task.now)) form ≡ true) }
    ensures value { IfOk result (λ form. (cube : List (Option Bool)) → value cube form ≡ signed sign (atom_value table.now.facts.task.now cube (ground_atom env.now atom.now))) }
{
    let numbers = ground_numbers(alloc, atom, env)?;
    match table.number(&numbers) {
        Some(number) => Ok(Form::Lit(number, sign)),
        None => {
            let is_initial = table.facts.contains(atom.predicate, &numbers[1..]);
            Ok(Form::Truth(is_initial == sign))
        }
    }
}

/// A junction, or its dual if the sign is false.
fn signed_junction(sign: bool, junction: Junction) -> Junction
    ensures { result ≡ signed_junction sign junction }
{
    if sign { junction } else { junction.dual() }
}

/// A condition, or its negation if the sign is false. A false sign turns a conjunction into the disjunction of the
/// negated parts.
#[cycle(forming)]
fn signed_form(
    alloc: Global,
    table: &Table,
    condition: &LCond,
    env: &mut Vec<u32>,
    sign: bool,
) -> Result<Form, NoMemory>
    ensures within { IfOk result (λ form. is_form_within (length (fluent_atoms table.now.facts.task.now)) form ≡ true) }
    ensures value { IfOk result (λ form. (cube : List (Option Bool)) → value cube form ≡ signed sign (condition_value (atom_value table.now.facts.task.now cube) env.old.items condition.now)) }
    ensures env { OnOk result (env.new.items ≡ env.old.items) }
{
    match condition {
        LCond::Truth => Ok(Form::Truth(sign)),
        LCond::Holds(atom) => literal_form(alloc, table, atom, env, sign),
        LCond::Equal(term, other) => {
            let is_same = object(*term, env) == object(*other, env);
            Ok(Form::Truth(is_same == sign))
        }
        LCond::And(members) => {
            let junction = signed_junction(sign, Junction::All);
            members_form(alloc, table, members, env, sign, junction)
        }
        LCond::Or(members) => {
            let junction = signed_junction(sign, Junction::Any);
            members_form(alloc, table, members, env, sign, junction)
        }
        LCond::Not(part) => signed_form(alloc, table, part, env, !sign),
        LCond::Imply(part, other) => {
            let first = signed_form(alloc, table, part, env, !sign)?;
            let second = signed_form(alloc, table, other, env, sign)?;
            junction_of(alloc, first, second, signed_junction(sign, Junction::Any))
        }
        LCond::Forall(ranges, part) => {
            let junction = signed_junction(sign, Junction::All);
            instances_form(alloc, table, ranges.as_slice(), part, env, sign, junction)
        }
        LCond::Exists(ranges, part) => {
            let junction = signed_junction(sign, Junction::Any);
            instances_form(alloc, table, ranges.as_slice(), part, env, sign, junction)
        }
    }
}

/// The junction of the members, each with this sign.
#[cycle(forming)]
fn members_form(
    alloc: Global,
    table: &Table,
    members: &[LCond],
    env: &mut Vec<u32>,
    sign: bool,
    junction: Junction,
) -> Result<Form, NoMemory>
    ensures within { IfOk result (λ form. is_form_within (length (fluent_atoms table.now.facts.task.now)) form ≡ true) }
    ensures value { IfOk result (λ form. (cube : List (Option Bool)) → value cube form
        ≡ joined_all junction (map (λ member. signed sign (condition_value (atom_value table.now.facts.task.now cube) env.old.items member)) members.now)) }
    ensures env { OnOk result (env.new.items ≡ env.old.items) }
{
    let mut whole = JunctionForm::new(alloc, junction);
    for member in members {
        if whole.is_decided() {
            return Ok(whole.form());
        }
        whole.add(signed_form(alloc, table, member, env, sign)?)?;
    }
    Ok(whole.form())
}

/// Whether a condition has the same value for all objects of the variables with numbers from `start` on and below `end`: its
/// form decides it, or none of them occurs in it. Takes time in the size of the condition, and no memory.
fn is_alike(part: &LCond, start: usize, end: usize) -> bool
    ensures { result ≡ true → (known : Atom → Kleene) (env objects others : List ℕ) → length env ≡ start → length env + length objects ≡ end → length objects ≡ length others
        → condition_value known (env ++ objects) part.now ≡ condition_value known (env ++ others) part.now }
{
    match fixed_value(&[], part) {
        Kleene::No | Kleene::Yes => true,
        Kleene::Unknown => !has_variables(part, start, end),
    }
}

/// The junction of the part, with this sign, over the lists of objects of the ranges. If the part is the same for all of
/// them, it is ground for the first one only.
#[cycle(forming)]
fn instances_form(
    alloc: Global,
    table: &Table,
    ranges: &[Range],
    part: &LCond,
    env: &mut Vec<u32>,
    sign: bool,
    junction: Junction,
) -> Result<Form, NoMemory>
    ensures within { IfOk result (λ form. is_form_within (length (fluent_atoms table.now.facts.task.now)) form ≡ true) }
    ensures value { IfOk result (λ form. (cube : List (Option Bool)) → value cube form
        ≡ joined_all junction (map (λ objects. signed sign (condition_value (atom_value table.now.facts.task.now cube) (env.old.items ++ objects) part.now)) (tuples (objects_of ranges.now)))) }
    ensures env { OnOk result (env.new.items ≡ env.old.items) }
{
    let around = env.len();
    let alike = is_alike(part, around, around + ranges.len());
    let mut whole = JunctionForm::new(alloc, junction);
    let mut tuples = Tuples::of(alloc, ranges)?;
    while !tuples.is_done() {
        if whole.is_decided() {
            return Ok(whole.form());
        }
        tuples.put_next(env)?;
        whole.add(signed_form(alloc, table, part, env, sign)?)?;
        env.truncate(around);
        if alike {
            return Ok(whole.form());
        }
    }
    Ok(whole.form())
}

/// The ground condition of a condition, where these are the objects of the variables around it. Takes time in the size of
/// the condition written out over the lists of objects of those of its quantifiers whose variables occur in their part, and
/// memory in the size of the result.
pub(crate) fn form_of(
    alloc: Global,
    table: &Table,
    condition: &LCond,
    env: &mut Vec<u32>,
) -> Result<Form, NoMemory>
    ensures within { IfOk result (λ form. is_form_within (length (fluent_atoms table.now.facts.task.now)) form ≡ true) }
    ensures value { IfOk result (StandsFor table.now.facts.task.now env.old.items condition.now) }
    ensures env { OnOk result (env.new.items ≡ env.old.items) }
{
    signed_form(alloc, table, condition, env, true)
}

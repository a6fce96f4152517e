//! Ground effects. A quantified effect is the conjunction over the lists of objects of its ranges, and the conditions of
//! conditional effects are ground conditions.

ghost use Rattle.fond_ast.specs.Ranges.{objects_of};
ghost use Rattle.fond_ast.specs.declared.form.LCond.{LCond};
ghost use Rattle.fond_ast.specs.declared.task.LiftedTask.{LiftedTask};
ghost use Rattle.fond_ground.specs.Atoms.{atom_number, fluent_atoms};
ghost use Rattle.fond_ground.specs.Effects.{is_numbered, numbered_by, HasOutcomes, HaveOutcomes};
ghost use Rattle.fond_ground.specs.Values.{StandsFor};
ghost use Rattle.fond_ast.specs.Conditions.{ground_atom, tuples};
ghost use Rattle.fond_ast.specs.Outcomes.{alone, guarded, Literal, outcomes};
ghost use Rattle.fond_task.specs.Values.{value};
ghost use Rattle.fond_task.specs.Within.{is_form_within};
ghost use Rattle.fond_task.specs.declared.form.Kleene.TheVariants.{Yes};
ghost use Rattle.std.specs.List.{list_all};
ghost use Rattle.std.specs.Prelude.{◌≡◌, ◌++◌, [], ◌∷◌, ℕ, length, List, Option, Bool, is_some, map, true, IfOk, OnOk};

use crate::forms::form_of;
use crate::table::{Table, ground_numbers};
use crate::tuples::Tuples;
use fond_ast::form::{LAtom, LEffect, Range};
use fond_oneof::effect::{GroundEffect, GroundEffects};
use fond_task::form::Form;
use fond_text::fault::NoMemory;
use std::alloc::Global;

/// A literal, whose atom is fluent.
fn ground_literal(
    alloc: Global,
    table: &Table,
    atom: &LAtom,
    env: &[u32],
    add: bool,
) -> Result<GroundEffect, NoMemory>
    requires { is_some (atom_number table.now.facts.task.now (ground_atom env.now atom.now)) ≡ true }
    ensures { IfOk result (HasOutcomes table.now.facts.task.now (alone (ground_atom env.now atom.now) add)) }
{
    match table.number(&ground_numbers(alloc, atom, env)?) {
        Some(number) => Ok(GroundEffect::Literal(number, add)),
        None => unreachable!(),
    }
}

/// Whether a condition is the constant that is always true.
fn is_always(condition: &Form) -> bool
    ensures { result ≡ true → (cube : List (Option Bool)) → value cube condition.now ≡ Yes }
{
    matches!(condition, Form::Truth(true))
}

/// An effect under a condition. A condition that is always true is left out.
fn conditional(alloc: Global, form: Form, effect: GroundEffect) -> Result<GroundEffect, NoMemory>
    ensures { IfOk result (λ under. (task : LiftedTask) (env : List ℕ) (condition : LCond) (lists : List (List Literal)) → StandsFor task env condition form → is_form_within (length (fluent_atoms task)) form ≡ true
        → HasOutcomes task lists effect → HasOutcomes task (map (map (guarded (record { env = env; condition = condition }))) lists) under) }
{
    if is_always(&form) {
        return Ok(effect);
    }
    Ok(GroundEffect::When(form, Box::new(alloc, effect)?))
}

/// Whether no literal and no choice occurs in an effect, so that its one outcome is empty whatever the objects are. Takes
/// time in the size of the effect, and no memory.
fn is_empty(effect: &LEffect) -> bool
    ensures { result ≡ true → (env : List ℕ) → outcomes env effect.now ≡ [] ∷ [] }
{
    match effect {
        LEffect::Nothing => true,
        LEffect::Add(_) | LEffect::Delete(_) | LEffect::OneOf(_) => false,
        LEffect::And(members) => {
            for member in members {
                if !is_empty(member) {
                    return false;
                }
            }
            true
        }
        LEffect::Forall(_, part) => is_empty(part),
        LEffect::When(_, part) => is_empty(part),
    }
}

/// The ground effect of an effect, where these are the objects of the variables around it. Takes time and memory in the
/// size of the effect written out over all lists of objects, apart from quantified effects without a literal.
#[cycle(grounding)]
pub(crate) fn ground_effect(
    alloc: Global,
    table: &Table,
    effect: &LEffect,
    env: &mut Vec<u32>,
) -> Result<GroundEffect, NoMemory>
    requires numbered { is_numbered table.now.facts.task.now env.old.items effect.now ≡ true }
    ensures effect { IfOk result (HasOutcomes table.now.facts.task.now (outcomes env.old.items effect.now)) }
    ensures env { OnOk result (env.new.items ≡ env.old.items) }
{
    match effect {
        LEffect::Nothing => Ok(GroundEffect::And(Vec::new(alloc))),
        LEffect::Add(atom) => ground_literal(alloc, table, atom, env, true),
        LEffect::Delete(atom) => ground_literal(alloc, table, atom, env, false),
        LEffect::And(members) => {
            let parts = ground_members(alloc, table, members, env)?;
            Ok(GroundEffect::And(parts))
        }
        LEffect::OneOf(members) => {
            let parts = ground_members(alloc, table, members, env)?;
            Ok(GroundEffect::OneOf(parts))
        }
        LEffect::Forall(ranges, part) => {
            if is_empty(part) {
                return Ok(GroundEffect::And(Vec::new(alloc)));
            }
            let parts = ground_instances(alloc, table, ranges.as_slice(), part, env)?;
            Ok(GroundEffect::And(parts))
        }
        LEffect::When(condition, part) => {
            let form = form_of(alloc, table, condition, env)?;
            let effect = ground_effect(alloc, table, part, env)?;
            conditional(alloc, form, effect)
        }
    }
}

/// The ground effects of effects, in order.
#[cycle(grounding)]
fn ground_members(
    alloc: Global,
    table: &Table,
    members: &[LEffect],
    env: &mut Vec<u32>,
) -> Result<GroundEffects, NoMemory>
    requires numbered { list_all (λ member. member env.old.items) (map (numbered_by table.now.facts.task.now) members.now) ≡ true }
    ensures effects { IfOk result (λ effects. HaveOutcomes table.now.facts.task.now (map (outcomes env.old.items) members.now) effects.items) }
    ensures env { OnOk result (env.new.items ≡ env.old.items) }
{
    let mut effects = Vec::with_capacity(alloc, members.len())?;
    for member in members {
        effects.push(ground_effect(alloc, table, member, env)?)?;
    }
    Ok(effects)
}

/// The ground effects of an effect for each list of objects of some ranges, in order.
#[cycle(grounding)]
fn ground_instances(
    alloc: Global,
    table: &Table,
    ranges: &[Range],
    part: &LEffect,
    env: &mut Vec<u32>,
) -> Result<GroundEffects, NoMemory>
    requires numbered { list_all (λ objects. is_numbered table.now.facts.task.now (env.old.items ++ objects) part.now) (tuples (objects_of ranges.now)) ≡ true }
    ensures effects { IfOk result (λ effects. HaveOutcomes table.now.facts.task.now (map (λ objects. outcomes (env.old.items ++ objects) part.now) (tuples (objects_of ranges.now))) effects.items) }
    ensures env { OnOk result (env.new.items ≡ env.old.items) }
{
    let around = env.len();
    let mut effects = Vec::new(alloc);
    let mut tuples = Tuples::of(alloc, ranges)?;
    while !tuples.is_done() {
        tuples.put_next(env)?;
        effects.push(ground_effect(alloc, table, part, env)?)?;
        env.truncate(around);
    }
    Ok(effects)
}

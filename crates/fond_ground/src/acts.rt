//! The actions of the ground task. The kept lists of objects of all schemas are found before any action is grounded, since
//! a task that is too large is refused first.

ghost use Rattle.fond_ast.specs.declared.task.LSchema.{LSchema};
ghost use Rattle.fond_ground.specs.Atoms.{fluent_atoms};
ghost use Rattle.fond_ground.specs.Effects.{is_numbered};
ghost use Rattle.fond_ground.specs.Faults.{at_domain};
ghost use Rattle.fond_ground.specs.Grounds.{AreOutcomesOf as AreGroundOutcomes, kept_actions, IsActOf};
ghost use Rattle.fond_ground.specs.Limits.{has_few, has_few_outcomes, IsFirstMany};
ghost use Rattle.fond_ground.specs.Shares.{IsGroundBy};
ghost use Rattle.fond_ground.specs.Values.{StandsFor};
ghost use Rattle.fond_join.specs.Kept.{kept_args};
ghost use Rattle.fond_ast.specs.Outcomes.{outcomes as outcomes_by};
ghost use Rattle.fond_ast.specs.Patterns.{IsUnfairWith};
ghost use Rattle.fond_oneof.specs.Outcomes.{outcome_lists, AreOutcomesOf};
ghost use Rattle.fond_oneof.specs.Within.{has_members, is_effect_over};
ghost use Rattle.fond_task.specs.Within.{is_act_within, is_entry_within, is_form_within};
ghost use Rattle.fond_task.specs.declared.task.Act.{Act};
ghost use Rattle.fond_text.specs.Faults.{Refuses};
ghost use Rattle.fond_text.specs.Lists.{Somewhere};
ghost use Rattle.fond_text.specs.declared.code.TheConstants.{MOST_ACTIONS, MOST_OUTCOMES, TOO_MANY_OUTCOMES};
ghost use Rattle.std.specs.Bool.{Decides};
ghost use Rattle.std.specs.List.{list_all, AllZip};
ghost use Rattle.std.specs.Prelude.{◌≡◌, ◌<◌, ◌≤◌, ◌-◌, ◌++◌, ℕ, List, true, false, map, length, nat_le, nat_lt, slice_get, Some, Contains, IfOk, IfErr, IfSome, OnOk, MatchOption};

use crate::effects::ground_effect;
use crate::forms::form_of;
use crate::parameters::{Parameters, agree};
use crate::patterns::{Patterns, is_unfair};
use crate::table::Table;
use fond_ast::task::LSchema;
use fond_join::matching::{ArgsList, matches_within};
use fond_oneof::effect::GroundEffect;
use fond_oneof::outcome::{OneofFault, outcomes};
use fond_task::form::Form;
use fond_task::shared::Shared;
use fond_task::task::{Act, Acts, Outcomes};
use fond_text::atom::{GroundAction, Objects};
use fond_text::code::{MOST_ACTIONS, TOO_MANY_OUTCOMES};
use fond_text::fault::{Fault, FrontError, NoMemory};
use fond_text::place::{FileKind, Place};
use std::alloc::Global;

/// The argument lists of the kept actions of each schema, or none if there are more than [`MOST_ACTIONS`] of them. Of a
/// schema, no more lists are looked for than are left of that number.
pub(crate) fn kept_lists(alloc: Global, table: &Table) -> Result<Option<Vec<ArgsList>>, NoMemory>
    ensures { IfOk result (λ found. MatchOption found (MOST_ACTIONS < length (kept_actions table.now.facts.task.now))
        (λ lists. (lists.items ≡ map (kept_args table.now.facts.task.now) table.now.facts.task.now.schemas) × (length (kept_actions table.now.facts.task.now) ≤ MOST_ACTIONS))) }
{
    let schemas = &table.facts.task.schemas;
    let mut lists = Vec::with_capacity(alloc, schemas.len())?;
    let mut most = MOST_ACTIONS;
    for i in 0..schemas.len() {
        match matches_within(alloc, &table.facts, i as u32, most)? {
            None => return Ok(None),
            Some(kept) => {
                most -= kept.len();
                lists.push(kept)?;
            }
        }
    }
    Ok(Some(lists))
}

/// The outcomes of a ground effect.
fn outcomes_of(alloc: Global, effect: &GroundEffect) -> Result<Outcomes, NoMemory>
    requires members { has_members effect.now ≡ true }
    requires few { length (outcome_lists effect.now) ≤ MOST_OUTCOMES }
    ensures listed { IfOk result (AreOutcomesOf (outcome_lists effect.now)) }
    ensures few { IfOk result (λ all. length all ≤ MOST_OUTCOMES) }
    ensures some { IfOk result (λ all. 0 < length all) }
    ensures within { (atoms : ℕ) → is_effect_over atoms effect.now ≡ true → IfOk result (λ all. list_all (list_all (is_entry_within atoms)) all ≡ true) }
{
    match outcomes(alloc, effect) {
        Ok(all) => Ok(all),
        Err(OneofFault::TooMany(_)) => unreachable!(),
        Err(OneofFault::NoMemory) => Err(NoMemory),
    }
}

/// The precondition of the action with these objects: that of another action of the schema, if both have the same objects for
/// the parameters that occur in it.
fn pre_of(
    alloc: Global,
    table: &Table,
    parameters: &Parameters,
    env: &mut Vec<u32>,
    other: Option<&Act>,
) -> Result<Shared<Form>, NoMemory>
    requires { IfSome other (λ act. IsGroundBy table.now.facts.task.now parameters.now.schema.now act.now) }
    ensures within { IfOk result (λ pre. is_form_within (length (fluent_atoms table.now.facts.task.now)) pre ≡ true) }
    ensures value { IfOk result (StandsFor table.now.facts.task.now env.old.items parameters.now.schema.now.pre) }
    ensures env { OnOk result (env.new.items ≡ env.old.items) }
{
    if let Some(act) = other {
        if agree(&parameters.pre, env, act.ground.objects.as_slice()) {
            return act.pre.share();
        }
    }
    Shared::new(alloc, form_of(alloc, table, &parameters.schema.pre, env)?)
}

/// The outcomes of the action with these objects: those of another action of the schema, if both have the same objects for the
/// parameters that occur in its effect.
fn effects_of(
    alloc: Global,
    table: &Table,
    parameters: &Parameters,
    env: &mut Vec<u32>,
    other: Option<&Act>,
) -> Result<Shared<Outcomes>, NoMemory>
    requires other { IfSome other (λ act. IsGroundBy table.now.facts.task.now parameters.now.schema.now act.now) }
    requires numbered { is_numbered table.now.facts.task.now env.old.items parameters.now.schema.now.effect ≡ true }
    requires few { has_few parameters.now.schema.now.effect env.old.items ≡ true }
    ensures listed { IfOk result (AreGroundOutcomes table.now.facts.task.now (outcomes_by env.old.items parameters.now.schema.now.effect)) }
    ensures few { IfOk result (λ all. nat_le (length all) MOST_OUTCOMES ≡ true) }
    ensures some { IfOk result (λ all. nat_lt 0 (length all) ≡ true) }
    ensures within { IfOk result (λ all. list_all (list_all (is_entry_within (length (fluent_atoms table.now.facts.task.now)))) all ≡ true) }
    ensures env { OnOk result (env.new.items ≡ env.old.items) }
{
    if let Some(act) = other {
        if agree(&parameters.effect, env, act.ground.objects.as_slice()) {
            return act.outcomes.share();
        }
    }
    let effect = ground_effect(alloc, table, &parameters.schema.effect, env)?;
    Shared::new(alloc, outcomes_of(alloc, &effect)?)
}

/// The action of a schema with these objects, which is unfair or not. It may share what it has with another action of the schema.
fn act_of(
    alloc: Global,
    table: &Table,
    number: u32,
    parameters: &Parameters,
    objects: &Objects,
    unfair: bool,
    other: Option<&Act>,
) -> Result<Act, NoMemory>
    requires there { slice_get table.now.facts.task.now.schemas number ≡ Some parameters.now.schema.now }
    requires numbered { is_numbered table.now.facts.task.now objects.now parameters.now.schema.now.effect ≡ true }
    requires unfair { Decides unfair (IsUnfairWith parameters.now.schema.now objects.now) }
    requires few { has_few parameters.now.schema.now.effect objects.now ≡ true }
    requires other { IfSome other (λ act. IsGroundBy table.now.facts.task.now parameters.now.schema.now act.now) }
    ensures act { IfOk result (IsActOf table.now.facts.task.now (record { schema = number; objects = objects.now })) }
    ensures ground { IfOk result (IsGroundBy table.now.facts.task.now parameters.now.schema.now) }
{
    let mut env = Vec::from_slice(alloc, objects.as_slice())?;
    let pre = pre_of(alloc, table, parameters, &mut env, other)?;
    let outcomes = effects_of(alloc, table, parameters, &mut env, other)?;
    Ok(Act {
        ground: GroundAction {
            schema: number,
            objects: Objects::of(env),
        },
        pre,
        unfair,
        outcomes,
    })
}

/// The last action, if there are more than so many.
fn last_after(acts: &Acts, count: usize) -> Option<&Act>
    ensures { IfSome result (λ act. (count < length acts.now) × (slice_get acts.now (length acts.now - 1) ≡ Some act.now)) }
{
    if acts.len() <= count {
        return None;
    }
    Some(acts.get(acts.len() - 1))
}

/// Appends the actions of a schema with these lists of objects, in order. Each shares its precondition and its outcomes with the
/// one before it, if they are the same for the objects of both.
fn put_acts(
    alloc: Global,
    table: &Table,
    number: u32,
    schema: &LSchema,
    lists: &ArgsList,
    acts: &mut Acts,
) -> Result<(), NoMemory>
    requires there { slice_get table.now.facts.task.now.schemas number ≡ Some schema.now }
    requires numbered { list_all (λ objects. is_numbered table.now.facts.task.now objects schema.now.effect) lists.now ≡ true }
    requires few { list_all (has_few schema.now.effect) lists.now ≡ true }
    ensures acts { OnOk result ((more : List Act) × (acts.new ≡ acts.old ++ more)
        × AllZip (IsActOf table.now.facts.task.now) (map (λ objects. record { schema = number; objects = objects }) lists.now) more) }
    ensures within { OnOk result (list_all (is_act_within (length (fluent_atoms table.now.facts.task.now))) acts.old ≡ true
        → list_all (is_act_within (length (fluent_atoms table.now.facts.task.now))) acts.new ≡ true) }
{
    let patterns = Patterns::of(alloc, &schema.patterns)?;
    let parameters = Parameters::of(alloc, schema)?;
    let before = acts.len();
    for objects in lists.as_slice() {
        let unfair = is_unfair(alloc, schema, &patterns, objects.as_slice())?;
        let last = last_after(acts, before);
        let act = act_of(alloc, table, number, &parameters, objects, unfair, last)?;
        acts.push(act)?;
    }
    Ok(())
}

/// The actions with these lists of objects, schema by schema.
pub(crate) fn acts_of(alloc: Global, table: &Table, lists: &[ArgsList]) -> Result<Acts, NoMemory>
    requires few { list_all (has_few_outcomes table.now.facts.task.now) table.now.facts.task.now.schemas ≡ true }
    requires all { lists.now ≡ map (kept_args table.now.facts.task.now) table.now.facts.task.now.schemas }
    ensures acts { IfOk result (AllZip (IsActOf table.now.facts.task.now) (kept_actions table.now.facts.task.now)) }
    ensures within { IfOk result (λ acts. list_all (is_act_within (length (fluent_atoms table.now.facts.task.now))) acts ≡ true) }
{
    let schemas = &table.facts.task.schemas;
    let mut acts = Acts::new(alloc);
    for i in 0..schemas.len() {
        put_acts(alloc, table, i as u32, schemas.get(i), &lists[i], &mut acts)?;
    }
    Ok(acts)
}

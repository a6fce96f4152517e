//! Schemas with too many outcomes. The outcomes of an effect are counted before it is written out over the objects of its
//! quantifiers, since a quantified effect has as many as a power of the number of outcomes of its part.

ghost use Rattle.fond_ast.specs.Outcomes.{outcomes};
ghost use Rattle.fond_ast.specs.declared.task.LSchema.{LSchema};
ghost use Rattle.fond_ground.specs.Limits.{has_few, has_few_outcomes, IsFirstMany};
ghost use Rattle.fond_join.specs.Kept.{kept_args};
ghost use Rattle.fond_text.specs.Faults.{Refuses};
ghost use Rattle.fond_text.specs.Lists.{Somewhere};
ghost use Rattle.std.specs.List.{list_all};
ghost use Rattle.std.specs.Prelude.{◌≡◌, ◌≤◌, ◌^◌, ℕ, List, true, map, length, min, IfOk, IfErr};

use crate::atoms::tuple_count;
use fond_ast::form::LEffect;
use fond_ast::task::LiftedTask;
use fond_join::matching::ArgsList;
use fond_text::code::{MOST_OUTCOMES, TOO_MANY_OUTCOMES};
use fond_text::fault::{Fault, FrontError};
use fond_text::place::FileKind;

/// The greatest number of outcomes that is counted.
const MOST_COUNTED: usize = MOST_OUTCOMES + 1;

/// The number of factors from which on a power of 2 is more than [`MOST_COUNTED`].
const MOST_FACTORS: usize = 9;

/// A power, or [`MOST_COUNTED`] if it is more.
fn power(base: usize, exponent: usize) -> usize
    requires { base ≤ 257 }
    ensures { result ≡ min (base ^ exponent) 257 }
{
    let mut all = 1;
    for _factor in 0..exponent.min(MOST_FACTORS) {
        all = (all * base).min(MOST_COUNTED);
    }
    all
}

/// The number of outcomes of an effect, or [`MOST_COUNTED`] if there are more. It does not depend on the objects of the
/// variables around the effect. Takes time in the size of the effect as it is in the domain, and no memory.
fn outcome_count(effect: &LEffect) -> usize
    ensures most { result ≤ 257 }
    ensures count { (env : List ℕ) → result ≡ min (length (outcomes env effect.now)) 257 }
{
    match effect {
        LEffect::Nothing | LEffect::Add(_) | LEffect::Delete(_) => 1,
        LEffect::And(members) => {
            let mut all = 1;
            for member in members {
                all = (all * outcome_count(member)).min(MOST_COUNTED);
            }
            all
        }
        LEffect::OneOf(members) => {
            let mut all = 0;
            for member in members {
                all = (all + outcome_count(member)).min(MOST_COUNTED);
            }
            all
        }
        LEffect::Forall(ranges, part) => power(outcome_count(part), tuple_count(ranges)),
        LEffect::When(_, part) => outcome_count(part),
    }
}

/// Whether an effect has at most [`MOST_OUTCOMES`] outcomes, or there is no list of objects for its parameters.
fn has_few(effect: &LEffect, lists: &ArgsList) -> bool
    ensures { result ≡ list_all (has_few effect.now) lists.now }
{
    lists.len() == 0 || outcome_count(effect) <= MOST_OUTCOMES
}

/// Checks that the actions with these lists of objects, schema by schema, have at most [`MOST_OUTCOMES`] outcomes each, or
/// reports the first schema of which one has more. Takes time in the size of the effects as they are in the domain.
pub(crate) fn few_outcomes(task: &LiftedTask, lists: &[ArgsList]) -> Result<(), FrontError>
    requires { lists.now ≡ map (kept_args task.now) task.now.schemas }
    ensures few { IfOk result (λ done. list_all (has_few_outcomes task.now) task.now.schemas ≡ true) }
    ensures many { IfErr result (Refuses (λ fault. Somewhere (IsFirstMany task.now fault) task.now.schemas)) }
{
    for i in 0..task.schemas.len() {
        let schema = task.schemas.get(i);
        if !has_few(&schema.effect, &lists[i]) {
            return Err(FrontError::Refused(Fault {
                file: FileKind::Domain,
                place: schema.place,
                code: TOO_MANY_OUTCOMES,
            }));
        }
    }
    Ok(())
}

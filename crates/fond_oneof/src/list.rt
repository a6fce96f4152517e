//! The list of the outcomes of an effect.

ghost use Rattle.fond_text.specs.Lists.{concatenations};
ghost use Rattle.std.specs.List.{flat_map};
ghost use Rattle.fond_oneof.specs.Shown.{all_shown, pairs, shown, shown_lists, shown_under};
ghost use Rattle.fond_task.specs.declared.form.Form.TheVariants.{Truth};
ghost use Rattle.std.specs.Prelude.{◌≡◌, [], ◌∷◌, ◌++◌, true, map, IfOk, OnOk};

use crate::effect::GroundEffect;
use crate::form::{both, copied};
use fond_task::form::Form;
use fond_task::task::{Entry, Outcome};
use fond_text::fault::NoMemory;
use std::alloc::Global;

/// The list of one outcome.
fn alone(alloc: Global, outcome: Outcome) -> Result<Vec<Outcome>, NoMemory>
    ensures { IfOk result (λ all. all.items ≡ outcome ∷ []) }
{
    let mut all = Vec::new(alloc);
    all.push(outcome)?;
    Ok(all)
}

/// The outcome of one entry without condition.
fn literal(alloc: Global, atom: u32, add: bool) -> Result<Outcome, NoMemory>
    ensures { IfOk result (λ outcome. outcome ≡ record { cond = Truth true; atom = atom; add = add } ∷ []) }
{
    let mut outcome = Outcome::new(alloc);
    outcome.push(Entry {
        cond: Form::Truth(true),
        atom,
        add,
    })?;
    Ok(outcome)
}

/// Appends copies of entries to an outcome.
fn extend(alloc: Global, outcome: &mut Outcome, more: &[Entry]) -> Result<(), NoMemory>
    ensures { OnOk result (map shown outcome.new ≡ map shown outcome.old ++ map shown more.now) }
{
    for entry in more {
        outcome.push(Entry {
            cond: copied(alloc, &entry.cond)?,
            atom: entry.atom,
            add: entry.add,
        })?;
    }
    Ok(())
}

/// Appends copies of entries to each outcome, in place.
fn extended(alloc: Global, mut all: Vec<Outcome>, more: &[Entry]) -> Result<Vec<Outcome>, NoMemory>
    ensures { IfOk result (λ now. all_shown now.items ≡ map (λ one. one ++ map shown more.now) (all_shown all.items)) }
{
    for outcome in all.iter_mut() {
        extend(alloc, outcome, more)?;
    }
    Ok(all)
}

/// A new outcome: copies of the entries of the first one, then those of the second.
fn with(alloc: Global, first: &Outcome, second: &Outcome) -> Result<Outcome, NoMemory>
    ensures { IfOk result (λ outcome. map shown outcome ≡ map shown first.now ++ map shown second.now) }
{
    let mut outcome = Outcome::new(alloc);
    extend(alloc, &mut outcome, first.as_slice())?;
    extend(alloc, &mut outcome, second.as_slice())?;
    Ok(outcome)
}

/// Appends to `all` the outcome joined with each of `more`.
fn put_joined(
    alloc: Global,
    all: &mut Vec<Outcome>,
    outcome: &Outcome,
    more: &[Outcome],
) -> Result<(), NoMemory>
    ensures { OnOk result (all_shown all.new.items ≡ all_shown all.old.items ++ map (λ one. map shown outcome.now ++ one) (all_shown more.now)) }
{
    for other in more {
        all.push(with(alloc, outcome, other)?)?;
    }
    Ok(())
}

/// Each outcome of the first list joined with each of the second, which varies faster. A single second outcome is
/// joined in place, so that a conjunction of literals takes time proportional to its length.
fn joined(alloc: Global, first: Vec<Outcome>, second: &[Outcome]) -> Result<Vec<Outcome>, NoMemory>
    ensures { IfOk result (λ all. all_shown all.items ≡ pairs (all_shown first.items) (all_shown second.now)) }
{
    if second.len() == 1 {
        return extended(alloc, first, second[0].as_slice());
    }
    let mut all = Vec::new(alloc);
    for outcome in &first {
        put_joined(alloc, &mut all, outcome, second)?;
    }
    Ok(all)
}

/// Copies of the entries of an outcome, under one more condition.
fn guarded(alloc: Global, condition: &Form, outcome: &Outcome) -> Result<Outcome, NoMemory>
    ensures { IfOk result (λ now. map shown now ≡ map (shown_under condition.now) (map shown outcome.now)) }
{
    let mut under = Outcome::new(alloc);
    for entry in outcome.as_slice() {
        under.push(Entry {
            cond: both(alloc, condition, &entry.cond)?,
            atom: entry.atom,
            add: entry.add,
        })?;
    }
    Ok(under)
}

/// Copies of outcomes, whose entries are under one more condition.
fn all_guarded(alloc: Global, condition: &Form, all: &[Outcome]) -> Result<Vec<Outcome>, NoMemory>
    ensures { IfOk result (λ now. all_shown now.items ≡ map (map (shown_under condition.now)) (all_shown all.now)) }
{
    let mut under = Vec::with_capacity(alloc, all.len())?;
    for outcome in all {
        under.push(guarded(alloc, condition, outcome)?)?;
    }
    Ok(under)
}

/// The outcomes of an effect, in order: the last part of a conjunction varies fastest, and a choice lists those of its
/// members. If each choice has a member, takes memory proportional to the sum of their sizes, and time proportional to
/// that sum for each level of nesting.
#[cycle(listing)]
pub(crate) fn list(alloc: Global, effect: &GroundEffect) -> Result<Vec<Outcome>, NoMemory>
    ensures { IfOk result (λ all. all_shown all.items ≡ shown_lists effect.now) }
{
    match effect {
        GroundEffect::Literal(atom, add) => alone(alloc, literal(alloc, *atom, *add)?),
        GroundEffect::And(parts) => list_conjunction(alloc, parts),
        GroundEffect::OneOf(parts) => list_choice(alloc, parts),
        GroundEffect::When(condition, part) => {
            let all = list(alloc, part)?;
            all_guarded(alloc, condition, &all)
        }
    }
}

/// The outcomes of a conjunction of these parts, of which the last varies fastest.
#[cycle(listing)]
fn list_conjunction(alloc: Global, parts: &[GroundEffect]) -> Result<Vec<Outcome>, NoMemory>
    ensures { IfOk result (λ all. all_shown all.items ≡ concatenations (map shown_lists parts.now)) }
{
    let mut all = alone(alloc, Outcome::new(alloc))?;
    for part in parts {
        let second = list(alloc, part)?;
        all = joined(alloc, all, &second)?;
    }
    Ok(all)
}

/// The outcomes of a choice of one of these members.
#[cycle(listing)]
fn list_choice(alloc: Global, members: &[GroundEffect]) -> Result<Vec<Outcome>, NoMemory>
    ensures { IfOk result (λ all. all_shown all.items ≡ flat_map (λ lists. lists) (map shown_lists members.now)) }
{
    let mut all = Vec::new(alloc);
    for member in members {
        let mut more = list(alloc, member)?;
        all.append(&mut more)?;
    }
    Ok(all)
}

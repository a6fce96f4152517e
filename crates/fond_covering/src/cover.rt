//! Covers of policies.

ghost use Rattle.fond_covering.specs.Coverings.{IsCovering, IsCoverOf, IsSureCovering, MayBeCovered};
ghost use Rattle.fond_policy.specs.Belongs.{BelongAsRules};
ghost use Rattle.fond_policy.specs.Parts.{AreSureRules};
ghost use Rattle.fond_policy.specs.Walks.{HasAllRuled, HasUnruled};
ghost use Rattle.std.specs.Prelude.{◌≡◌, None, IfOk, IfSome};

use crate::certify::passes;
use crate::covering::Covering;
use crate::full::full_covering;
use crate::propose::propose;
use fond_policy::cert::Cert;
use fond_policy::conditions::Conditions;
use fond_policy::items::Items;
use fond_policy::widen::widen;
use fond_rules::pairs::Pairs;
use fond_rules::rules::Rules;
use fond_task::task::Task;
use fond_text::fault::NoMemory;
use std::alloc::Global;

/// The cover after its items lost each literal that they do not need.
fn widened(alloc: Global, t: &Task, rules: &Rules, covering: Covering) -> Result<Covering, NoMemory>
    requires belong { BelongAsRules t.now rules.now }
    requires sure { IsSureCovering t.now rules.now covering.items covering.start }
    ensures { IfOk result (λ covering. IsCovering t.now rules.now covering.items covering.start) }
{
    let Covering { mut items, start } = covering;
    let conditions = Conditions::new(alloc, rules)?;
    widen(alloc, t, &conditions, &mut items)?;
    Ok(Covering { items, start })
}

/// The cover of these items from the first one, made lean, if they pass their test: they are sure, and the initial state lies in
/// the first one. None exactly if they do not. Neither need the rules be sure, nor need one hold in each state that they reach. Takes
/// time in the number of items times that of the rules; the index of the rules makes that fast.
pub fn take_items(
    alloc: Global,
    t: &Task,
    rules: &Rules,
    items: Items,
) -> Result<Option<Covering>, NoMemory>
    requires { BelongAsRules t.now rules.now }
    ensures found { IfOk result (λ found. IfSome found (λ covering. IsCovering t.now rules.now covering.items covering.start)) }
    ensures none { IfOk result (λ found. found ≡ None → ¬ IsSureCovering t.now rules.now items 0) }
{
    if !passes(alloc, t, rules, &items, 0)? {
        return Ok(None);
    }
    let covering = Covering { items, start: 0 };
    Ok(Some(widened(alloc, t, rules, covering)?))
}

/// A lean cover of the states that sure rules reach, by all these states, or nothing if no rule holds in one of them that is no
/// goal. Takes time and memory for each of them; memory is said to have run out after 2^32 - 1.
pub fn cover_by_states(
    alloc: Global,
    t: &Task,
    pairs: &Pairs,
    rules: &Rules,
) -> Result<Option<Covering>, NoMemory>
    requires belong { BelongAsRules t.now rules.now }
    requires sure { AreSureRules t.now pairs.now rules.now }
    ensures found { IfOk result (λ found. IfSome found (λ covering. IsCovering t.now rules.now covering.items covering.start)) }
    ensures none { IfOk result (λ found. found ≡ None → HasUnruled t.now rules.now) }
{
    let Some(covering) = full_covering(alloc, t, pairs, rules)? else {
        return Ok(None);
    };
    Ok(Some(widened(alloc, t, rules, covering)?))
}

/// The cover of the items that are proposed for the rules, if they pass their test.
pub fn find_cover(alloc: Global, t: &Task, rules: &Rules) -> Result<Option<Covering>, NoMemory>
    requires { BelongAsRules t.now rules.now }
    ensures { IfOk result (λ found. IfSome found (λ covering. IsCovering t.now rules.now covering.items covering.start)) }
{
    match propose(alloc, t, rules)? {
        Some(items) => take_items(alloc, t, rules, items),
        None => Ok(None),
    }
}

/// A lean cover of the states that sure rules reach, in each of which that is no goal a rule holds. It is proposed in time and
/// memory that grow with the number of its items and not of the states. Only if the proposal is given up or fails its test are all
/// these states visited.
fn cover_rules(alloc: Global, t: &Task, pairs: &Pairs, rules: &Rules) -> Result<Covering, NoMemory>
    requires belong { BelongAsRules t.now rules.now }
    requires sure { AreSureRules t.now pairs.now rules.now }
    requires ruled { HasAllRuled t.now rules.now }
    ensures { IfOk result (λ covering. IsCovering t.now rules.now covering.items covering.start) }
{
    if let Some(covering) = find_cover(alloc, t, rules)? {
        return Ok(covering);
    }
    match cover_by_states(alloc, t, pairs, rules)? {
        Some(covering) => Ok(covering),
        None => unreachable!(),
    }
}

/// The certificate with a cover in place of the reach number. Takes the time of `cover_rules`.
pub fn cover(alloc: Global, t: &Task, cert: Cert) -> Result<Cert, NoMemory>
    requires { MayBeCovered t.now cert }
    ensures { IfOk result (IsCoverOf t.now cert) }
{
    let Cert::Policy {
        layers,
        pairs,
        rules,
        ..
    } = cert
    else {
        unreachable!()
    };
    let Covering { items, start } = cover_rules(alloc, t, &pairs, &rules)?;
    Ok(Cert::Covered {
        layers,
        pairs,
        rules,
        items,
        start,
    })
}

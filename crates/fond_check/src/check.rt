//! Checking a certificate.

ghost use Rattle.fond_policy.specs.Belongs.{Belongs, BelongAsItems, BelongAsLayers, BelongAsPairs, BelongAsRules};
ghost use Rattle.fond_policy.specs.Parts.{ArePartsSure};
ghost use Rattle.fond_task.specs.Layers.{CubeView};
ghost use Rattle.fond_task.specs.declared.rule.Pair.{Pair};
ghost use Rattle.fond_policy.specs.Covers.{IsIn};
ghost use Rattle.fond_policy.specs.Items.{firsts_of, AreSureItems};
ghost use Rattle.fond_check.specs.Verdicts.{IsCoverVerdict, IsPartFault, IsPolicyVerdict, IsRefusalVerdict, IsVerdict, of_spot};
ghost use Rattle.fond_policy.specs.Walks.{IsWalked};
ghost use Rattle.std.specs.Prelude.{◌≡◌, List, length, Decides, IfOk, MatchOption};

use crate::items::{first_bad_item, is_in_item};
use crate::lean::{are_all_lean, are_lean};
use crate::parts::{first_bad_layer, first_bad_pair, first_bad_rule};
use crate::verdict::Verdict;
use fond_layers::fault::Spot;
use fond_layers::layers::Layers;
use fond_policy::cert::Cert;
use fond_policy::conditions::Conditions;
use fond_policy::items::Items;
use fond_policy::pad::CoverPad;
use fond_policy::walk::{Walked, walk};
use fond_rules::pad::Pad;
use fond_rules::pairs::Pairs;
use fond_rules::rules::Rules;
use fond_task::task::Task;
use fond_text::fault::NoMemory;
use std::alloc::Global;

/// The verdict for a layer that is not sure.
fn layer_verdict(layer: u32, spot: Spot) -> Verdict
    ensures { result ≡ of_spot layer spot }
{
    match spot {
        Spot::Goal { cube } => Verdict::LayerGoal { layer, cube },
        Spot::NotSure { cube, act } => Verdict::LayerAct { layer, cube, act },
    }
}

/// The verdict on a policy whose layers, pairs and rules are sure, by the walk through the states that its rules reach.
fn reach_verdict(
    t: &Task,
    layers: &Layers,
    pairs: &Pairs,
    rules: &Rules,
    reach: u64,
    walked: Walked,
    pad: &mut Pad,
) -> Verdict
    requires layers_belong { BelongAsLayers t.now layers.now }
    requires pairs_belong { BelongAsPairs t.now pairs.now }
    requires rules_belong { BelongAsRules t.now rules.now }
    requires sure { ArePartsSure t.now layers.now pairs.now rules.now }
    requires walked { IsWalked t.now rules.now reach walked }
    requires pad { pad.old ≡ length t.now.atoms }
    ensures { IsPolicyVerdict t.now layers.now pairs.now rules.now reach result }
{
    let Walked::All { count, unruled } = walked else {
        return Verdict::Count { more: true };
    };
    if u64::from(count) < reach {
        return Verdict::Count { more: false };
    }
    if let Some(state) = unruled {
        return Verdict::NoRule { state };
    }
    Verdict::Accepted {
        lean: are_lean(t, layers, pairs, rules, pad),
    }
}

/// The verdict for the first layer, pair or rule that is not sure, if there is one.
fn part_fault(
    alloc: Global,
    t: &Task,
    layers: &Layers,
    pairs: &Pairs,
    rules: &Rules,
    pad: &mut Pad,
) -> Result<Option<Verdict>, NoMemory>
    requires layers_belong { BelongAsLayers t.now layers.now }
    requires pairs_belong { BelongAsPairs t.now pairs.now }
    requires rules_belong { BelongAsRules t.now rules.now }
    requires pad { pad.old ≡ length t.now.atoms }
    ensures same_pad { pad.new ≡ pad.old }
    ensures first { IfOk result (λ found. MatchOption found (ArePartsSure t.now layers.now pairs.now rules.now) (IsPartFault t.now layers.now pairs.now rules.now)) }
{
    if let Some((layer, spot)) = first_bad_layer(alloc, t, layers)? {
        return Ok(Some(layer_verdict(layer, spot)));
    }
    if let Some(at) = first_bad_pair(t, layers, pairs, pad) {
        return Ok(Some(Verdict::Pair { at }));
    }
    if let Some(at) = first_bad_rule(t, pairs, rules, pad) {
        return Ok(Some(Verdict::Rule { at }));
    }
    Ok(None)
}

/// The verdict on a policy whose layers, pairs and rules are sure, with a reach number.
fn check_reach(
    alloc: Global,
    t: &Task,
    layers: &Layers,
    pairs: &Pairs,
    rules: &Rules,
    reach: u64,
    pad: &mut Pad,
) -> Result<Verdict, NoMemory>
    requires layers_belong { BelongAsLayers t.now layers.now }
    requires pairs_belong { BelongAsPairs t.now pairs.now }
    requires rules_belong { BelongAsRules t.now rules.now }
    requires sure { ArePartsSure t.now layers.now pairs.now rules.now }
    requires pad { pad.old ≡ length t.now.atoms }
    ensures { IfOk result (IsPolicyVerdict t.now layers.now pairs.now rules.now reach) }
{
    let walked = walk(alloc, t, pairs, rules, reach)?;
    Ok(reach_verdict(t, layers, pairs, rules, reach, walked, pad))
}

/// The verdict on a policy with a reach number.
fn check_policy(
    alloc: Global,
    t: &Task,
    layers: &Layers,
    pairs: &Pairs,
    rules: &Rules,
    reach: u64,
) -> Result<Verdict, NoMemory>
    requires layers_belong { BelongAsLayers t.now layers.now }
    requires pairs_belong { BelongAsPairs t.now pairs.now }
    requires rules_belong { BelongAsRules t.now rules.now }
    ensures { IfOk result (IsPolicyVerdict t.now layers.now pairs.now rules.now reach) }
{
    let mut pad = Pad::new(alloc, t.atoms.len() as u32)?;
    match part_fault(alloc, t, layers, pairs, rules, &mut pad)? {
        Some(fault) => Ok(fault),
        None => check_reach(alloc, t, layers, pairs, rules, reach, &mut pad),
    }
}

/// The verdict for the first item that is not sure, or for the start item, if the initial state does not lie in it.
fn item_fault(
    t: &Task,
    rules: &Rules,
    conditions: &Conditions<'_>,
    items: &Items,
    start: u32,
    pad: &mut CoverPad,
) -> Option<Verdict>
    requires rules_belong { BelongAsRules t.now rules.now }
    requires items_belong { BelongAsItems t.now items.now }
    requires same { conditions.now ≡ firsts_of rules.now }
    requires pad { pad.old ≡ length t.now.atoms }
    ensures same_pad { pad.new ≡ pad.old }
    ensures first { MatchOption result (AreSureItems t.now (firsts_of rules.now) items.now × IsIn items.now start t.now.init)
        (λ fault. (layers : List (List CubeView)) (pairs : List Pair) → ArePartsSure t.now layers pairs rules.now → IsCoverVerdict t.now layers pairs rules.now items.now start fault) }
{
    if let Some(at) = first_bad_item(t, conditions, items, pad) {
        return Some(Verdict::Item { at });
    }
    if !is_in_item(items, start, &t.init) {
        return Some(Verdict::Start);
    }
    None
}

/// The verdict on a policy whose layers, pairs and rules are sure, with a cover. The pad is overwritten.
fn check_items(
    alloc: Global,
    t: &Task,
    layers: &Layers,
    pairs: &Pairs,
    rules: &Rules,
    items: &Items,
    start: u32,
    pad: &mut Pad,
) -> Result<Verdict, NoMemory>
    requires layers_belong { BelongAsLayers t.now layers.now }
    requires pairs_belong { BelongAsPairs t.now pairs.now }
    requires rules_belong { BelongAsRules t.now rules.now }
    requires items_belong { BelongAsItems t.now items.now }
    requires sure { ArePartsSure t.now layers.now pairs.now rules.now }
    requires pad { pad.old ≡ length t.now.atoms }
    ensures { IfOk result (IsCoverVerdict t.now layers.now pairs.now rules.now items.now start) }
{
    let mut cover_pad = CoverPad::new(alloc, t.atoms.len() as u32)?;
    let conditions = Conditions::new(alloc, rules)?;
    match item_fault(t, rules, &conditions, items, start, &mut cover_pad) {
        Some(fault) => Ok(fault),
        None => {
            let lean = are_all_lean(
                t,
                layers,
                pairs,
                rules,
                &conditions,
                items,
                pad,
                &mut cover_pad,
            );
            Ok(Verdict::Accepted { lean })
        }
    }
}

/// The verdict on a policy with a cover.
fn check_cover(
    alloc: Global,
    t: &Task,
    layers: &Layers,
    pairs: &Pairs,
    rules: &Rules,
    items: &Items,
    start: u32,
) -> Result<Verdict, NoMemory>
    requires layers_belong { BelongAsLayers t.now layers.now }
    requires pairs_belong { BelongAsPairs t.now pairs.now }
    requires rules_belong { BelongAsRules t.now rules.now }
    requires items_belong { BelongAsItems t.now items.now }
    ensures { IfOk result (IsCoverVerdict t.now layers.now pairs.now rules.now items.now start) }
{
    let mut pad = Pad::new(alloc, t.atoms.len() as u32)?;
    match part_fault(alloc, t, layers, pairs, rules, &mut pad)? {
        Some(fault) => Ok(fault),
        None => check_items(alloc, t, layers, pairs, rules, items, start, &mut pad),
    }
}

/// The verdict on a refusal.
fn check_refusal(alloc: Global, t: &Task, layers: &Layers) -> Result<Verdict, NoMemory>
    requires { BelongAsLayers t.now layers.now }
    ensures { IfOk result (IsRefusalVerdict t.now layers.now) }
{
    if let Some((layer, spot)) = first_bad_layer(alloc, t, layers)? {
        return Ok(layer_verdict(layer, spot));
    }
    if layers.dead(&t.init).is_none() {
        return Ok(Verdict::Outside);
    }
    Ok(Verdict::Accepted { lean: true })
}

/// The verdict on a certificate: that it is correct, or its first fault. Tests each layer, pair and rule once for being
/// sure. If there is a reach number, it walks through the states that the rules reach, breadth first, until they are more
/// than this number, and takes memory for them. If there is a cover, it tests each item once for being sure, and visits no
/// state, and takes about as much memory as the conditions of the rules. A correct policy is also tested for being lean.
pub fn check(alloc: Global, t: &Task, cert: &Cert) -> Result<Verdict, NoMemory>
    requires { Belongs t.now cert.now }
    ensures { IfOk result (IsVerdict t.now cert.now) }
{
    match cert {
        Cert::Policy {
            layers,
            pairs,
            rules,
            reach,
        } => check_policy(alloc, t, layers, pairs, rules, *reach),
        Cert::Refusal { layers } => check_refusal(alloc, t, layers),
        Cert::Covered {
            layers,
            pairs,
            rules,
            items,
            start,
        } => check_cover(alloc, t, layers, pairs, rules, items, *start),
    }
}

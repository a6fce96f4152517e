//! The first layer, pair and rule of a certificate that is not sure.

ghost use Rattle.fond_policy.specs.Parts.{AreSurePairs, AreSureRules};
ghost use Rattle.fond_check.specs.Verdicts.{IsFirstBadLayer, IsFirstBadPair, IsFirstBadRule};
ghost use Rattle.fond_task.specs.Layers.{CubeView, AreSureLayers, IsSurePair};
ghost use Rattle.fond_task.specs.Rules.{IsLeanPair};
ghost use Rattle.fond_layers.specs.Over.{AreOver};
ghost use Rattle.fond_rules.specs.Belongs.{ArePairsOver, BelongTo};
ghost use Rattle.std.specs.Prelude.{◌≡◌, List, length, slice_get, Some, Decides, IfOk, MatchOption};

use fond_layers::fault::Spot;
use fond_layers::layers::Layers;
use fond_rules::pad::Pad;
use fond_rules::pairs::Pairs;
use fond_rules::rules::Rules;
use fond_rules::sure_pairs::{lean_pair, sure_pair};
use fond_rules::sure_rules::sure_rule;
use fond_state::cube::Cube;
use fond_task::rule::Pair;
use fond_task::task::Task;
use fond_text::fault::NoMemory;
use std::alloc::Global;

/// The first layer that is not sure above those before it, with what is wrong with it. `image` is overwritten.
fn bad_layer(t: &Task, layers: &Layers, image: &mut Cube) -> Option<(u32, Spot)>
    requires over { AreOver (length t.now.atoms) layers.now }
    requires long { length image.old ≡ length t.now.atoms }
    ensures same_length { length image.new ≡ length image.old }
    ensures first { MatchOption result (AreSureLayers t.now layers.now) (λ r. IsFirstBadLayer t.now layers.now r.0 r.1) }
{
    for at in 0..layers.len() {
        if let Some(spot) = layers.fault(t, at, image) {
            return Some((at, spot));
        }
    }
    None
}

/// The first layer that is not sure above those before it, with what is wrong with it. Takes the time of `Layers::fault`
/// for each layer, and memory for one cube.
pub fn first_bad_layer(
    alloc: Global,
    t: &Task,
    layers: &Layers,
) -> Result<Option<(u32, Spot)>, NoMemory>
    requires { AreOver (length t.now.atoms) layers.now }
    ensures { IfOk result (λ found. MatchOption found (AreSureLayers t.now layers.now) (λ r. IsFirstBadLayer t.now layers.now r.0 r.1)) }
{
    let mut image = Cube::new(alloc, t.atoms.len() as u32)?;
    Ok(bad_layer(t, layers, &mut image))
}

/// The cube that a pair names, if there is one.
fn named_cube<'a>(layers: &'a Layers, pair: &Pair) -> Option<&'a Cube>
    ensures { MatchOption result ((layer : List CubeView) (cube : CubeView) → slice_get layers.now pair.now.layer ≡ Some layer → ¬ slice_get layer pair.now.cube ≡ Some cube)
        (λ cube. (layer : List CubeView) × (slice_get layers.now pair.now.layer ≡ Some layer) × (slice_get layer pair.now.cube ≡ Some cube.now)) }
{
    if pair.layer >= layers.len() {
        return None;
    }
    let layer = layers.get(pair.layer);
    if pair.cube as usize >= layer.len() {
        return None;
    }
    Some(layer.get(pair.cube as usize))
}

/// Whether the pair is sure.
fn is_sure_pair(t: &Task, layers: &Layers, pair: &Pair, pad: &mut Pad) -> bool
    requires over { AreOver (length t.now.atoms) layers.now }
    requires long { length pair.now.cond ≡ length t.now.atoms }
    requires pad { pad.old ≡ length t.now.atoms }
    ensures same_pad { pad.new ≡ pad.old }
    ensures decides { Decides result (IsSurePair t.now layers.now pair.now) }
{
    match named_cube(layers, pair) {
        Some(dead) => sure_pair(t, dead, pair, pad),
        None => false,
    }
}

/// Whether the pair is lean.
pub(crate) fn is_lean_pair(t: &Task, layers: &Layers, pair: &Pair, pad: &mut Pad) -> bool
    requires over { AreOver (length t.now.atoms) layers.now }
    requires long { length pair.now.cond ≡ length t.now.atoms }
    requires pad { pad.old ≡ length t.now.atoms }
    ensures same_pad { pad.new ≡ pad.old }
    ensures decides { Decides result (IsLeanPair t.now layers.now pair.now) }
{
    match named_cube(layers, pair) {
        Some(dead) => lean_pair(t, dead, pair, pad),
        None => false,
    }
}

/// The number of the first pair that is not sure. Takes the time of `sure_pair` for each pair.
pub fn first_bad_pair(t: &Task, layers: &Layers, pairs: &Pairs, pad: &mut Pad) -> Option<u64>
    requires over { AreOver (length t.now.atoms) layers.now }
    requires pairs_over { ArePairsOver (length t.now.atoms) pairs.now }
    requires pad { pad.old ≡ length t.now.atoms }
    ensures same_pad { pad.new ≡ pad.old }
    ensures first { MatchOption result (AreSurePairs t.now layers.now pairs.now) (IsFirstBadPair t.now layers.now pairs.now) }
{
    for at in 0..pairs.len() {
        if !is_sure_pair(t, layers, pairs.get(at), pad) {
            return Some(at);
        }
    }
    None
}

/// The number of the first rule that is not sure. Takes the time of `sure_rule` for each rule.
pub fn first_bad_rule(t: &Task, pairs: &Pairs, rules: &Rules, pad: &mut Pad) -> Option<u32>
    requires pairs_over { ArePairsOver (length t.now.atoms) pairs.now }
    requires belong { BelongTo t.now rules.now }
    requires pad { pad.old ≡ length t.now.atoms }
    ensures same_pad { pad.new ≡ pad.old }
    ensures first { MatchOption result (AreSureRules t.now pairs.now rules.now) (IsFirstBadRule t.now pairs.now rules.now) }
{
    for at in 0..rules.len() {
        if !sure_rule(t, pairs, rules, at, rules.get(at), pad) {
            return Some(at);
        }
    }
    None
}

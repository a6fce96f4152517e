//! Checking a certificate of a policy of least rank.

ghost use Rattle.fond_best.specs.Certificates.{BoundsMeet, IsInLast};
ghost use Rattle.fond_best.specs.Ratings.{HasSureRules, IsFirstBadList, IsRankedCover, IsRating};
ghost use Rattle.fond_layers.specs.Far.{AreFarLists};
ghost use Rattle.fond_layers.specs.Over.{IsOver, AreOver};
ghost use Rattle.fond_policy.specs.Belongs.{BelongsAsBest};
ghost use Rattle.fond_policy.specs.Parts.{IsRightCover};
ghost use Rattle.fond_state.specs.Cubes.{LiesIn};
ghost use Rattle.fond_task.specs.Layers.{CubeView};
ghost use Rattle.std.specs.Prelude.{◌≡◌, ◌<◌, ℕ, List, [], Contains, length, Decides, IfOk, MatchOption};

use crate::ranked::first_bad_rank;
use crate::rated::Rated;
use fond_check::items::{first_bad_item, is_in_item};
use fond_check::parts::{first_bad_layer, first_bad_rule};
use fond_layers::fault::Spot;
use fond_layers::layers::{Layer, Layers};
use fond_policy::best::BestCert;
use fond_policy::conditions::Conditions;
use fond_policy::pad::CoverPad;
use fond_rules::pad::Pad;
use fond_rules::pairs::Pairs;
use fond_state::cube::Cube;
use fond_state::state::State;
use fond_task::task::Task;
use fond_text::fault::NoMemory;
use std::alloc::Global;

/// The first fault of the layers and the rules, if there is one.
fn rule_fault(alloc: Global, t: &Task, cert: &BestCert) -> Result<Option<Rated>, NoMemory>
    requires { BelongsAsBest t.now cert.now }
    ensures { IfOk result (λ found. MatchOption found (HasSureRules t.now cert.now) (IsRating t.now cert.now)) }
{
    match first_bad_layer(alloc, t, &cert.layers)? {
        Some((layer, Spot::Goal { cube })) => return Ok(Some(Rated::LayerGoal { layer, cube })),
        Some((layer, Spot::NotSure { cube, act })) => {
            return Ok(Some(Rated::LayerAct { layer, cube, act }));
        }
        None => {}
    }
    let mut pad = Pad::new(alloc, t.atoms.len() as u32)?;
    match first_bad_rule(t, &Pairs::new(alloc), &cert.rules, &mut pad) {
        Some(at) => Ok(Some(Rated::Rule { at })),
        None => Ok(None),
    }
}

/// The first fault of the items and the start item, if there is one.
fn cover_fault(alloc: Global, t: &Task, cert: &BestCert) -> Result<Option<Rated>, NoMemory>
    requires belongs { BelongsAsBest t.now cert.now }
    requires sure { HasSureRules t.now cert.now }
    ensures { IfOk result (λ found. MatchOption found (IsRightCover t.now cert.now.layers [] cert.now.rules cert.now.items cert.now.start) (IsRating t.now cert.now)) }
{
    let mut pad = CoverPad::new(alloc, t.atoms.len() as u32)?;
    let conditions = Conditions::new(alloc, &cert.rules)?;
    if let Some(at) = first_bad_item(t, &conditions, &cert.items, &mut pad) {
        return Ok(Some(Rated::Item { at }));
    }
    if !is_in_item(&cert.items, cert.start, &t.init) {
        return Ok(Some(Rated::Start));
    }
    Ok(None)
}

/// The first far list that is not far, with what is wrong with it. `image` is overwritten.
fn bad_list(t: &Task, layers: &Layers, far: &Layers, image: &mut Cube) -> Option<(u32, Spot)>
    requires over { AreOver (length t.now.atoms) layers.now }
    requires far_over { AreOver (length t.now.atoms) far.now }
    requires long { length image.old ≡ length t.now.atoms }
    ensures { MatchOption result (AreFarLists t.now layers.now far.now) (λ r. IsFirstBadList t.now layers.now far.now r.0 r.1) }
{
    for at in 0..far.len() {
        if let Some(spot) = layers.far_fault(t, far, at, image) {
            return Some((at, spot));
        }
    }
    None
}

/// Whether the state lies in one of the cubes.
fn is_among(state: &State, cubes: &Layer) -> bool
    requires { IsOver (length state.now) cubes.now }
    ensures { Decides result ((cube : CubeView) × Contains cubes.now cube × LiesIn state.now cube) }
{
    for cube in cubes.as_slice() {
        if cube.holds(state) {
            return true;
        }
    }
    false
}

/// Whether the state lies in a cube of the last of some lists.
fn is_in_last(state: &State, lists: &Layers) -> bool
    requires { AreOver (length state.now) lists.now }
    ensures { Decides result (IsInLast state.now lists.now) }
{
    let count = lists.len();
    count > 0 && is_among(state, lists.get(count - 1))
}

/// The rank at which the bounds meet, if they do.
fn met(t: &Task, cert: &BestCert) -> Option<u64>
    requires belongs { BelongsAsBest t.now cert.now }
    requires starts { cert.now.start < length cert.now.items }
    ensures { MatchOption result ((rank : ℕ) → ¬ BoundsMeet t.now cert.now.ranks cert.now.start cert.now.far rank) (BoundsMeet t.now cert.now.ranks cert.now.start cert.now.far) }
{
    let rank = *cert.ranks.get(cert.start as usize);
    if u64::from(cert.far.len()) != rank {
        return None;
    }
    if rank == 0 || is_in_last(&t.init, &cert.far) {
        return Some(rank);
    }
    None
}

/// The verdict on a certificate whose cover is correct, and whose items are ranked.
fn far_verdict(alloc: Global, t: &Task, cert: &BestCert) -> Result<Rated, NoMemory>
    requires belongs { BelongsAsBest t.now cert.now }
    requires ranked { IsRankedCover t.now cert.now }
    ensures { IfOk result (IsRating t.now cert.now) }
{
    let mut image = Cube::new(alloc, t.atoms.len() as u32)?;
    match bad_list(t, &cert.layers, &cert.far, &mut image) {
        Some((list, Spot::Goal { cube })) => Ok(Rated::FarGoal { list, cube }),
        Some((list, Spot::NotSure { cube, act })) => Ok(Rated::FarAct { list, cube, act }),
        None => match met(t, cert) {
            Some(rank) => Ok(Rated::Least { rank }),
            None => Ok(Rated::Bound),
        },
    }
}

/// The verdict on a certificate: its rank, or its first fault. Tests each layer, rule, item and far list once, and visits no state.
/// Takes the time of `check` for the layers, rules and items; for each cube of a far list, that of a cube of a layer.
pub fn rate(alloc: Global, t: &Task, cert: &BestCert) -> Result<Rated, NoMemory>
    requires { BelongsAsBest t.now cert.now }
    ensures { IfOk result (IsRating t.now cert.now) }
{
    if let Some(fault) = rule_fault(alloc, t, cert)? {
        return Ok(fault);
    }
    if let Some(fault) = cover_fault(alloc, t, cert)? {
        return Ok(fault);
    }
    match first_bad_rank(t, cert) {
        Some(at) => Ok(Rated::Rank { at }),
        None => far_verdict(alloc, t, cert),
    }
}

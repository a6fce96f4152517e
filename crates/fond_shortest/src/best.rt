//! Finding a policy of least rank, with the proof that none has a smaller one.

ghost use Rattle.fond_explicit.specs.Answers.{AreStuck};
ghost use Rattle.fond_explicit.specs.Wholes.{IsSplit};
ghost use Rattle.fond_layers.specs.Over.{AreOver};
ghost use Rattle.fond_planner.specs.Decisions.{IsGoodCert};
ghost use Rattle.fond_shortest.specs.Bests.{IsBestAnswer, IsGoodBest, IsRefusal, IsRightTry};
ghost use Rattle.fond_task.specs.Certificates.{LiesInLayers};
ghost use Rattle.fond_task.specs.Layers.{AreSureLayers};
ghost use Rattle.std.specs.Prelude.{◌≡◌, ◌≤◌, length, Decides, IfOk, IsTrue};

use crate::answer::BestAnswer;
use crate::board::Board;
use crate::propose::{Bounds, Proposal, bounds_by, propose};
use crate::test::is_right;
use fond_draft::source::Source;
use fond_explicit::answer::Choices;
use fond_explicit::whole::{Whole, solve_all};
use fond_layers::layers::Layers;
use fond_planner::decide::{Decision, decide_with};
use fond_planner::lost::small_layers;
use fond_policy::best::BestCert;
use fond_policy::cert::Cert;
use fond_task::task::Task;
use fond_text::fault::NoMemory;
use std::alloc::Global;

/// A certificate that was tried, or the bounds of one that is not right.
#[derive(Drop)]
enum Tried {
    Right(BestCert),
    Wrong(Bounds),
}

/// Whether the initial state lies in a layer.
fn is_lost(t: &Task, layers: &Layers) -> bool
    ensures over { IsTrue result → AreOver (length t.now.atoms) layers.now }
    ensures lies { IsTrue result → LiesInLayers t.now.init layers.now }
{
    layers.are_over(t.atoms.len()) && layers.dead(&t.init).is_some()
}

/// Whether the certificate is a refusal.
fn is_refusal(cert: &Cert) -> bool
    ensures { Decides result (IsRefusal cert.now) }
{
    matches!(cert, Cert::Refusal { .. })
}

/// The refusal of sure layers, in one of which the initial state lies.
fn refusal_by(t: &Task, layers: Layers) -> Cert
    requires sure { AreSureLayers t.now layers }
    requires over { AreOver (length t.now.atoms) layers }
    requires lies { LiesInLayers t.now.init layers }
    ensures good { IsGoodCert t.now result }
    ensures refusal { IsRefusal result }
{
    layers.read_sizes();
    Cert::Refusal { layers }
}

/// A refusal: of few cubes if the planner finds one, or else these layers.
fn refusal<S: Source>(
    alloc: Global,
    t: &Task,
    budget: u32,
    layers: Layers,
) -> Result<Cert, NoMemory>
    requires few { budget ≤ 1000000 }
    requires stuck { AreStuck t.now t.now.init layers }
    requires over { AreOver (length t.now.atoms) layers }
    requires lies { LiesInLayers t.now.init layers }
    ensures good { IfOk result (IsGoodCert t.now) }
    ensures refusal { IfOk result IsRefusal }
{
    if let Decision::Certified(cert) = decide_with::<S>(alloc, t, budget)? {
        if is_refusal(&cert) {
            return Ok(cert);
        }
    }
    Ok(refusal_by(t, layers))
}

/// A proposal with these bounds, if the checker accepts it.
fn attempt(
    alloc: Global,
    t: &Task,
    board: &Board,
    choices: &Choices,
    bounds: Bounds,
    shortens: bool,
) -> Result<Tried, NoMemory>
    ensures { IfOk result (IsRightTry t.now) }
{
    match propose(alloc, t, board, choices, bounds, shortens)? {
        Proposal::Nothing(bounds) => Ok(Tried::Wrong(bounds)),
        Proposal::Cert(cert) => {
            if is_right(alloc, t, &cert)? {
                return Ok(Tried::Right(cert));
            }
            let BestCert { layers, far, .. } = cert;
            Ok(Tried::Wrong(Bounds { layers, far }))
        }
    }
}

/// A certificate of least rank of a task with these choices and layers: of rules with short conditions, or else of rules for single
/// states. `NoMemory` is reported, too, if the checker accepts neither; no proof says that this does not happen.
fn least<S: Source>(
    alloc: Global,
    t: &Task,
    choices: &Choices,
    layers: Layers,
) -> Result<BestCert, NoMemory>
    requires { AreStuck t.now t.now.init layers }
    ensures { IfOk result (IsGoodBest t.now) }
{
    let board = Board::new(alloc, t, choices)?;
    let layers = small_layers::<S>(alloc, t, layers)?;
    let bounds = bounds_by(alloc, t, &board, layers)?;
    match attempt(alloc, t, &board, choices, bounds, true)? {
        Tried::Right(cert) => Ok(cert),
        Tried::Wrong(bounds) => match attempt(alloc, t, &board, choices, bounds, false)? {
            Tried::Right(cert) => Ok(cert),
            Tried::Wrong(_) => Err(NoMemory),
        },
    }
}

/// A policy of least rank with a proof that none has a smaller one, or a refusal, or that more than `budget` states are reachable. Opens
/// all states and takes the time of `solve_all`; that of a search for far lists, which looks at a state once for each list that needs a
/// cube for it; and that of making rules, a cover and the test of both. A refusal takes the time of `decide_with` after `solve_all`.
pub fn best<S: Source>(alloc: Global, t: &Task, budget: u32) -> Result<BestAnswer, NoMemory>
    requires { budget ≤ 1000000 }
    ensures { IfOk result (IsBestAnswer t.now budget) }
{
    let Whole::Split(choices, layers) = solve_all(alloc, t, budget)? else {
        return Ok(BestAnswer::Undecided);
    };
    if is_lost(t, &layers) {
        return Ok(BestAnswer::Refusal(refusal::<S>(alloc, t, budget, layers)?));
    }
    Ok(BestAnswer::Least(least::<S>(alloc, t, &choices, layers)?))
}

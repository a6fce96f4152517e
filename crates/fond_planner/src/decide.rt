//! Deciding a task.

ghost use Rattle.fond_covering.specs.Coverings.{IsCovering};
ghost use Rattle.fond_planner.specs.Decisions.{IsDecision, IsPast, IsGoodCert};
ghost use Rattle.fond_draft.specs.Drafts.{IsDraft};
ghost use Rattle.fond_planner.specs.Ends.{IsEnd};
ghost use Rattle.fond_planner.specs.Planners.{IsPlanner};
ghost use Rattle.fond_task.specs.Certificates.{LiesInLayers};
ghost use Rattle.fond_policy.specs.Walks.{HasUnruled};
ghost use Rattle.fond_regress.specs.Stable.{IsHopeless, IsHopelessBy};
ghost use Rattle.std.specs.Prelude.{◌≡◌, ◌<◌, ◌≤◌, ◌^◌, None, All, [], length, IfOk, IfSome, OnOk};

use crate::planner::Planner;
use crate::walk::Round;
use fond_covering::cover::{cover_by_states, take_items};
use fond_covering::covering::Covering;
use fond_draft::draft::Draft;
use fond_draft::source::Source;
use fond_layers::layers::{Layer, Layers};
use fond_policy::cert::Cert;
use fond_policy::items::Items;
use fond_regress::estimate::{Guess, estimate};
use fond_rules::rules::Rules;
use fond_state::cube::Cube;
use fond_task::task::Task;
use fond_text::fault::NoMemory;
use std::alloc::Global;

/// What is decided about a task: a certificate, or nothing within the budget.
#[derive(Drop)]
pub enum Decision {
    Certified(Cert),
    Undecided,
}

/// Reads the number of rules, whose type keeps that it is below 2^32.
fn read_count(rules: &Rules)
    ensures { length rules.now < 2 ^ 32 }
{
    let _count = rules.len();
}

/// The refusal of a draft, in one of whose layers the initial state lies.
fn refusal_of(t: &Task, draft: Draft) -> Cert
    requires draft { IsDraft t.now draft }
    requires lies { LiesInLayers t.now.init draft.layers }
    ensures { IsGoodCert t.now result }
{
    draft.layers.read_sizes();
    Cert::Refusal {
        layers: draft.layers,
    }
}

/// The certificate of a draft with items that cover what its rules reach.
fn policy_of(t: &Task, draft: Draft, covering: Covering) -> Cert
    requires draft { IsDraft t.now draft }
    requires covering { IsCovering t.now draft.rules covering.items covering.start }
    ensures { IsGoodCert t.now result }
{
    draft.layers.read_sizes();
    read_count(&draft.rules);
    Cert::Covered {
        layers: draft.layers,
        pairs: draft.pairs,
        rules: draft.rules,
        items: covering.items,
        start: covering.start,
    }
}

/// A cover of what the rules of a draft reach: these items, if they pass their test, or else one by all these states.
fn cover_of(
    alloc: Global,
    t: &Task,
    draft: &Draft,
    sketched: Option<Items>,
) -> Result<Option<Covering>, NoMemory>
    requires { IsDraft t.now draft.now }
    ensures found { IfOk result (λ found. IfSome found (λ covering. IsCovering t.now draft.now.rules covering.items covering.start)) }
    ensures none { IfOk result (λ found. found ≡ None → HasUnruled t.now draft.now.rules) }
{
    read_count(&draft.rules);
    if let Some(items) = sketched {
        if let Some(covering) = take_items(alloc, t, &draft.rules, items)? {
            return Ok(Some(covering));
        }
    }
    cover_by_states(alloc, t, &draft.pairs, &draft.rules)
}

/// A cover of what the rules of a draft reach, unless they are stale or there are fresh pairs, and if a rule holds in each of these
/// states that is no goal.
fn finished(
    alloc: Global,
    t: &Task,
    draft: &Draft,
    stale: bool,
    sketched: Option<Items>,
) -> Result<Option<Covering>, NoMemory>
    requires { IsDraft t.now draft.now }
    ensures found { IfOk result (λ found. IfSome found (λ covering. IsCovering t.now draft.now.rules covering.items covering.start)) }
    ensures fresh { IfOk result (λ found. IfSome found (λ covering. draft.now.fresh.items ≡ [])) }
{
    if stale || !draft.fresh.is_empty() {
        return Ok(None);
    }
    cover_of(alloc, t, draft, sketched)
}

/// How the making of a policy ends.
#[derive(Drop)]
enum End {
    /// The rules are a policy, and these items cover the states that it reaches.
    Policy(Covering),
    /// The initial state lies in a layer.
    Refusal,
    /// More states are reachable than the budget.
    Past,
}

impl<S: Source> Planner<'_, S> {
    /// Makes rules in rounds, and begins again without rules whenever a round barred an action, until a rule holds in each reached
    /// state that is no goal. Each further round has more pairs than the one before, or walks where that one sketched, or follows a plan
    /// that made the rules needless: `NoMemory` is reported after a round that achieved none of this.
    fn finish(&mut self, alloc: Global) -> Result<End, NoMemory>
        requires { IsPlanner self.old }
        ensures draft { OnOk result (IsDraft self.old.task.now self.new.draft) }
        ensures end { IfOk result (IsEnd self.old.task.now self.old.budget self.new.draft) }
    {
        let mut achieved = self.achieved();
        loop {
            let sketched = match self.round(alloc)? {
                Round::Walked(items) => items,
                Round::Lost => return Ok(End::Refusal),
                Round::Past => return Ok(End::Past),
            };
            if let Some(covering) = finished(alloc, self.task, &self.draft, self.stale, sketched)? {
                return Ok(End::Policy(covering));
            }
            self.next_round(alloc)?;
            let before = achieved;
            achieved = self.achieved();
            if achieved <= before {
                return Err(NoMemory);
            }
        }
    }
}

/// The refusal of a task whose initial state is hopeless by this cube. Its one layer is the cube.
fn hopeless_refusal(alloc: Global, t: &Task, cube: Cube) -> Result<Cert, NoMemory>
    requires { IsHopelessBy t.now t.now.init cube }
    ensures { IfOk result (IsGoodCert t.now) }
{
    let mut layer = Layer::new(alloc);
    layer.push(cube)?;
    let mut layers = Layers::new(alloc);
    layers.add_raw(layer)?;
    Ok(Cert::Refusal { layers })
}

/// What is decided about a task whose initial state is not hopeless, when the making of a policy ends so with this draft.
fn decision_of(t: &Task, budget: u32, draft: Draft, end: End) -> Decision
    requires draft { IsDraft t.now draft }
    requires end { IsEnd t.now budget draft end }
    requires hope { ¬ IsHopeless t.now t.now.init }
    ensures { IsDecision t.now budget result }
{
    match end {
        End::Policy(covering) => Decision::Certified(policy_of(t, draft, covering)),
        End::Refusal => Decision::Certified(refusal_of(t, draft)),
        End::Past => Decision::Undecided,
    }
}

/// Decides a task whose initial state is not hopeless.
fn decide_by_rounds<S: Source>(alloc: Global, t: &Task, budget: u32) -> Result<Decision, NoMemory>
    requires few { budget ≤ 1000000 }
    requires hope { ¬ IsHopeless t.now t.now.init }
    ensures { IfOk result (IsDecision t.now budget) }
{
    let mut planner = Planner::<S>::new(alloc, t, budget)?;
    let end = planner.finish(alloc)?;
    Ok(decision_of(t, budget, planner.draft, end))
}

/// Decides a task within a budget of opened states: a correct and lean certificate of a policy, or a correct one of
/// unsolvability, or that more states are reachable than the budget. A hopeless initial state is refused without opening any.
/// Takes the time of `estimate`; then, for the initial state and for each reached state without a rule that no earlier choices list
/// and that lies in no layer that was kept, that of `solve` with few states, of searches whose work is counted, and of `solve` with
/// the budget only if these settle nothing; and that of a walk through the states that the policy reaches, once more after each
/// walk that bars actions.
pub fn decide_with<S: Source>(alloc: Global, t: &Task, budget: u32) -> Result<Decision, NoMemory>
    requires { budget ≤ 1000000 }
    ensures { IfOk result (IsDecision t.now budget) }
{
    match estimate(alloc, t, &t.init)? {
        Guess::Never(cube) => Ok(Decision::Certified(hopeless_refusal(alloc, t, cube)?)),
        Guess::Reach(_) => decide_by_rounds::<S>(alloc, t, budget),
    }
}

//! How much each part of planning may do, in one place. A unit of work is an update of the relaxation or of a list of a search: a
//! million of them take some 6 ms on the machine of docs/PERFORMANCE.md, in which 1,000 to 3,000 states are opened. Nothing rests on
//! these numbers but how long planning takes, and which of several policies is found.

ghost use Rattle.std.specs.Prelude.{◌<◌, ◌≤◌};

use fond_draft::source::Effort;
use fond_layers::layers::Layers;
use fond_task::task::Task;

/// How many states are opened before the source is first asked. If no action is unfair, plans make policies that are as small as those
/// from opened states, so only tiny tasks are decided without. If some are, opened states make smaller ones, which is worth a few
/// milliseconds.
const FAIR_STATES: u32 = 100;

const OPPOSED_STATES: u32 = 1000;

/// The most states that are opened before the source is first asked.
const MOST_QUICK: u32 = 50000;

/// What the searches of the first two stages may do for each action: an evaluation takes longer with more actions, and some hundred of
/// them come before goals are counted.
const WORK_OF_ACT: u64 = 4000;

/// How many states are sought at most, one after the other, for the sake of one.
pub(crate) const SEEKS: u32 = 100000;

/// How many layers are proposed at most for the sake of one state.
pub(crate) const LAYERS: u32 = 100000;

/// What a stage of finding out about a state may do: how many states it opens, with how many rules it still asks the source for more,
/// and what the searches of the source may do.
#[derive(Clone, Copy)]
pub(crate) struct Stage {
    pub(crate) states: u32,
    pub(crate) rules: u32,
    pub(crate) effort: Effort,
}

/// Whether an opponent picks the outcome of some action.
pub(crate) fn has_opponent(t: &Task) -> bool {
    for act in &t.acts {
        if act.unfair {
            return true;
        }
    }
    false
}

/// How many states are opened before the source is first asked.
pub(crate) fn quick_states(opposed: bool) -> u32 {
    if opposed { OPPOSED_STATES } else { FAIR_STATES }
}

/// How many states are opened before the source is asked about the next state, if it was this many for one. They double where an
/// opponent picks: the more states have to be found out about, the more pays what opened states tell about all of them.
pub(crate) fn next_quick(opposed: bool, quick: u32) -> u32 {
    if opposed {
        quick.saturating_mul(2).min(MOST_QUICK)
    } else {
        quick
    }
}

/// A stage in which this many states may be opened, of which searches may expand fewer and make so many rules, with this much work for
/// plans and for layers.
fn stage_of(opened: u32, rules: u32, expanded: u32, work: u64, layers: u64) -> Stage {
    Stage {
        states: opened,
        rules,
        effort: Effort {
            states: expanded,
            work,
            layers,
        },
    }
}

/// The work of the searches of the first two stages, with so many actions.
fn first_work(acts: usize) -> u64 {
    (acts as u64).saturating_mul(WORK_OF_ACT).max(30000000)
}

/// The stages before the last one of a task with so many actions that are all fair. Searches may take several times as long as opening
/// the states of the stage after them: their plans make rules for states that need never be opened.
fn fair_stage(number: u32, quick: u32, acts: usize) -> Stage {
    match number {
        0 => stage_of(quick, u32::MAX, 4000, first_work(acts), 4000000),
        1 => stage_of(10000, u32::MAX, 4000, first_work(acts), 20000000),
        _ => stage_of(50000, u32::MAX, 20000, 150000000, 100000000),
    }
}

/// The stages before the last one of a task with so many actions, some of them unfair. Opened states make far fewer rules than searches
/// there, so searches that make many end early, and more states are opened before long ones.
fn opposed_stage(number: u32, quick: u32, acts: usize) -> Stage {
    match number {
        0 => stage_of(quick, 200, 4000, 10000000, 5000000),
        1 => stage_of(50000, 2000, 4000, first_work(acts), 20000000),
        _ => stage_of(250000, u32::MAX, 20000, 150000000, 100000000),
    }
}

/// Whether more than a quarter of the states that were reached within a budget were never opened. Such a task reaches many new
/// states from each, and a budget that is some times as large mostly settles nothing either.
pub(crate) fn is_crowded(opened: u32, budget: u32) -> bool {
    opened / 3 < budget / 4
}

/// The stage of this number, of the three before the last one, if the first one opens `quick` states.
pub(crate) fn stage_at(number: u32, opposed: bool, quick: u32, acts: usize, budget: u32) -> Stage
    ensures { result.states ≤ budget }
{
    let mut stage = if opposed {
        opposed_stage(number, quick, acts)
    } else {
        fair_stage(number, quick, acts)
    };
    stage.states = stage.states.min(budget);
    stage.effort.states = stage.effort.states.min(budget);
    stage
}

/// The last one: the searches may do this once opening as many states as the budget was too few.
pub(crate) fn last_stage(budget: u32) -> Stage
    ensures { result.states ≤ budget }
{
    Stage {
        states: budget,
        rules: u32::MAX,
        effort: Effort {
            states: budget,
            work: 20000000000,
            layers: 2000000000,
        },
    }
}

/// The number of cubes in some layers.
fn count_cubes(layers: &Layers) -> usize {
    let mut count: usize = 0;
    for number in 0..layers.len() {
        count = count.saturating_add(layers.get(number).len());
    }
    count
}

/// What may be done to find layers for states that are known to be lost, and lie in these layers of full cubes.
pub(crate) fn lost_effort(layers: &Layers) -> Effort {
    let cubes = count_cubes(layers) as u64;
    Effort {
        states: u32::MAX,
        work: 0,
        layers: 2000000u64.saturating_add(cubes.saturating_mul(2000)),
    }
}

/// How many states a walk goes through: 4,000,000, or as many as take 1 GiB for their truth values, but more than any budget.
pub(crate) fn walk_limit(t: &Task) -> u32
    ensures { 1000000 < result }
{
    let words = t.atoms.len() / 64 + 1;
    let fitting = ((1usize << 27) / words).min(4000000) as u32;
    fitting.max(1000001)
}

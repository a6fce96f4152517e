//! The breadth-first walk through the states that a policy reaches.

ghost use Rattle.fond_policy.specs.Counts.{ReachesMore};
ghost use Rattle.fond_reach.specs.Graphs.{IsGraph};
ghost use Rattle.std.specs.Prelude.{◌≡◌, ◌≤◌, ◌∷◌, [], length, MatchOption, IfOk};

use crate::chooser::Chooser;
use crate::node::Node;
use crate::successors::node_of;
use fond_policy::walk::one_state;
use fond_state::state::State;
use fond_store::store::Store;
use fond_task::task::Task;
use fond_text::fault::NoMemory;
use std::alloc::Global;

/// The states that a policy reaches, in the order of a breadth-first walk from the initial state, and the node of each.
#[derive(Drop)]
pub struct Reached {
    pub states: Store,
    pub nodes: Vec<Node>,
}

/// The two states that a walk overwrites: the one that it visits, and one to which the choice leads from there.
#[derive(Drop)]
struct Scratch {
    state: State,
    next: State,
}

/// The scratch of a walk that has not begun: its states are the initial one.
fn scratch_of(alloc: Global, t: &Task) -> Result<Scratch, NoMemory>
    ensures { IfOk result (λ scratch. (scratch.state ≡ t.now.init) × (scratch.next ≡ t.now.init)) }
{
    Ok(Scratch {
        state: t.init.copy(alloc)?,
        next: t.init.copy(alloc)?,
    })
}

/// Walks on from the initial state, which is the only one of the states, and adds those that are reached. The nodes of all states,
/// or none if there are more states than the limit. `scratch` is overwritten.
fn walk_on<C: Chooser>(
    alloc: Global,
    t: &Task,
    chooser: &C,
    limit: u32,
    scratch: &mut Scratch,
    states: &mut Store,
) -> Result<Option<Vec<Node>>, NoMemory>
    requires task { C.task chooser.now ≡ t.now }
    requires long { length scratch.old.state ≡ length t.now.atoms }
    requires next_long { length scratch.old.next ≡ length t.now.atoms }
    requires first { states.old ≡ t.now.init ∷ [] }
    ensures { IfOk result (λ found. MatchOption found (ReachesMore t.now (C.policy chooser.now) limit)
        (λ nodes. IsGraph t.now (C.policy chooser.now) states.new nodes.items × (length states.new ≤ limit))) }
{
    let mut nodes = Vec::new(alloc);
    let mut at = 0;
    while at < states.len() {
        if states.len() > limit {
            return Ok(None);
        }
        scratch.state.copy_from(states.get(at));
        nodes.push(node_of(alloc, t, chooser, &scratch.state, &mut scratch.next, states)?)?;
        at += 1;
    }
    if states.len() > limit {
        return Ok(None);
    }
    Ok(Some(nodes))
}

/// Walks on as `walk_on` does, with a scratch of its own.
fn walk_from<C: Chooser>(
    alloc: Global,
    t: &Task,
    chooser: &C,
    limit: u32,
    states: &mut Store,
) -> Result<Option<Vec<Node>>, NoMemory>
    requires task { C.task chooser.now ≡ t.now }
    requires first { states.old ≡ t.now.init ∷ [] }
    ensures { IfOk result (λ found. MatchOption found (ReachesMore t.now (C.policy chooser.now) limit)
        (λ nodes. IsGraph t.now (C.policy chooser.now) states.new nodes.items × (length states.new ≤ limit))) }
{
    let mut scratch = scratch_of(alloc, t)?;
    walk_on(alloc, t, chooser, limit, &mut scratch, states)
}

/// What the choices reach from the initial state, unless these are more states than the limit. Asks for the choice in each state
/// once. Takes time in the number of atoms and in the size of the chosen action for each state, and memory for the states, of which
/// at most 256 are past the limit, with a number for each outcome.
pub fn reach<C: Chooser>(
    alloc: Global,
    t: &Task,
    chooser: &C,
    limit: u32,
) -> Result<Option<Reached>, NoMemory>
    requires { C.task chooser.now ≡ t.now }
    ensures { IfOk result (λ found. MatchOption found (ReachesMore t.now (C.policy chooser.now) limit)
        (λ reached. IsGraph t.now (C.policy chooser.now) reached.states reached.nodes.items × (length reached.states ≤ limit))) }
{
    let mut states = one_state(alloc, &t.init)?;
    let Some(nodes) = walk_from(alloc, t, chooser, limit, &mut states)? else {
        return Ok(None);
    };
    Ok(Some(Reached { states, nodes }))
}

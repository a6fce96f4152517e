//! Deciding a task from a state on, with a bound on the number of states.

ghost use Rattle.fond_explicit.specs.Answers.{IsRight};
ghost use Rattle.fond_explicit.specs.Filings.{IsIndexOf};
ghost use Rattle.fond_explicit.specs.Openings.{IsSpaceFrom};
ghost use Rattle.std.specs.Prelude.{◌≡◌, ◌<◌, ◌≤◌, ◌-◌, ◌^◌, List, Bool, length, IfOk};

use crate::act_index::ActIndex;
use crate::answer::Solved;
use crate::decide::decide;
use crate::filing::index_of;
use crate::opening::open_batch;
use crate::space::{Scratch, Space};
use fond_fixpoint::moves::Moves;
use fond_state::state::State;
use fond_store::store::Store;
use fond_task::task::Task;
use fond_text::fault::NoMemory;
use std::alloc::Global;

/// The space of one state, which is not opened.
pub(crate) fn begin(alloc: Global, t: &Task, from: &State) -> Result<Space, NoMemory>
    requires { length from.now ≡ length t.now.atoms }
    ensures space { IfOk result (IsSpaceFrom t.now from.now) }
    ensures one { IfOk result (λ space. length space.states ≡ 1) }
{
    let first = from.copy(alloc)?;
    let mut states = Store::new(alloc);
    states.add(first)?;
    Ok(Space {
        states,
        moves: Moves::new(alloc),
        opened: 0,
    })
}

/// Opens states breadth first in batches that double, until the opened ones decide the first or there is no room.
fn open_all(
    alloc: Global,
    t: &Task,
    index: &ActIndex,
    space: &mut Space,
    budget: u32,
    scratch: &mut Scratch,
) -> Result<Solved, NoMemory>
    requires few { length space.old.states ≤ budget }
    requires small { budget < 2 ^ 32 - 1 }
    requires index { IsIndexOf t.now index.now }
    requires next_long { length scratch.old.next ≡ length t.now.atoms }
    requires space { (from : List Bool) × IsSpaceFrom t.now from space.old }
    ensures { IfOk result (λ solved. (from : List Bool) → IsSpaceFrom t.now from space.old → IsRight t.now from budget solved) }
{
    let mut acts = Vec::new(alloc);
    'batches: loop {
        let has_room = open_batch(alloc, t, index, space, budget, scratch, &mut acts)?;
        if let Some(solved) = decide(alloc, t, space)? {
            return Ok(solved);
        }
        if !has_room {
            return Ok(Solved::Spent);
        }
    }
}

/// Decides a task from a state on as `solve` does, by an index of its actions, which a caller may keep for more states. `opened`
/// becomes the number of states that were opened.
pub fn solve_by(
    alloc: Global,
    t: &Task,
    index: &ActIndex,
    from: &State,
    budget: u32,
    opened: &mut u32,
) -> Result<Solved, NoMemory>
    requires few { budget ≤ 1000000 }
    requires index { IsIndexOf t.now index.now }
    requires long { length from.now ≡ length t.now.atoms }
    ensures { IfOk result (IsRight t.now from.now budget) }
{
    if budget == 0 {
        return Ok(Solved::Spent);
    }
    let mut scratch = Scratch::new(alloc, from)?;
    let mut space = begin(alloc, t, from)?;
    let solved = open_all(alloc, t, index, &mut space, budget, &mut scratch)?;
    *opened = space.opened;
    Ok(solved)
}

/// Decides a task from a state on, or finds that more than `budget` states are reachable. States are opened breadth first in
/// batches that double, and after each batch the nested fixpoint runs over what is opened. Takes time in the number of the
/// states opened and of their moves, times the number of atoms, and in that of the moves times that of the rounds in which
/// states fall. At most `budget` states are kept.
pub fn solve(alloc: Global, t: &Task, from: &State, budget: u32) -> Result<Solved, NoMemory>
    requires few { budget ≤ 1000000 }
    requires long { length from.now ≡ length t.now.atoms }
    ensures { IfOk result (IsRight t.now from.now budget) }
{
    let index = index_of(alloc, t)?;
    let mut opened = 0;
    solve_by(alloc, t, &index, from, budget, &mut opened)
}

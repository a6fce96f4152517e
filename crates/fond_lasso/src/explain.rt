//! A policy judged.
//!
//! The states that the policy reaches are the nodes of a flat game: chance picks among the edges of a fair action, and the opponent
//! among those of an unfair one (Geffner and Geffner 2018). If a node is a dead end, a shortest walk to it shows that. Otherwise, if each
//! node has a level, the levels are the least ranking: with fair actions alone, the policy is a strong cyclic solution, and with
//! unfair ones alone a strong one (Cimatti et al. 2003). From a node without a level, chance and the opponent can keep a play among such
//! nodes, and a tour of the edges that they use is the cycle of a lasso.
//!
//! Takes the time and memory of `reach`, and those of `levels`. A lasso of n reached states takes at most 2 n + 3 tables of hops
//! besides, of which two are kept at a time.

ghost use Rattle.fond_lasso.specs.Explained.{IsFinding};
ghost use Rattle.std.specs.Prelude.{◌≡◌, ◌<◌, ◌^◌, IfOk};

use crate::finding::Finding;
use crate::flat::{first_stuck, graph_of, kinds_of};
use crate::judge::{Judged, judge};
use crate::stem::stem_to;
use fond_reach::chooser::Chooser;
use fond_reach::reached::reach;
use fond_task::task::Task;
use fond_text::fault::NoMemory;
use std::alloc::Global;

/// What is found out about the choices, unless these reach more states than the limit.
pub fn explain<C: Chooser>(
    alloc: Global,
    t: &Task,
    chooser: &C,
    limit: u32,
) -> Result<Finding, NoMemory>
    requires small { limit < 2 ^ 31 }
    requires task { C.task chooser.now ≡ t.now }
    ensures { IfOk result (IsFinding t.now (C.policy chooser.now) limit) }
{
    let Some(reached) = reach(alloc, t, chooser, limit)? else {
        return Ok(Finding::Spent);
    };
    let states = reached.states;
    let kinds = kinds_of(alloc, t, &reached.nodes)?;
    let stuck = first_stuck(&reached.nodes);
    let graph = graph_of(alloc, reached.nodes)?;
    if let Some(node) = stuck {
        let stem = stem_to(alloc, &graph, node)?;
        return Ok(Finding::Stuck { states, stem });
    }
    match judge(alloc, &kinds, &graph)? {
        Judged::Levelled(levels) => Ok(Finding::Ranked { states, levels }),
        Judged::Held { stem, cycle } => Ok(Finding::Lasso {
            states,
            stem,
            cycle,
        }),
    }
}

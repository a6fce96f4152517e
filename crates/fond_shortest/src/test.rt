//! The test of a proposal.

ghost use Rattle.fond_shortest.specs.Bests.{IsGoodBest};
ghost use Rattle.std.specs.Prelude.{◌<◌, ◌^◌, All, Decides, IfOk, IsTrue};

use fond_best::belongs::does_belong;
use fond_best::rate::rate;
use fond_best::rated::Rated;
use fond_policy::best::{BestCert, Ranks};
use fond_task::task::Task;
use fond_text::fault::NoMemory;
use std::alloc::Global;

/// Whether no rank is the greatest number of 64 bits, which stands for none.
fn are_ranks(ranks: &Ranks) -> bool
    ensures { IsTrue result → All (λ rank. rank < 2 ^ 64) ranks.now }
{
    ranks.as_slice().iter().all(|rank| *rank < u64::MAX)
}

/// Whether the checker accepts a certificate. Takes the time of `rate`.
pub(crate) fn is_right(alloc: Global, t: &Task, cert: &BestCert) -> Result<bool, NoMemory>
    ensures { IfOk result (λ right. IsTrue right → IsGoodBest t.now cert.now) }
{
    if !does_belong(t, cert) || !are_ranks(&cert.ranks) {
        return Ok(false);
    }
    match rate(alloc, t, cert)? {
        Rated::Least { .. } => Ok(true),
        _ => Ok(false),
    }
}

//! What is found of the least rank of a task.

use fond_policy::best::BestCert;
use fond_policy::cert::Cert;

/// A certificate of least rank, a refusal, or nothing within the budget.
#[derive(Drop)]
pub enum BestAnswer {
    Least(BestCert),
    Refusal(Cert),
    Undecided,
}

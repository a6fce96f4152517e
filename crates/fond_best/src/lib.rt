//! Policies of least rank: how many lucky steps a task needs at worst, with a policy that needs no more and a proof that none needs
//! fewer. A certificate has both, and is tested here; finding one is left to the crates above.
#![tactic(auto)]

pub mod belongs;
pub mod laws;
mod ranked;
pub mod rate;
pub mod rated;
pub mod text;

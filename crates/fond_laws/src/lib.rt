//! The laws of replies: what follows for the answers of the tool to the same files, such as that `check` accepts what `plan` prints.
//! They rest on the laws that what is planned and what is checked is the same: three texts are read as at most one task, and the
//! ground tasks of a task are the same to certificates. Beside them is the law of policies: lassos and rankings characterize the
//! solutions among the finite maps of a task. No program needs these laws, so they stand above the tool.
#![tactic(auto)]

pub mod policies;
pub mod replies;
pub mod same;

//! The checker of certificates. It accepts a certificate if and only if it is correct, and otherwise reports the first
//! part that is not, with its place. It knows nothing of how a certificate was found; that a correct one proves its claim
//! is a law of fond_task.
#![tactic(auto)]

pub mod check;
pub mod items;
pub mod laws;
mod lean;
pub mod parts;
pub mod text;
pub mod verdict;

//! The text of certificates, of tables and of certificates of least rank. A text is read as what it spells over the actions and atoms
//! of a task, or refused with the code and the byte of its first fault; a certificate is printed in its one spelling, as a whole or
//! in pieces. Whether a certificate is correct is left to others.
#![tactic(auto)]

pub mod code;
mod draft;
mod due;
pub mod error;
mod field;
mod grow;
mod item;
pub mod laws;
mod lines;
mod listing;
mod literal;
mod place;
pub mod print;
mod put;
mod ranked;
pub mod read;
mod reading;
mod target;
mod task_index;
pub mod text;
mod values;

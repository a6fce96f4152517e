//! Lists in which the first item that matches a state counts (`Ordered`), such as lists of rules over partial states and tables; forbidden
//! pairs of a partial state and an action (Muise, McIlraith and Beck, Improved non-deterministic planning by exploiting state
//! relevance, 2012). Rules and pairs are tested for being sure and lean: `lean` is about any conditions that pass a test, and would
//! not without any one of their literals. Stepping through the states of a task, and reading and writing certificates, are
//! left to the crates above.
#![tactic(auto)]

mod groups;
pub mod laws;
pub mod lean;
pub mod ordered;
pub mod pad;
pub mod pair_test;
pub mod pairs;
pub mod rule_test;
pub mod rules;
pub mod selector;
pub mod sure_pairs;
pub mod sure_rules;
pub mod table;

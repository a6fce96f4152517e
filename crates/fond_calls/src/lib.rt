//! Calls that no worked example of the tool makes, with ample memory: of public functions that none reaches, and of
//! `print_cert` with a certificate of version 1. The clauses say what a call gives, and a test that it succeeds. What the
//! worked examples of fond_rows call has no test here. The crate holds tests and nothing else, since a crate that has tests
//! is proved twice.
#![tactic(auto)]

#[cfg(test)]
mod cert_tests;
#[cfg(test)]
mod coin;
#[cfg(test)]
mod edge_tests;
#[cfg(test)]
mod exec_tests;
#[cfg(test)]
mod explicit_tests;
#[cfg(test)]
mod law_tests;
#[cfg(test)]
mod reader_tests;
#[cfg(test)]
mod regress_tests;
#[cfg(test)]
mod text_tests;
#[cfg(test)]
mod walk_tests;
#[cfg(test)]
mod weak_tests;

use crate::coin::ground_coin;
use fond_cert::error::CertError;
use fond_cert::print::{print_best, print_cert};
use fond_cert::read::{read_best, read_cert, read_table};
use fond_task::task::Task;
use std::alloc::Global;
use std::test::Fail;

/// A policy for the coin, with the number of states that it reaches.
const POLICY: &[u8] = b"dualfond 1 policy\nrule (flip) fair 0 goal :\nreach 2\nend\n";

/// A certificate of least rank for the coin.
const BEST: &[u8] =
    b"dualfond 2 best\nrule (flip) fair 0 goal :\nitem 0 rank 1 1 0 :\nitem goal : +(heads)\nstart 0\nfar\ncube -(heads)\nend\n";

/// A table for the coin.
const TABLE: &[u8] = b"table 1\ndo (flip) : -(heads)\nend\n";

/// The text of the certificate that a text spells.
fn printed(alloc: Global, task: &Task, text: &[u8]) -> Result<Vec<u8>, CertError> {
    let cert = read_cert(alloc, task, text)?;
    Ok(print_cert(alloc, task, &cert)?)
}

#[test]
fn a_policy_with_a_reach_number_is_printed(rt: HostRuntime) -> Result<(), Fail> {
    let coin = ground_coin(rt.alloc())?;
    let text = printed(rt.alloc(), &coin, POLICY)?;
    assert!(rt; text.as_slice() == POLICY);
    Ok(())
}

/// The text of the certificate of least rank that a text spells.
fn best_printed(alloc: Global, task: &Task, text: &[u8]) -> Result<Vec<u8>, CertError> {
    let cert = read_best(alloc, task, text)?;
    Ok(print_best(alloc, task, &cert)?)
}

#[test]
fn a_certificate_of_least_rank_is_printed(rt: HostRuntime) -> Result<(), Fail> {
    let coin = ground_coin(rt.alloc())?;
    let text = best_printed(rt.alloc(), &coin, BEST)?;
    assert!(rt; text.as_slice() == BEST);
    Ok(())
}

#[test]
fn a_table_has_the_row_of_its_text(rt: HostRuntime) -> Result<(), Fail> {
    let coin = ground_coin(rt.alloc())?;
    let table = read_table(rt.alloc(), &coin, TABLE)?;
    assert!(rt; table.len() == 1);
    Ok(())
}

//! The certificates that `demo` prints, which `check` accepts.

use crate::error::RowError;
use crate::question::{Outside, Told, ask_line, put_file};
use crate::rows::CHECK;
use fond_demo::demo::{DemoFiles, demo_files};
use fond_edge::lists::ShelfFiles;
use fond_text::fault::NoMemory;
use std::alloc::Global;

/// The sizes, each with its word and with the lines before the certificate.
const SIZES: [(u64, &str, &str); 5] = [
    (2, "2", "demo 2\natoms 5\nactions 4\n"),
    (12, "12", "demo 12\natoms 25\nactions 24\n"),
    (13, "13", "demo 13\natoms 26\nactions 25\n"),
    (40, "40", "demo 40\natoms 53\nactions 52\n"),
    (100, "100", "demo 100\natoms 113\nactions 112\n"),
];

/// The line of `check` for a lean policy.
const ACCEPTED: &[u8] = b"accepted policy lean\n";

/// What `demo` answers to a size.
fn shown(alloc: Global, word: &str) -> Result<Told, NoMemory> {
    ask_line(
        alloc,
        &["demo", word],
        ShelfFiles::new(alloc),
        Outside::CALM,
    )
}

/// The certificate in what `demo` answers: it stands between these lines and the line of `check`.
fn cert_in<'a>(told: &'a Told, head: &str) -> Option<&'a [u8]> {
    if told.status != 0 {
        return None;
    }
    let rest = told.text.as_slice().strip_prefix(head.as_bytes())?;
    rest.strip_suffix(ACCEPTED)
}

/// Adds the files of a size, and a certificate.
fn put_demo(
    alloc: Global,
    demo: &DemoFiles,
    cert: &[u8],
    files: &mut ShelfFiles,
) -> Result<(), NoMemory> {
    put_file(alloc, "domain", demo.domain.as_slice(), files)?;
    put_file(alloc, "problem", demo.problem.as_slice(), files)?;
    put_file(alloc, "side", demo.side.as_slice(), files)?;
    put_file(alloc, "cert", cert, files)
}

/// What `check` says of a certificate over the files of a size.
fn checked(alloc: Global, demo: &DemoFiles, cert: &[u8]) -> Result<Told, NoMemory> {
    let mut files = ShelfFiles::new(alloc);
    put_demo(alloc, demo, cert, &mut files)?;
    ask_line(alloc, &CHECK, files, Outside::CALM)
}

/// Whether `check` accepts a certificate for the task of this size.
fn is_accepted(alloc: Global, size: u64, cert: &[u8]) -> Result<bool, NoMemory> {
    if size > 100 {
        return Ok(false);
    }
    let demo = demo_files(alloc, size)?;
    Ok(checked(alloc, &demo, cert)?.is(0, ACCEPTED))
}

/// Whether `demo` answers this size with these lines, a certificate that `check` accepts, and the line of `check`.
fn is_right(alloc: Global, size: u64, word: &str, head: &str) -> Result<bool, NoMemory> {
    let told = shown(alloc, word)?;
    match cert_in(&told, head) {
        Some(cert) => is_accepted(alloc, size, cert),
        None => Ok(false),
    }
}

/// Asks for each size, and prints how many there are and which are answered otherwise.
pub fn run(rt: &impl Print, alloc: Global) -> Result<(), RowError> {
    for (size, word, head) in SIZES {
        if !is_right(alloc, size, word, head)? {
            println!(rt; "demo {word} is answered otherwise")?;
        }
    }
    println!(rt; "demo and check of its certificate: {} rows", SIZES.len())?;
    Ok(())
}

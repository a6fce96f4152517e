//! Texts that are cut off before each of their bytes, and sinks that have room for a front of a text alone.

use crate::error::RowError;
use crate::question::{Outside, Told, ask_line, put_file};
use crate::row::put_files;
use crate::rows::CHECK;
use fond_edge::lists::ShelfFiles;
use std::alloc::Global;
use std::str;
use toml::{Table, Value};

/// A policy for the coin.
const POLICY: &str = "dualfond 1 policy\nrule (flip) fair 0 goal :\nreach 2\nend\n";

/// What `plan` prints for the coin.
const PLANNED: &str =
    "dualfond 2 policy\nrule (flip) fair 0 goal :\nitem 0 1 0 :\nitem goal : +(heads)\nstart 0\nend\n";

/// The words of `run` over five files.
const RUN: [&str; 6] = ["run", "domain", "problem", "side", "cert", "script"];

/// The words of `plan` over three files.
const PLAN: [&str; 5] = ["plan", "domain", "problem", "side", "10"];

/// The words of `succ` over two files.
const SUCC: [&str; 4] = ["succ", "domain", "problem", "(flip)"];

/// What is asked of the coin: words, and a file beside those of the task.
#[derive(Clone, Copy)]
struct Cut<'a> {
    coin: &'a Table,
    words: &'a [&'a str],
    name: &'a str,
    text: &'a str,
}

/// How many bytes the lines that end in this text have together.
fn lines_end(text: &str) -> usize {
    match text.rsplit_once('\n') {
        Some((_, rest)) => text.len().saturating_sub(rest.len()),
        None => 0,
    }
}

/// The first bytes of a text.
fn front_of(text: &str, count: usize) -> Result<&str, RowError> {
    text.get(..count).ok_or(RowError::Lacks("front of a text"))
}

/// Adds the file of a cut and those of the coin. Of two with one name the first counts.
fn put_cut(alloc: Global, cut: Cut<'_>, files: &mut ShelfFiles) -> Result<(), RowError> {
    put_file(alloc, cut.name, cut.text.as_bytes(), files)?;
    put_file(alloc, "script", b"", files)?;
    put_files(alloc, cut.coin, files)
}

/// The answer over the files of the coin and one more.
fn told_of(alloc: Global, cut: Cut<'_>, outside: Outside) -> Result<Told, RowError> {
    let mut files = ShelfFiles::new(alloc);
    put_cut(alloc, cut, &mut files)?;
    Ok(ask_line(alloc, cut.words, files, outside)?)
}

/// Prints the answer to a cut if it has not this status and this text.
fn compare(rt: &impl Print, told: &Told, status: u8, text: &str) -> Result<(), RowError> {
    if !told.is(status, text.as_bytes()) {
        let said = str::from_utf8(told.text.as_slice()).unwrap_or("");
        println!(rt; "wanted: {status} {text}answered: {} {said}", told.status)?;
    }
    Ok(())
}

/// A certificate that is cut off is rejected at the line that is not whole.
fn cut_policy(rt: &impl Print, alloc: Global, cut: Cut<'_>) -> Result<(), RowError> {
    let told = told_of(alloc, cut, Outside::CALM)?;
    let answer = format!(in alloc; "rejected C1 at {}\n", lines_end(cut.text))?;
    compare(rt, &told, 7, answer.as_str())
}

/// The certificate of the coin is cut off before each of its bytes.
fn cut_policies<'a>(
    rt: &impl Print,
    alloc: Global,
    coin: &'a Table,
    words: &'a [&'a str],
) -> Result<(), RowError> {
    for count in 0..POLICY.len() {
        let text = front_of(POLICY, count)?;
        let cut = Cut {
            coin,
            words,
            name: "cert",
            text,
        };
        cut_policy(rt, alloc, cut)?;
    }
    let word = words.first().copied().unwrap_or("");
    println!(rt; "{word} of a policy that is cut off: {} rows", POLICY.len())?;
    Ok(())
}

/// A domain that is cut off is refused at its end.
fn cut_domain(rt: &impl Print, alloc: Global, cut: Cut<'_>) -> Result<(), RowError> {
    let told = told_of(alloc, cut, Outside::CALM)?;
    let line = cut.text.split('\n').count();
    let column = cut
        .text
        .len()
        .saturating_sub(lines_end(cut.text))
        .saturating_add(1);
    let answer = format!(in alloc; "refused domain {line} {column} F3\n")?;
    compare(rt, &told, 3, answer.as_str())
}

/// The domain of the coin is cut off after each of its bytes but the last one.
fn cut_domains(rt: &impl Print, alloc: Global, coin: &Table) -> Result<(), RowError> {
    let domain = coin.get("domain").and_then(Value::as_str).unwrap_or("");
    let domain = domain.trim_end();
    for count in 1..domain.len() {
        let text = front_of(domain, count)?;
        let cut = Cut {
            coin,
            words: &SUCC,
            name: "domain",
            text,
        };
        cut_domain(rt, alloc, cut)?;
    }
    println!(rt;
        "succ of a domain that is cut off: {} rows",
        domain.len().saturating_sub(1)
    )?;
    Ok(())
}

/// A sink with too little room takes the front of a text that fits.
fn small_room(rt: &impl Print, alloc: Global, cut: Cut<'_>, room: usize) -> Result<(), RowError> {
    let outside = Outside {
        room,
        ..Outside::CALM
    };
    let told = told_of(alloc, cut, outside)?;
    compare(rt, &told, 6, front_of(PLANNED, room)?)
}

/// The policy of the coin is written into each room that is too small.
fn small_rooms(rt: &impl Print, alloc: Global, coin: &Table) -> Result<(), RowError> {
    let cut = Cut {
        coin,
        words: &PLAN,
        name: "side",
        text: "",
    };
    for room in 0..PLANNED.len() {
        small_room(rt, alloc, cut, room)?;
    }
    println!(rt;
        "plan into a room that is too small: {} rows",
        PLANNED.len()
    )?;
    Ok(())
}

/// Asks for each cut, and prints how many there are and which are answered otherwise.
pub fn run(rt: &impl Print, alloc: Global, tasks: &Table) -> Result<(), RowError> {
    let Some(Value::Table(coin)) = tasks.get("coin") else {
        return Err(RowError::Lacks("task of the coin"));
    };
    cut_policies(rt, alloc, coin, &CHECK)?;
    cut_policies(rt, alloc, coin, &RUN)?;
    cut_domains(rt, alloc, coin)?;
    small_rooms(rt, alloc, coin)
}

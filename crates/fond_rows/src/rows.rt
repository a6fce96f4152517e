//! Running the rows of a file.

use crate::error::RowError;
use crate::question::{Outside, Told, ask_line, put_file};
use crate::row::Row;
use std::alloc::Global;
use std::str;
use toml::{Table, Value};

/// The words of `check` over four files.
pub const CHECK: [&str; 5] = ["check", "domain", "problem", "side", "cert"];

/// A file of rows, and the tasks that rows may name.
#[derive(Clone, Copy)]
pub struct Rows<'a> {
    pub file: &'a str,
    pub tasks: &'a Table,
}

/// The list of this key.
fn list_of<'a>(table: &'a Table, key: &'static str) -> Result<&'a [Value], RowError> {
    match table.get(key) {
        Some(Value::Array(list)) => Ok(list.as_slice()),
        _ => Err(RowError::Lacks(key)),
    }
}

/// What `check` says of a certificate over the files of a row, or the command that the row has as its judge.
fn checked(alloc: Global, row: Row<'_>, cert: &[u8]) -> Result<Told, RowError> {
    let mut files = row.files(alloc)?;
    put_file(alloc, "cert", cert, &mut files)?;
    let [check, domain, problem, side, last] = CHECK;
    let words = [
        row.text("judge").unwrap_or(check),
        domain,
        problem,
        side,
        last,
    ];
    Ok(ask_line(alloc, &words, files, Outside::CALM)?)
}

/// Whether the judge of the row answers this verdict to a certificate over the files of a row.
fn is_checked(alloc: Global, row: Row<'_>, cert: &[u8], verdict: &str) -> Result<bool, RowError> {
    Ok(checked(alloc, row, cert)?.is(0, verdict.as_bytes()))
}

/// Whether a text is that of the row, or begins with the row's head if it has one.
fn is_text(row: Row<'_>, text: &[u8]) -> Result<bool, RowError> {
    if let Some(head) = row.text("head") {
        return Ok(text.starts_with(head.as_bytes()));
    }
    Ok(text == row.text("text").ok_or(RowError::Lacks("text"))?.as_bytes())
}

/// Whether what was told is the answer of the row: it has its status, and its text or a certificate with the verdict that the row
/// has for it.
fn is_answer(alloc: Global, row: Row<'_>, told: &Told) -> Result<bool, RowError> {
    let status = row.number("status").ok_or(RowError::Lacks("status"))?;
    if u64::from(told.status) != status {
        return Ok(false);
    }
    let text = told.text.as_slice();
    match row.text("checked") {
        Some(verdict) => is_checked(alloc, row, text, verdict),
        None => is_text(row, text),
    }
}

impl<'a> Rows<'a> {
    /// Prints what was told to a row that has another answer.
    fn print_wrong(&self, rt: &impl Print, row: Row<'_>, told: &Told) -> Result<(), RowError> {
        let topic = row.text("topic").unwrap_or("");
        let name = row.text("name").unwrap_or("");
        let text = str::from_utf8(told.text.as_slice()).unwrap_or("");
        println!(rt;
            "{}: {topic}: row {} {name}: {} {text}",
            self.file, row.number, told.status
        )?;
        Ok(())
    }

    /// Asks what a row asks, and prints the answer if it is not the row's.
    fn run_row(&self, rt: &impl Print, alloc: Global, row: Row<'_>) -> Result<(), RowError> {
        let told = row.told(alloc)?;
        if !is_answer(alloc, row, &told)? {
            self.print_wrong(rt, row, &told)?;
        }
        Ok(())
    }

    /// Prints how many rows a topic has.
    fn print_count(&self, rt: &impl Print, topic: &Table, count: usize) -> Result<(), RowError> {
        let name = topic.get("topic").and_then(Value::as_str).unwrap_or("");
        println!(rt; "{}: {name}: {count} rows", self.file)?;
        Ok(())
    }

    /// Runs the rows of a topic, and prints how many there are.
    fn run_topic(&self, rt: &impl Print, alloc: Global, topic: &Table) -> Result<(), RowError> {
        let rows = list_of(topic, "row")?;
        for (number, own) in rows.iter().enumerate() {
            let row = Row {
                tasks: self.tasks,
                topic,
                own: own.as_table().ok_or(RowError::Lacks("table of a row"))?,
                number,
            };
            self.run_row(rt, alloc, row)?;
        }
        self.print_count(rt, topic, rows.len())
    }

    /// Runs the rows of each topic.
    pub fn run(&self, rt: &impl Print, alloc: Global, table: &Table) -> Result<(), RowError> {
        for topic in list_of(table, "topic")? {
            let topic = topic.as_table().ok_or(RowError::Lacks("table of a topic"))?;
            self.run_topic(rt, alloc, topic)?;
        }
        Ok(())
    }
}

//! A row: words and files, and what the tool has to answer. A topic says what its rows have in common.

use crate::error::RowError;
use crate::question::{Outside, Told, ask, put_file};
use fond_edge::lists::ShelfFiles;
use fond_text::fault::NoMemory;
use fond_text::word::Word;
use std::alloc::Global;
use toml::{Table, Value};

/// A row of a topic, and its number there, counted from 0. What the row does not say, its topic says.
#[derive(Clone, Copy)]
pub struct Row<'a> {
    pub tasks: &'a Table,
    pub topic: &'a Table,
    pub own: &'a Table,
    pub number: usize,
}

/// Adds the files of a table, of which each key is a name and each value a text.
pub fn put_files(alloc: Global, table: &Table, files: &mut ShelfFiles) -> Result<(), RowError> {
    for (name, text) in table.iter() {
        let text = text.as_str().ok_or(RowError::Lacks("text of a file"))?;
        put_file(alloc, name.as_str(), text.as_bytes(), files)?;
    }
    Ok(())
}

/// Adds the files of a table's `files`.
fn put_files_of(alloc: Global, table: &Table, files: &mut ShelfFiles) -> Result<(), RowError> {
    match table.get("files") {
        Some(Value::Table(own)) => put_files(alloc, own, files),
        Some(_) => Err(RowError::Lacks("table of files")),
        None => Ok(()),
    }
}

/// Adds so many opening parentheses.
fn put_opened(count: u64, text: &mut Vec<u8>) -> Result<(), NoMemory> {
    for _ in 0..count {
        text.push(b'(')?;
    }
    Ok(())
}

/// Adds a domain of a front and so many opening parentheses.
fn put_domain(
    alloc: Global,
    front: &str,
    count: u64,
    files: &mut ShelfFiles,
) -> Result<(), NoMemory> {
    let mut domain = Vec::from_slice(alloc, front.as_bytes())?;
    put_opened(count, &mut domain)?;
    put_file(alloc, "domain", domain.as_slice(), files)
}

/// Adds the words of a list.
fn put_words(alloc: Global, list: &[Value], words: &mut Vec<Word>) -> Result<(), RowError> {
    for word in list {
        let word = word.as_str().ok_or(RowError::Lacks("text of a word"))?;
        words.push(Word::copy(alloc, word.as_bytes())?)?;
    }
    Ok(())
}

impl<'a> Row<'a> {
    fn value(&self, key: &str) -> Option<&'a Value> {
        match self.own.get(key) {
            Some(value) => Some(value),
            None => self.topic.get(key),
        }
    }

    /// The text of this key.
    pub fn text(&self, key: &str) -> Option<&'a str> {
        self.value(key)?.as_str()
    }

    /// The number of this key.
    pub fn number(&self, key: &str) -> Option<u64> {
        u64::try_from(self.value(key)?.as_integer()?).ok()
    }

    /// The size of this key, or else this one.
    fn size(&self, key: &str, calm: usize) -> usize {
        match self.number(key) {
            Some(number) => usize::try_from(number).unwrap_or(calm),
            None => calm,
        }
    }

    /// What is outside the tool.
    pub fn outside(&self) -> Outside {
        Outside {
            bad_read: self.number("bad_read"),
            bad_write: self.number("bad_write"),
            room: self.size("room", Outside::CALM.room),
            piece: self.size("piece", Outside::CALM.piece),
        }
    }

    /// The words of the command line, one by one.
    fn line(&self) -> Result<&'a [Value], RowError> {
        let line = self.value("words").ok_or(RowError::Lacks("words"))?;
        let line = line.as_array().ok_or(RowError::Lacks("list of words"))?;
        Ok(line.as_slice())
    }

    /// Adds the files of the task that the row names, if it names one.
    fn put_task(&self, alloc: Global, files: &mut ShelfFiles) -> Result<(), RowError> {
        let Some(name) = self.text("task") else {
            return Ok(());
        };
        match self.tasks.get(name) {
            Some(Value::Table(task)) => put_files(alloc, task, files),
            _ => Err(RowError::Lacks("task")),
        }
    }

    /// Adds the files of the shelf. Of two with one name the first counts.
    fn put_shelf(&self, alloc: Global, files: &mut ShelfFiles) -> Result<(), RowError> {
        if let Some(count) = self.number("opened") {
            put_domain(alloc, self.text("front").unwrap_or(""), count, files)?;
        }
        put_files_of(alloc, self.own, files)?;
        put_files_of(alloc, self.topic, files)?;
        self.put_task(alloc, files)
    }

    /// The files of the shelf.
    pub fn files(&self, alloc: Global) -> Result<ShelfFiles, RowError> {
        let mut files = ShelfFiles::new(alloc);
        self.put_shelf(alloc, &mut files)?;
        Ok(files)
    }

    /// The answer to these words over the files of the row.
    fn told_to(&self, alloc: Global, words: &[Word]) -> Result<Told, RowError> {
        let files = self.files(alloc)?;
        Ok(ask(alloc, words, files, self.outside())?)
    }

    /// What the tool answers to the row.
    pub fn told(&self, alloc: Global) -> Result<Told, RowError> {
        let mut words = Vec::new(alloc);
        put_words(alloc, self.line()?, &mut words)?;
        self.told_to(alloc, words.as_slice())
    }
}

//! What the tool is asked, and what it answers over a shelf and a sink in memory.

use fond_edge::lists::{Calls, ShelfFiles};
use fond_edge::memory_shelf::MemoryShelf;
use fond_edge::memory_sink::MemorySink;
use fond_edge::shelf::ShelfFile;
use fond_text::bytes::Bytes;
use fond_text::fault::NoMemory;
use fond_text::word::Word;
use fond_tool::tool::run_tool;
use std::alloc::Global;

/// What is outside the tool: the numbers of the read and of the write that fail, how many bytes the sink has room for, and how many
/// of them it takes at a time, which is at least one.
#[derive(Clone, Copy)]
pub struct Outside {
    pub bad_read: Option<u64>,
    pub bad_write: Option<u64>,
    pub room: usize,
    pub piece: usize,
}

impl Outside {
    /// Nothing fails, and the sink has room for each text.
    pub const CALM: Outside = Outside {
        bad_read: None,
        bad_write: None,
        room: 65536,
        piece: 7,
    };
}

/// What the tool answered: the number of its status, and what it wrote.
#[derive(Drop)]
pub struct Told {
    pub status: u8,
    pub text: Bytes,
}

impl Told {
    /// Whether the answer has this status and this text.
    pub fn is(&self, status: u8, text: &[u8]) -> bool {
        self.status == status && self.text.as_slice() == text
    }
}

/// Adds a file to a shelf.
pub fn put_file(
    alloc: Global,
    name: &str,
    bytes: &[u8],
    files: &mut ShelfFiles,
) -> Result<(), NoMemory> {
    let name = Word::copy(alloc, name.as_bytes())?;
    let bytes = Bytes::copy(alloc, bytes)?;
    files.push(ShelfFile { name, bytes })
}

/// The list of a call, if there is one.
fn calls(alloc: Global, call: Option<u64>) -> Result<Calls, NoMemory> {
    let mut calls = Calls::new(alloc);
    if let Some(call) = call {
        calls.push(call)?;
    }
    Ok(calls)
}

/// The sink of what is outside.
fn sink_of(alloc: Global, outside: Outside) -> Result<MemorySink, NoMemory> {
    let failing = calls(alloc, outside.bad_write)?;
    MemorySink::new(alloc, outside.room, outside.piece.max(1), failing)
}

/// The answer to these words over this shelf and into this sink.
fn answer(
    alloc: Global,
    words: &[Word],
    shelf: &mut MemoryShelf,
    sink: &mut MemorySink,
) -> Result<Told, NoMemory> {
    let status = run_tool(alloc, words, shelf, sink).number();
    let text = Bytes::copy(alloc, sink.bytes())?;
    Ok(Told { status, text })
}

/// The answer to these words over this shelf.
fn answer_over(
    alloc: Global,
    words: &[Word],
    shelf: &mut MemoryShelf,
    outside: Outside,
) -> Result<Told, NoMemory> {
    let mut sink = sink_of(alloc, outside)?;
    answer(alloc, words, shelf, &mut sink)
}

/// The answer to these words over these files.
pub fn ask(
    alloc: Global,
    words: &[Word],
    files: ShelfFiles,
    outside: Outside,
) -> Result<Told, NoMemory> {
    let failing = calls(alloc, outside.bad_read)?;
    let mut shelf = MemoryShelf::new(files, failing);
    answer_over(alloc, words, &mut shelf, outside)
}

/// Adds the words of a line.
fn put_words(alloc: Global, line: &[&str], words: &mut Vec<Word>) -> Result<(), NoMemory> {
    for word in line {
        words.push(Word::copy(alloc, word.as_bytes())?)?;
    }
    Ok(())
}

/// The answer to the words of this line over these files.
pub fn ask_line(
    alloc: Global,
    line: &[&str],
    files: ShelfFiles,
    outside: Outside,
) -> Result<Told, NoMemory> {
    let mut words = Vec::new(alloc);
    put_words(alloc, line, &mut words)?;
    ask(alloc, words.as_slice(), files, outside)
}

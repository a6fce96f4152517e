use fond_edge::host_shelf::HostShelf;
use fond_edge::host_sink::HostSink;
use fond_edge::lists::Calls;
use fond_edge::memory_sink::MemorySink;
use fond_edge::pen::Pen;
use fond_edge::send::{WriteFault, send};
use fond_edge::shelf::{FetchFault, Shelf};
use fond_edge::sink::Sink;
use fond_text::fault::NoMemory;
use fond_text::word::Word;
use std::alloc::Global;
use std::fs;
use std::fs::File;
use std::test::Fail;

/// Whether a pen can write a piece twice into a sink with this room, and how many bytes it writes.
fn penned(alloc: Global, room: usize, piece: &[u8]) -> Result<(bool, usize), NoMemory> {
    let mut sink = MemorySink::new(alloc, room, 1000, Calls::new(alloc))?;
    let could = put_twice(&mut sink, piece).is_ok();
    Ok((could, sink.bytes().len()))
}

/// Puts a piece twice.
fn put_twice(sink: &mut MemorySink, piece: &[u8]) -> Result<(), WriteFault> {
    let mut pen = Pen::new();
    pen.put(sink, piece)?;
    pen.put(sink, piece)?;
    pen.finish(sink)
}

#[test]
fn a_pen_writes_more_than_it_collects(rt: HostRuntime) -> Result<(), Fail> {
    assert!(rt; penned(rt.alloc(), 10000, &[b'a'; 5000])? == (true, 10000));
    assert!(rt; penned(rt.alloc(), 9000, &[b'a'; 5000])? == (false, 9000));
    Ok(())
}

/// A text with what a shelf of the host appends to it from a file of this name, which has another text.
fn appended(rt: HostRuntime, name: &str, text: &str) -> Result<Vec<u8>, Fail> {
    let alloc = rt.alloc();
    let mut into = Vec::from_slice(alloc, b"old ")?;
    let word = Word::copy(alloc, name.as_bytes())?;
    fs::write(&rt, name, text)?;
    let mut shelf = HostShelf::new(rt);
    let found = shelf.fetch(alloc, &word, &mut into);
    fs::remove_file(&rt, name)?;
    found?;
    Ok(into)
}

#[test]
fn a_file_of_the_host_is_fetched(rt: HostRuntime) -> Result<(), Fail> {
    let text = appended(rt, "a_file_of_the_host_is_fetched.txt", "new")?;
    assert_eq!(rt; text.as_slice(), b"old new".as_slice());
    Ok(())
}

/// Whether a shelf of the host fails to fetch a file of this name, and appends nothing.
fn fails(rt: HostRuntime, name: &[u8]) -> Result<bool, Fail> {
    let alloc = rt.alloc();
    let mut into = Vec::new(alloc);
    let word = Word::copy(alloc, name)?;
    let mut shelf = HostShelf::new(rt);
    let found = shelf.fetch(alloc, &word, &mut into);
    Ok(found == Err(FetchFault::Failed) && into.is_empty())
}

#[test]
fn names_of_no_file_of_the_host_fail(rt: HostRuntime) -> Result<(), Fail> {
    let names: [&[u8]; 4] = [b"no_such_file.txt", b"/", b"a\0b", b"\xff"];
    for name in names {
        assert!(rt; fails(rt, name)?);
    }
    Ok(())
}

#[test]
fn a_sink_of_the_host_takes_a_text(rt: HostRuntime) -> Result<(), Fail> {
    let mut sink = HostSink::new(File::options().write(true).open(&rt, "/dev/null")?);
    send(&mut sink, b"abc")?;
    Ok(())
}

#[test]
fn a_full_sink_of_the_host_fails(rt: HostRuntime) -> Result<(), Fail> {
    let mut full = HostSink::new(File::options().write(true).open(&rt, "/dev/full")?);
    assert_eq!(rt; full.write(b""), Ok(0));
    assert!(rt; full.write(b"abc").is_err());
    Ok(())
}

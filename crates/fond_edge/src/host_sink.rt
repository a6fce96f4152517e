//! A writer of the host as a sink.

ghost use Rattle.std.specs.Prelude.{◌≡◌, ◌<◌, ◌≤◌, None, Ok, length, take, IfOk, OnOk, OnErr};
ghost use Rattle.std.specs.Io.KnownBytes.{Appends};
ghost use Rattle.fond_edge.specs.Faults.{Rose};
ghost use Rattle.fond_edge.specs.Calls.{one_more};

use crate::counter::one_more;
use crate::sink::{Failed, Sink};
use std::io::Write;
use std::marker::Model;

/// Passes bytes to a writer and counts its faults. The writer is flushed at each write, so that an error of a
/// buffering writer is reported by the write that caused it.
#[derive(Drop)]
pub struct HostSink<W: Write> {
    out: W,
    faults: u64,
}

impl<W: Write> Model for HostSink<W> {
    ghost use Rattle.fond_edge.specs.HostSinkState.{HostSinkState};

    ghost Value = { HostSinkState };

    ghost view = { λ s. record { contents = W.contents s.out; faults = s.faults } };
}

impl<W: Write + Drop> HostSink<W> {
    /// A sink over this writer, without faults so far. It takes no memory.
    pub fn new(out: W) -> HostSink<W>
        ensures { result ≡ record { contents = W.contents out; faults = 0 } }
    {
        HostSink { out, faults: 0 }
    }
}

/// Writes a prefix of the bytes to the writer and flushes it. Returns the length of the prefix, or 0 after an
/// error.
fn pass<W: Write>(out: &mut W, b: &[u8]) -> usize
    ensures most { result ≤ length b.now }
    ensures handed { 0 < result → Appends (W.contents out.old) (W.contents out.new) (take result b.now) }
{
    match out.write(b) {
        Ok(count) => match out.flush() {
            Ok(()) => count,
            Err(_) => 0,
        },
        Err(_) => 0,
    }
}

impl<W: Write + Drop> Sink for HostSink<W> {
    ghost written = { λ _. None };

    ghost faults = { λ s. s.faults };

    fn write(&mut self, b: &[u8]) -> Result<usize, Failed>
        ensures most { IfOk result (λ n. n ≤ length b.now) }
        ensures some { IfOk result (λ n. 0 < length b.now → 0 < n) }
        ensures counted { self.old.faults ≤ self.new.faults }
        ensures rose { OnErr result (Rose self.old.faults self.new.faults) }
        ensures raised { OnErr result (self.new.faults ≡ one_more self.old.faults) }
        ensures calm { OnOk result (self.new.faults ≡ self.old.faults) }
        ensures empty { length b.now ≡ 0 → (result ≡ Ok 0) × (self.new ≡ self.old) }
        ensures handed { IfOk result (λ n. 0 < n → Appends self.old.contents self.new.contents (take n b.now)) }
    {
        if b.is_empty() {
            return Ok(0);
        }
        let count = pass(&mut self.out, b);
        if count == 0 {
            self.faults = one_more(self.faults);
            return Err(Failed);
        }
        Ok(count)
    }
}

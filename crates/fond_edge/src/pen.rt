//! Writing in pieces.

ghost use Rattle.std.specs.Prelude.{◌≡◌, ◌≤◌, ◌+◌, List, ◌++◌, [], true, false, length, OnOk, OnErr};
ghost use Rattle.fond_edge.specs.Faults.{Rose};
ghost use Rattle.fond_edge.specs.Pens.{flow, IsPut, IsLost, Adds};
ghost use Rattle.fond_edge.specs.Written.{Appended, AppendedPart};

use crate::send::{WriteFault, send};
use crate::sink::Sink;
use std::marker::Model;

/// The most pending bytes.
const SIZE: usize = 4096;

/// Collects bytes on their way to a sink, so that the sink is written in large pieces. A pen that has failed writes
/// nothing more.
#[derive(Drop)]
pub struct Pen {
    buffer: [u8; SIZE],
    len: usize,
    has_failed: bool,
}

impl Model for Pen {
    ghost use Rattle.std.specs.Prelude.{◌≤◌, take};
    ghost use Rattle.fond_edge.specs.PenState.{PenState};

    ghost Value = { PenState };

    ghost view = { λ p. record { pending = take p.len p.buffer; failed = p.has_failed } };

    ghost invariant = { λ p. p.len ≤ 4096 };
}

impl Pen {
    /// A pen without pending bytes. It takes no memory.
    pub fn new() -> Pen
        ensures { result ≡ record { pending = []; failed = false } }
    {
        Pen {
            buffer: [0; SIZE],
            len: 0,
            has_failed: false,
        }
    }

    /// Whether a put has failed.
    pub fn has_failed(&self) -> bool
        ensures { result ≡ self.now.failed }
    {
        self.has_failed
    }

    /// Adds bytes that fit to the pending bytes.
    fn keep(&mut self, b: &[u8])
        requires { length self.old.pending + length b.now ≤ 4096 }
        ensures { self.new ≡ record { pending = self.old.pending ++ b.now; failed = self.old.failed } }
    {
        let end = self.len + b.len();
        self.buffer[self.len..end].copy_from_slice(b);
        self.len = end;
    }

    /// Writes bytes straight to the sink. The buffer is empty and stays so.
    fn pass<K: Sink>(&mut self, sink: &mut K, b: &[u8]) -> Result<(), WriteFault>
        requires { self.old ≡ record { pending = []; failed = false } }
        ensures ok { OnOk result (Appended (K.written sink.old) (K.written sink.new) b.now) }
        ensures same { OnOk result (self.new ≡ record { pending = []; failed = false }) }
        ensures part { OnErr result (AppendedPart (K.written sink.old) (K.written sink.new) b.now) }
        ensures rose { OnErr result (Rose (K.faults sink.old) (K.faults sink.new)) }
        ensures failed { OnErr result (self.new.failed ≡ true) }
        ensures counted { K.faults sink.old ≤ K.faults sink.new }
    {
        let outcome = send(sink, b);
        self.has_failed = outcome.is_err();
        outcome
    }

    /// Writes the pending bytes.
    fn flush<K: Sink>(&mut self, sink: &mut K) -> Result<(), WriteFault>
        requires { self.old.failed ≡ false }
        ensures ok { OnOk result (Appended (K.written sink.old) (K.written sink.new) self.old.pending) }
        ensures clear { OnOk result (self.new ≡ record { pending = []; failed = false }) }
        ensures part { OnErr result (AppendedPart (K.written sink.old) (K.written sink.new) self.old.pending) }
        ensures rose { OnErr result (Rose (K.faults sink.old) (K.faults sink.new)) }
        ensures failed { OnErr result (self.new.failed ≡ true) }
        ensures counted { K.faults sink.old ≤ K.faults sink.new }
    {
        let outcome = send(sink, &self.buffer[..self.len]);
        self.len = 0;
        self.has_failed = outcome.is_err();
        outcome
    }

    /// Puts bytes: they are written at once or kept for a later write.
    pub fn put<K: Sink>(&mut self, sink: &mut K, b: &[u8]) -> Result<(), WriteFault>
        ensures ok { OnOk result (IsPut (flow (K.written sink.old) (K.faults sink.old) self.old)
            (flow (K.written sink.new) (K.faults sink.new) self.new) b.now) }
        ensures err { OnErr result (IsLost (flow (K.written sink.old) (K.faults sink.old) self.old)
            (flow (K.written sink.new) (K.faults sink.new) self.new) b.now) }
        ensures untouched { self.old.failed ≡ true → sink.new ≡ sink.old }
    {
        if self.has_failed {
            return Err(WriteFault);
        }
        if b.len() <= SIZE - self.len {
            self.keep(b);
            return Ok(());
        }
        self.flush(sink)?;
        if b.len() <= SIZE {
            self.keep(b);
            return Ok(());
        }
        self.pass(sink, b)
    }

    /// Puts bytes. A failure is remembered: a caller asks `has_failed` once, after the last bytes.
    pub fn add<K: Sink>(&mut self, sink: &mut K, b: &[u8])
        ensures adds { Adds (flow (K.written sink.old) (K.faults sink.old) self.old)
            (flow (K.written sink.new) (K.faults sink.new) self.new) b.now }
        ensures untouched { self.old.failed ≡ true → sink.new ≡ sink.old }
    {
        match self.put(sink, b) {
            Ok(()) => {}
            Err(_) => {}
        }
    }

    /// Writes the pending bytes, unless the pen has failed.
    pub fn finish<K: Sink>(self, sink: &mut K) -> Result<(), WriteFault>
        ensures ok { OnOk result (Appended (K.written sink.old) (K.written sink.new) self.pending) }
        ensures sound { OnOk result (self.failed ≡ false) }
        ensures part { self.failed ≡ false → OnErr result (AppendedPart (K.written sink.old) (K.written sink.new) self.pending) }
        ensures rose { self.failed ≡ false → OnErr result (Rose (K.faults sink.old) (K.faults sink.new)) }
        ensures still { self.failed ≡ true → OnErr result (K.written sink.new ≡ K.written sink.old) }
        ensures untouched { self.failed ≡ true → sink.new ≡ sink.old }
        ensures counted { K.faults sink.old ≤ K.faults sink.new }
    {
        let mut pen = self;
        if pen.has_failed {
            return Err(WriteFault);
        }
        pen.flush(sink)
    }
}

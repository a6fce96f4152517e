//! A sink in memory.

ghost use Rattle.std.specs.Prelude.{◌≡◌, ◌<◌, ◌≤◌, [], Some, Ok, true, false, length, take, IfOk, OnErr, IsErr};
ghost use Rattle.fond_edge.specs.Faults.{Rose};
ghost use Rattle.fond_edge.specs.Written.{Appended};
ghost use Rattle.fond_edge.specs.MemorySinkState.{refuses, taken, after_write};

use crate::counter::one_more;
use crate::lists::{Calls, contains};
use crate::sink::{Failed, Sink};
use fond_text::fault::NoMemory;
use std::alloc::Global;
use std::marker::Model;

/// A buffer of fixed room, allocated when the sink is made. A write takes at most one piece. It fails if its number
/// is listed, or if it has bytes and no room is left.
#[derive(Drop)]
pub struct MemorySink {
    written: Vec<u8>,
    room: usize,
    piece: usize,
    failing: Calls,
    calls: u64,
    faults: u64,
}

impl Model for MemorySink {
    ghost use Rattle.std.specs.Prelude.{◌<◌, ◌≤◌, vec_len, vec_capacity};
    ghost use Rattle.fond_edge.specs.MemorySinkState.{MemorySinkState};

    ghost Value = { MemorySinkState };

    ghost view = { λ s. record {
      written = s.written.items;
      room = s.room;
      piece = s.piece;
      failing = s.failing;
      calls = s.calls;
      faults = s.faults;
    } };

    ghost invariant = { λ s. (0 < s.piece) × (vec_len s.written ≤ s.room) × (s.room ≤ vec_capacity s.written) };
}

impl MemorySink {
    /// A sink before its first call, with room for this many bytes, of which a write takes at most one piece.
    pub fn new(
        alloc: Global,
        room: usize,
        piece: usize,
        failing: Calls,
    ) -> Result<MemorySink, NoMemory>
        requires { 0 < piece }
        ensures { IfOk result (λ sink. sink ≡ record {
          written = [];
          room = room;
          piece = piece;
          failing = failing;
          calls = 0;
          faults = 0;
        }) }
    {
        Ok(MemorySink {
            written: Vec::with_capacity(alloc, room)?,
            room,
            piece,
            failing,
            calls: 0,
            faults: 0,
        })
    }

    /// The bytes written so far.
    pub fn bytes(&self) -> &[u8]
        ensures { result.now ≡ self.now.written }
    {
        self.written.as_slice()
    }
}

impl Sink for MemorySink {
    ghost written = { λ s. Some s.written };

    ghost faults = { λ s. s.faults };

    fn write(&mut self, b: &[u8]) -> Result<usize, Failed>
        ensures most { IfOk result (λ n. n ≤ length b.now) }
        ensures some { IfOk result (λ n. 0 < length b.now → 0 < n) }
        ensures appended { IfOk result (λ n. Appended (Some self.old.written) (Some self.new.written) (take n b.now)) }
        ensures err { OnErr result (Some self.new.written ≡ Some self.old.written) }
        ensures counted { self.old.faults ≤ self.new.faults }
        ensures rose { OnErr result (Rose self.old.faults self.new.faults) }
        ensures after { self.new ≡ after_write self.old b.now }
        ensures refused { refuses self.old b.now ≡ true → IsErr result }
        ensures exact { refuses self.old b.now ≡ false → result ≡ Ok (taken self.old b.now) }
    {
        let left = self.room - self.written.len();
        let is_failing = contains(&self.failing, self.calls);
        self.calls = one_more(self.calls);
        if is_failing || !b.is_empty() && left == 0 {
            self.faults = one_more(self.faults);
            return Err(Failed);
        }
        let count = b.len().min(self.piece).min(left);
        match self.written.extend_from_slice(&b[..count]) {
            Ok(()) => Ok(count),
            Err(_) => Err(Failed),
        }
    }
}

//! The destination of text.

ghost use Rattle.std.specs.Prelude.{◌≡◌, ℕ, ◌<◌, ◌≤◌, List, Option, length, take, IfOk, OnErr};
ghost use Rattle.fond_edge.specs.Faults.{Rose};

/// A write failed. The sink counts none of its bytes as written.
#[derive(Clone, Copy, Debug, PartialEq, Eq)]
pub struct Failed;

/// A destination of bytes, which takes them in pieces of its own choice.
pub trait Sink {
    ghost use Rattle.fond_edge.specs.Written.{Appended};

    /// The bytes written to it so far, or `None` if it cannot tell.
    ghost written: { Self → Option (List ℕ) };

    /// The number of faults so far; the count saturates at 2^64 - 1.
    ghost faults: { Self → ℕ };

    /// Writes a prefix of the bytes and returns its length, which is positive unless there are none.
    fn write(&mut self, b: &[u8]) -> Result<usize, Failed>
        ensures most { IfOk result (λ n. n ≤ length b.now) }
        ensures some { IfOk result (λ n. 0 < length b.now → 0 < n) }
        ensures appended { IfOk result (λ n. Appended (written self.old) (written self.new) (take n b.now)) }
        ensures err { OnErr result (written self.new ≡ written self.old) }
        ensures counted { faults self.old ≤ faults self.new }
        ensures rose { OnErr result (Rose (faults self.old) (faults self.new)) };
}

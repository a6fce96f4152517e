//! Writing all bytes to a sink.

ghost use Rattle.std.specs.Prelude.{◌≤◌, OnOk, OnErr};
ghost use Rattle.fond_edge.specs.Faults.{Rose};
ghost use Rattle.fond_edge.specs.Written.{Appended, AppendedPart};

use crate::sink::Sink;

/// Only a proper prefix of the bytes was written.
#[derive(Clone, Copy, Debug, PartialEq, Eq)]
pub struct WriteFault;

/// Writes all the bytes, or fails after a proper prefix of them.
pub fn send<K: Sink>(sink: &mut K, b: &[u8]) -> Result<(), WriteFault>
    ensures ok { OnOk result (Appended (K.written sink.old) (K.written sink.new) b.now) }
    ensures part { OnErr result (AppendedPart (K.written sink.old) (K.written sink.new) b.now) }
    ensures counted { K.faults sink.old ≤ K.faults sink.new }
    ensures rose { OnErr result (Rose (K.faults sink.old) (K.faults sink.new)) }
{
    let mut rest = b;
    while !rest.is_empty() {
        match sink.write(rest) {
            Ok(n) => rest = &rest[n..],
            Err(_) => return Err(WriteFault),
        }
    }
    Ok(())
}

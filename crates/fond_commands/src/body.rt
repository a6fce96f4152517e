//! What is to be written.

ghost use Rattle.fond_edge.specs.Faults.{Rose};
ghost use Rattle.fond_edge.specs.Written.{Appended, AppendedPart};
ghost use Rattle.fond_commands.specs.Bodies.{body_text};
ghost use Rattle.std.specs.Prelude.{◌≡◌, ◌≤◌, IfOk, OnOk, OnErr};

use fond_cert::text::CertText;
use fond_edge::send::{WriteFault, send};
use fond_edge::sink::Sink;
use fond_text::fault::NoMemory;
use std::alloc::Global;

/// What is to be written: a text in memory, or the text of a certificate.
#[derive(Drop)]
pub enum Body {
    Held(Vec<u8>),
    Printed(CertText),
}

impl Body {
    /// Writes the text, or fails after a proper prefix of it.
    pub fn send<K: Sink>(&self, sink: &mut K) -> Result<(), WriteFault>
        ensures ok { OnOk result (Appended (K.written sink.old) (K.written sink.new) (body_text self.now)) }
        ensures part { OnErr result (AppendedPart (K.written sink.old) (K.written sink.new) (body_text self.now)) }
        ensures counted { K.faults sink.old ≤ K.faults sink.new }
        ensures rose { OnErr result (Rose (K.faults sink.old) (K.faults sink.new)) }
    {
        match self {
            Body::Held(text) => send(sink, text.as_slice()),
            Body::Printed(text) => text.send(sink),
        }
    }

    /// The text in memory.
    pub fn into_text(self, alloc: Global) -> Result<Vec<u8>, NoMemory>
        ensures { IfOk result (λ text. text.items ≡ body_text self) }
    {
        match self {
            Body::Held(text) => Ok(text),
            Body::Printed(text) => text.print(alloc),
        }
    }
}

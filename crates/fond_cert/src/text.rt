//! The text of a certificate, which is written without being held.

ghost use Rattle.fond_cert.specs.Spellings.{spelling};
ghost use Rattle.fond_edge.specs.Faults.{Rose};
ghost use Rattle.fond_edge.specs.Written.{Appended, AppendedPart};
ghost use Rattle.fond_policy.specs.Belongs.{Belongs};
ghost use Rattle.std.specs.Prelude.{◌≡◌, ◌≤◌, IfOk, OnOk, OnErr};

use crate::print::{print_cert, write_cert};
use fond_edge::send::WriteFault;
use fond_edge::sink::Sink;
use fond_policy::cert::Cert;
use fond_task::task::Task;
use fond_text::fault::NoMemory;
use std::alloc::Global;
use std::marker::Model;

/// The text of a certificate of a ground task. It is printed when it is written.
#[derive(Drop)]
pub struct CertText {
    game: Box<Task>,
    cert: Cert,
}

impl Model for CertText {
    ghost use Rattle.fond_cert.specs.Spellings.{spelling};
    ghost use Rattle.fond_policy.specs.Belongs.{Belongs};
    ghost use Rattle.std.specs.Prelude.{List, ℕ};

    ghost Value = { List ℕ };

    ghost view = { λ t. spelling t.game.value t.cert };

    ghost invariant = { λ t. Belongs t.game.value t.cert };
}

impl CertText {
    /// The text of this certificate. It takes no memory.
    pub fn new(game: Box<Task>, cert: Cert) -> CertText
        requires { Belongs game.value cert }
        ensures { result ≡ spelling game.value cert }
    {
        CertText { game, cert }
    }

    /// Writes the text in pieces, or fails after a proper prefix of it. It takes no memory.
    pub fn send<K: Sink>(&self, sink: &mut K) -> Result<(), WriteFault>
        ensures ok { OnOk result (Appended (K.written sink.old) (K.written sink.new) self.now) }
        ensures part { OnErr result (AppendedPart (K.written sink.old) (K.written sink.new) self.now) }
        ensures counted { K.faults sink.old ≤ K.faults sink.new }
        ensures rose { OnErr result (Rose (K.faults sink.old) (K.faults sink.new)) }
    {
        write_cert(&self.game, &self.cert, sink)
    }

    /// The text in memory.
    pub fn print(&self, alloc: Global) -> Result<Vec<u8>, NoMemory>
        ensures { IfOk result (λ text. text.items ≡ self.now) }
    {
        print_cert(alloc, &self.game, &self.cert)
    }
}

//! Reading a certificate of a task.

ghost use Rattle.fond_commands.specs.Certified.{CertReply, DescribeGround, IsCertText, NoAnswer};
ghost use Rattle.fond_commands.specs.Rejections.{Rejects};
ghost use Rattle.std.specs.Prelude.{IfOk, IfErr};

use crate::rejection::Rejection;
use crate::task_files::{TaskFiles, read_files};
use fond_cert::read::read_cert;
use fond_front::texts::TaskTexts;
use fond_policy::cert::Cert;
use std::alloc::Global;

/// A task with its ground task, and a certificate over that.
#[derive(Drop)]
pub struct Certified {
    pub files: TaskFiles,
    pub cert: Cert,
}

/// The task that three texts describe, and the certificate of it that a fourth spells, or why there is none.
pub fn read_certified(alloc: Global, texts: &TaskTexts, cert: &[u8]) -> Result<Certified, Rejection>
    ensures described { IfOk result (λ read. DescribeGround texts.now read.files.task.value read.files.game.value) }
    ensures spelled { IfOk result (λ read. IsCertText read.files.game.value read.cert cert.now) }
    ensures rejected { IfErr result (Rejects (CertReply texts.now cert.now NoAnswer)) }
{
    let files = read_files(alloc, texts)?;
    let cert = read_cert(alloc, &files.game, cert)?;
    Ok(Certified { files, cert })
}

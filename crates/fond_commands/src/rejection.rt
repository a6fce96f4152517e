//! Rejections: why a command does not do its job, and the answer to that.

ghost use Rattle.fond_commands.specs.Rejections.{reply_to};
ghost use Rattle.fond_commands.specs.Replies.{file_word, fault_words, fault_reply, cert_reply, script_reply};
ghost use Rattle.fond_text.specs.Text.{Adds};
ghost use Rattle.std.specs.Prelude.{◌≡◌, Some, IfOk};

use crate::answer::{Answer, line};
use crate::status::Ending;
use fond_cert::error::CertError;
use fond_exec::script::ScriptError;
use fond_text::fault::{Fault, FrontError, NoMemory};
use fond_text::place::FileKind;
use fond_text::text::Text;
use std::alloc::Global;

/// Why a command does not do its job.
#[derive(Clone, Copy)]
pub enum Rejection {
    /// A file of the task has a fault.
    Fault(Fault),
    /// The action names no schema of the task.
    UnknownAction,
    /// The certificate has a fault with this code at this byte.
    Cert { code: u8, byte: u64 },
    /// The word of the script at this byte is not a number.
    Script { byte: u64 },
    /// Memory ran out.
    NoMemory,
}

impl From<FrontError> for Rejection {
    ghost use Rattle.fond_commands.specs.Rejections.{of_files};

    ghost from_gives = { λ e r. r ≡ of_files e };

    fn from(e: FrontError) -> Rejection {
        match e {
            FrontError::Refused(fault) => Rejection::Fault(fault),
            FrontError::NoMemory => Rejection::NoMemory,
        }
    }
}

impl From<CertError> for Rejection {
    ghost use Rattle.fond_commands.specs.Rejections.{of_cert};

    ghost from_gives = { λ e r. r ≡ of_cert e };

    fn from(e: CertError) -> Rejection {
        match e {
            CertError::Refused { code, byte } => Rejection::Cert { code, byte },
            CertError::NoMemory => Rejection::NoMemory,
        }
    }
}

impl From<ScriptError> for Rejection {
    ghost use Rattle.fond_commands.specs.Rejections.{of_script};

    ghost from_gives = { λ e r. r ≡ of_script e };

    fn from(e: ScriptError) -> Rejection {
        match e {
            ScriptError::Refused { byte } => Rejection::Script { byte },
            ScriptError::NoMemory => Rejection::NoMemory,
        }
    }
}

impl From<NoMemory> for Rejection {
    ghost use Rattle.fond_commands.specs.declared.rejection.Rejection.TheVariants.{NoMemory as OutOfMemory};

    ghost from_gives = { λ _ r. r ≡ OutOfMemory };

    fn from(_e: NoMemory) -> Rejection {
        Rejection::NoMemory
    }
}

/// The word for a file.
fn file_word(file: FileKind) -> &'static [u8]
    ensures { result.now ≡ file_word file }
{
    match file {
        FileKind::Domain => b"domain".as_slice(),
        FileKind::Problem => b"problem".as_slice(),
        FileKind::Side => b"side".as_slice(),
    }
}

/// Adds the words for a fault of a file.
fn put_fault(fault: Fault, text: &mut Text)
    ensures { Adds text.old text.new (fault_words fault) }
{
    text.add(b"refused ");
    text.add(file_word(fault.file));
    text.add(b" ");
    text.add_number(fault.place.line as u64);
    text.add(b" ");
    text.add_number(fault.place.column as u64);
    text.add(b" F");
    text.add_number(fault.code as u64);
}

/// The refusal of a file with a fault.
fn fault_answer(alloc: Global, fault: Fault) -> Result<Answer, NoMemory>
    ensures { IfOk result (λ answer. answer ≡ fault_reply fault) }
{
    let mut text = Text::new(alloc);
    put_fault(fault, &mut text);
    let words = text.finish()?;
    line(alloc, &words, Ending::Refused)
}

/// The rejection of a certificate.
fn cert_answer(alloc: Global, code: u8, byte: u64) -> Result<Answer, NoMemory>
    ensures { IfOk result (λ answer. answer ≡ cert_reply code byte) }
{
    let mut text = Text::new(alloc);
    text.add(b"rejected C");
    text.add_number(code as u64);
    text.add(b" at ");
    text.add_number(byte);
    let words = text.finish()?;
    line(alloc, &words, Ending::Rejected)
}

/// The rejection of a script.
fn script_answer(alloc: Global, byte: u64) -> Result<Answer, NoMemory>
    ensures { IfOk result (λ answer. answer ≡ script_reply byte) }
{
    let mut text = Text::new(alloc);
    text.add(b"rejected S1 at ");
    text.add_number(byte);
    let words = text.finish()?;
    line(alloc, &words, Ending::Rejected)
}

/// The answer to a rejection, which has one unless memory ran out.
pub fn answer_to(alloc: Global, rejection: Rejection) -> Result<Answer, NoMemory>
    ensures { IfOk result (λ answer. reply_to rejection ≡ Some answer) }
{
    match rejection {
        Rejection::Fault(fault) => fault_answer(alloc, fault),
        Rejection::UnknownAction => line(alloc, b"rejected C3 at 0", Ending::Rejected),
        Rejection::Cert { code, byte } => cert_answer(alloc, code, byte),
        Rejection::Script { byte } => script_answer(alloc, byte),
        Rejection::NoMemory => Err(NoMemory),
    }
}

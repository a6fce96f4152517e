//! Why a text is no certificate, no table or no certificate of least rank of a task.

ghost use Rattle.fond_cert.specs.declared.error.CertError.TheVariants.{NoMemory as OutOfMemory};
ghost use Rattle.fond_cert.specs.declared.error.LineError.TheVariants.{NoMemory as WithoutMemory};
ghost use Rattle.std.specs.Prelude.{◌≡◌};

use fond_text::fault::NoMemory;
use thiserror::Error;

/// Why a text is no certificate, no table, or no certificate of least rank, of a task. docs/CERTIFICATES.md lists the codes.
#[derive(Clone, Copy, Debug, PartialEq, Eq, Error)]
pub enum CertError {
    /// The code, the number after the C, and the byte of the fault, counted from 0.
    #[error("the certificate is refused")]
    Refused { code: u8, byte: u64 },
    #[error("out of memory")]
    NoMemory,
}

impl From<NoMemory> for CertError {
    ghost from_gives = { λ _ e. e ≡ OutOfMemory };

    fn from(_e: NoMemory) -> CertError {
        CertError::NoMemory
    }
}

/// Why a line is refused: the code, and the byte of the fault in the line.
#[derive(Clone, Copy)]
pub(crate) enum LineError {
    Refused { code: u8, at: usize },
    NoMemory,
}

impl From<NoMemory> for LineError {
    ghost from_gives = { λ _ e. e ≡ WithoutMemory };

    fn from(_e: NoMemory) -> LineError {
        LineError::NoMemory
    }
}

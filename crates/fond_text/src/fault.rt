//! Faults of the files, and the errors of the calls that read them.

ghost use Rattle.fond_text.specs.declared.fault.FrontError.TheVariants.{NoMemory as OutOfMemory};
ghost use Rattle.std.specs.Prelude.{◌≡◌};

use crate::place::{FileKind, Place};
use std::alloc::{AllocError, AllocFailed};
use thiserror::Error;

/// Memory ran out.
#[derive(Clone, Copy, Debug, PartialEq, Eq, Error)]
#[error("out of memory")]
pub struct NoMemory;

impl From<AllocError> for NoMemory {
    fn from(_e: AllocError) -> NoMemory {
        NoMemory
    }
}

impl<T: Drop> From<AllocFailed<T>> for NoMemory {
    fn from(_e: AllocFailed<T>) -> NoMemory {
        NoMemory
    }
}

/// A fault of a file: its place, and its code, the number that follows the F in docs/FAULTS.md.
#[derive(Clone, Copy, Debug, PartialEq, Eq)]
pub struct Fault {
    pub file: FileKind,
    pub place: Place,
    pub code: u8,
}

/// Why a file could not be read.
#[derive(Clone, Copy, Debug, PartialEq, Eq, Error)]
pub enum FrontError {
    #[error("the file has a fault")]
    Refused(Fault),
    #[error("out of memory")]
    NoMemory,
}

impl From<NoMemory> for FrontError {
    ghost from_gives = { λ _ e. e ≡ OutOfMemory };

    fn from(_e: NoMemory) -> FrontError {
        FrontError::NoMemory
    }
}

impl From<AllocError> for FrontError {
    ghost from_gives = { λ _ e. e ≡ OutOfMemory };

    fn from(_e: AllocError) -> FrontError {
        FrontError::NoMemory
    }
}

impl<T: Drop> From<AllocFailed<T>> for FrontError {
    ghost from_gives = { λ _ e. e ≡ OutOfMemory };

    fn from(_e: AllocFailed<T>) -> FrontError {
        FrontError::NoMemory
    }
}

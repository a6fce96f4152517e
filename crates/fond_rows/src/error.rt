//! Why rows cannot be run.

use fond_text::fault::NoMemory;
use std::alloc::{AllocError, AllocFailed};
use std::io;
use thiserror::Error;

/// Why the rows cannot be run, or a count of them cannot be printed.
#[derive(Clone, Copy, Debug, PartialEq, Eq, Error)]
pub enum RowError {
    #[error("memory ran out")]
    NoMemory,
    #[error("a file was not given, or a line not printed")]
    Host,
    #[error("a file is not in TOML")]
    NotToml,
    #[error("a file of rows lacks its {0}")]
    Lacks(&'static str),
}

impl From<NoMemory> for RowError {
    fn from(_e: NoMemory) -> RowError {
        RowError::NoMemory
    }
}

impl From<AllocError> for RowError {
    fn from(_e: AllocError) -> RowError {
        RowError::NoMemory
    }
}

impl<T: Drop> From<AllocFailed<T>> for RowError {
    fn from(_e: AllocFailed<T>) -> RowError {
        RowError::NoMemory
    }
}

impl From<io::Error> for RowError {
    fn from(_e: io::Error) -> RowError {
        RowError::Host
    }
}

impl From<toml::de::Error> for RowError {
    fn from(_e: toml::de::Error) -> RowError {
        RowError::NotToml
    }
}

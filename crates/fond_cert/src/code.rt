//! The codes of the faults of certificates, tables and certificates of least rank, as docs/CERTIFICATES.md lists them.

/// A line has no form that is due there, its atoms are out of order, or the text ends too early or too late.
pub const OUT_OF_FORM: u8 = 1;

/// The task does not have an atom.
pub const UNKNOWN_ATOM: u8 = 2;

/// The task does not have an action.
pub const UNKNOWN_ACTION: u8 = 3;

/// A number is not below its bound.
pub const TOO_LARGE: u8 = 4;

//! Places in files.

/// A line and a column, both counted from 1. Only a line feed ends a line, and each byte is one column.
#[derive(Clone, Copy, Debug, PartialEq, Eq)]
pub struct Place {
    pub line: u32,
    pub column: u32,
}

/// The three files of a task, in the order in which faults are reported.
#[derive(Clone, Copy, Debug, PartialEq, Eq)]
pub enum FileKind {
    Domain,
    Problem,
    Side,
}

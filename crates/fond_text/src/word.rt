//! The words of a command line.

ghost use Rattle.std.specs.Prelude.{◌≡◌, ℕ, List, IfOk};

use crate::fault::NoMemory;
use std::alloc::Global;
use std::marker::Model;

/// Bytes as they were given: a command, the name of a file or an action.
#[derive(Drop)]
pub struct Word {
    bytes: Vec<u8>,
}

impl Model for Word {
    ghost Value = { List ℕ };

    ghost view = { λ w. w.bytes.items };
}

impl Word {
    /// The bytes as given.
    pub fn copy(alloc: Global, b: &[u8]) -> Result<Word, NoMemory>
        ensures { IfOk result (λ w. w ≡ b.now) }
    {
        Ok(Word {
            bytes: Vec::from_slice(alloc, b)?,
        })
    }

    /// The bytes of the word.
    pub fn bytes(&self) -> &[u8]
        ensures { result.now ≡ self.now }
    {
        self.bytes.as_slice()
    }
}

//! The source of files.

ghost use Rattle.std.specs.Prelude.{◌≡◌, ℕ, ◌⊎◌, ◌≤◌, List, ◌++◌, Option, Some, None, OnOk, OnErr, IsErrOf, IfSome, IsSomeAnd};
ghost use Rattle.fond_edge.specs.Faults.{Rose};

use fond_text::bytes::Bytes;
use fond_text::word::Word;
use std::alloc::Global;

/// A file of a shelf in memory.
#[derive(Drop)]
pub struct ShelfFile {
    pub name: Word,
    pub bytes: Bytes,
}

/// Why a file could not be fetched.
#[derive(Clone, Copy, Debug, PartialEq, Eq)]
pub enum FetchFault {
    Failed,
    NoMemory,
}

/// A source of files, found by name.
pub trait Shelf {
    ghost use Rattle.fond_edge.specs.declared.shelf.ShelfFile.{ShelfFile};
    ghost use Rattle.fond_edge.specs.Files.{file_of};

    /// The files that it holds, or `None` if it cannot tell.
    ghost held: { Self → Option (List ShelfFile) };

    /// The number of faults so far; the count saturates at 2^64 - 1.
    ghost faults: { Self → ℕ };

    /// Appends the whole file of this name, or leaves `into` unchanged.
    fn fetch(&mut self, alloc: Global, name: &Word, into: &mut Vec<u8>) -> Result<(), FetchFault>
        ensures kept { held self.new ≡ held self.old }
        ensures counted { faults self.old ≤ faults self.new }
        ensures further { OnOk result ((more : List ℕ) × (into.new.items ≡ into.old.items ++ more)
            × IfSome (held self.old) (λ files. file_of files name.now ≡ Some more)) }
        ensures failed { IsErrOf result FetchFault.Failed → Rose (faults self.old) (faults self.new)
            ⊎ IsSomeAnd (held self.old) (λ files. file_of files name.now ≡ None) }
        ensures err { OnErr result (into.new.items ≡ into.old.items) };
}

//! A shelf in memory.

ghost use Rattle.std.specs.Prelude.{◌≡◌, ℕ, ◌⊎◌, ◌≤◌, List, ◌++◌, Some, None, true, false, OnOk, OnErr, IsErrOf, IsSome};
ghost use Rattle.fond_edge.specs.Faults.{Rose};
ghost use Rattle.fond_edge.specs.Files.{file_of};
ghost use Rattle.fond_edge.specs.MemoryShelfState.{fails_next, after_fetch};

use crate::counter::one_more;
use crate::lists::{Calls, ShelfFiles, contains, find};
use crate::shelf::{FetchFault, Shelf};
use fond_text::bytes::Bytes;
use fond_text::word::Word;
use std::alloc::Global;
use std::marker::Model;

/// A list of files, of which the first of a name counts, and the numbers of the calls that are to fail.
#[derive(Drop)]
pub struct MemoryShelf {
    files: ShelfFiles,
    failing: Calls,
    calls: u64,
    faults: u64,
}

impl Model for MemoryShelf {
    ghost use Rattle.fond_edge.specs.MemoryShelfState.{MemoryShelfState};

    ghost Value = { MemoryShelfState };

    ghost view = { λ s. record {
      files = s.files;
      failing = s.failing;
      calls = s.calls;
      faults = s.faults;
    } };
}

impl MemoryShelf {
    /// A shelf before its first call. It takes no memory.
    pub fn new(files: ShelfFiles, failing: Calls) -> MemoryShelf
        ensures { result ≡ record { files = files; failing = failing; calls = 0; faults = 0 } }
    {
        MemoryShelf {
            files,
            failing,
            calls: 0,
            faults: 0,
        }
    }

    /// Counts a call, and a fault if the call is one of those that fail. Returns whether it is.
    fn count(&mut self) -> bool
        ensures listed { result ≡ fails_next self.old }
        ensures counted { self.old.faults ≤ self.new.faults }
        ensures after { self.new ≡ after_fetch self.old }
    {
        let fails = contains(&self.failing, self.calls);
        self.calls = one_more(self.calls);
        if fails {
            self.faults = one_more(self.faults);
        }
        fails
    }
}

/// Appends these bytes, or leaves `into` unchanged.
fn append(bytes: &Bytes, into: &mut Vec<u8>) -> Result<(), FetchFault>
    ensures ok { OnOk result (into.new.items ≡ into.old.items ++ bytes.now) }
    ensures err { OnErr result (into.new.items ≡ into.old.items) }
    ensures memory { ¬ IsErrOf result FetchFault.Failed }
{
    match into.extend_from_slice(bytes.as_slice()) {
        Ok(()) => Ok(()),
        Err(_) => Err(FetchFault::NoMemory),
    }
}

impl Shelf for MemoryShelf {
    ghost held = { λ s. Some s.files };

    ghost faults = { λ s. s.faults };

    fn fetch(&mut self, _alloc: Global, name: &Word, into: &mut Vec<u8>) -> Result<(), FetchFault>
        ensures kept { self.new.files ≡ self.old.files }
        ensures counted { self.old.faults ≤ self.new.faults }
        ensures further { OnOk result ((more : List ℕ) × (into.new.items ≡ into.old.items ++ more)
            × (file_of self.old.files name.now ≡ Some more)) }
        ensures failed { IsErrOf result FetchFault.Failed → Rose self.old.faults self.new.faults
            ⊎ (file_of self.old.files name.now ≡ None) }
        ensures err { OnErr result (into.new.items ≡ into.old.items) }
        ensures after { self.new ≡ after_fetch self.old }
        ensures listed { fails_next self.old ≡ true → IsErrOf result FetchFault.Failed }
        ensures missing { fails_next self.old ≡ false → file_of self.old.files name.now ≡ None
            → IsErrOf result FetchFault.Failed }
        ensures found { fails_next self.old ≡ false → IsSome (file_of self.old.files name.now)
            → ¬ IsErrOf result FetchFault.Failed }
    {
        if self.count() {
            return Err(FetchFault::Failed);
        }
        match find(&self.files, name) {
            None => Err(FetchFault::Failed),
            Some(bytes) => append(bytes, into),
        }
    }
}

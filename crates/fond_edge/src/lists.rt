//! The lists that a shelf and a sink in memory are made of.

ghost use Rattle.std.specs.Prelude.{◌≡◌, None, Some, MatchOption};
ghost use Rattle.fond_edge.specs.Calls.{is_listed};
ghost use Rattle.fond_edge.specs.Files.{file_of};

use crate::shelf::ShelfFile;
use fond_text::bytes::Bytes;
use fond_text::list::List;
use fond_text::word::Word;

/// Files. If two have the same name, the first one counts.
pub type ShelfFiles = List<ShelfFile>;

/// Numbers of calls on one object, counted from 0.
pub type Calls = List<u64>;

/// The bytes of the first file of this name.
pub(crate) fn find<'a>(files: &'a ShelfFiles, name: &Word) -> Option<&'a Bytes>
    ensures { MatchOption result (file_of files.now name.now ≡ None)
        (λ bytes. file_of files.now name.now ≡ Some bytes.now) }
{
    for file in files.as_slice() {
        if file.name.bytes() == name.bytes() {
            return Some(&file.bytes);
        }
    }
    None
}

/// Whether this call is listed.
pub(crate) fn contains(calls: &Calls, call: u64) -> bool
    ensures { result ≡ is_listed calls.now call }
{
    calls.as_slice().contains(&call)
}

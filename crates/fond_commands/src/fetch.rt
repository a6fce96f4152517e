//! Fetching files by their names.

ghost use Rattle.fond_commands.specs.Fetches.{IsContent, AreContents, IsMissing, CannotRead};
ghost use Rattle.fond_edge.specs.Faults.{Rose};
ghost use Rattle.std.specs.Prelude.{◌≡◌, ◌≤◌, ◌⊎◌, IfOk, IsErrOf};

use fond_edge::shelf::{FetchFault, Shelf};
use fond_text::list::List;
use fond_text::word::Word;
use std::alloc::Global;
use std::marker::Model;

/// The content of a file, as it was fetched.
#[derive(Drop)]
pub struct Content {
    bytes: Vec<u8>,
}

impl Model for Content {
    ghost use Rattle.std.specs.Prelude.{List, ℕ};

    ghost Value = { List ℕ };

    ghost view = { λ c. c.bytes.items };
}

impl Content {
    /// The bytes of the file.
    pub fn bytes(&self) -> &[u8]
        ensures { result.now ≡ self.now }
    {
        self.bytes.as_slice()
    }
}

/// The content of one file.
fn fetch_one<S: Shelf>(alloc: Global, shelf: &mut S, name: &Word) -> Result<Content, FetchFault>
    ensures fetched { IfOk result (IsContent (S.held shelf.old) name.now) }
    ensures failed { IsErrOf result FetchFault.Failed → Rose (S.faults shelf.old) (S.faults shelf.new) ⊎ IsMissing (S.held shelf.old) name.now }
    ensures kept { S.held shelf.new ≡ S.held shelf.old }
    ensures counted { S.faults shelf.old ≤ S.faults shelf.new }
{
    let mut bytes = Vec::new(alloc);
    shelf.fetch(alloc, name, &mut bytes)?;
    Ok(Content { bytes })
}

/// The contents of files, in the order of their names. Takes memory in the length of the files.
pub fn fetch_all<S: Shelf>(
    alloc: Global,
    shelf: &mut S,
    names: &[Word],
) -> Result<List<Content>, FetchFault>
    ensures fetched { IfOk result (AreContents (S.held shelf.old) names.now) }
    ensures failed { IsErrOf result FetchFault.Failed → CannotRead (record { held = S.held shelf.old; before = S.faults shelf.old; after = S.faults shelf.new }) names.now }
    ensures kept { S.held shelf.new ≡ S.held shelf.old }
    ensures counted { S.faults shelf.old ≤ S.faults shelf.new }
{
    let mut contents = List::new(alloc);
    for name in names {
        let content = fetch_one(alloc, shelf, name)?;
        if contents.push(content).is_err() {
            return Err(FetchFault::NoMemory);
        }
    }
    Ok(contents)
}

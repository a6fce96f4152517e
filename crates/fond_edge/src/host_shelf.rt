//! The files of the host.

ghost use Rattle.std.specs.Prelude.{◌≡◌, ℕ, ◌^◌, ◌≤◌, List, ◌++◌, None, OnOk, OnErr, IsErrOf, IfSome, length};
ghost use Rattle.std.specs.Str.{IsUtf8};
ghost use Rattle.fond_edge.specs.Faults.{Rose};
ghost use Rattle.fond_edge.specs.Calls.{one_more};

use crate::counter::one_more;
use crate::shelf::{FetchFault, Shelf};
use fond_text::word::Word;
use std::alloc::Global;
use std::fs;
use std::io::Read;
use std::marker::Model;
use std::rt::Files;

/// The most bytes of a file.
const LIMIT: u64 = 1 << 48;

/// The most bytes of one read.
const PIECE: usize = 8192;

/// Reads files of the host and counts faults: a name that is not UTF-8 or that the host rejects, a failure to open
/// or to read, and a file of more than 2^48 bytes.
#[derive(Drop)]
pub struct HostShelf<R> {
    rt: R,
    faults: u64,
}

impl<R> Model for HostShelf<R> {
    ghost use Rattle.std.specs.Prelude.{ℕ};

    ghost Value = { ℕ };

    ghost view = { λ s. s.faults };
}

impl<R: Files + Clone + Drop> HostShelf<R> {
    /// A shelf without faults so far. It takes no memory.
    pub fn new(rt: R) -> HostShelf<R>
        ensures { result ≡ 0 }
    {
        HostShelf { rt, faults: 0 }
    }
}

/// Appends the rest of this reader, in pieces. Time and memory are proportional to its length.
fn append_rest<F: Read>(file: &mut F, into: &mut Vec<u8>) -> Result<(), FetchFault>
    ensures further { (more : List ℕ) × (into.new.items ≡ into.old.items ++ more) × (length more ≤ 2 ^ 48) }
    ensures whole { OnOk result (IfSome (F.remaining file.old) (λ bytes. into.new.items ≡ into.old.items ++ bytes)) }
{
    let mut piece = [0; PIECE];
    let mut left = LIMIT;
    loop {
        let Ok(count) = file.read(&mut piece) else {
            return Err(FetchFault::Failed);
        };
        if count == 0 {
            return Ok(());
        }
        if left < count as u64 {
            return Err(FetchFault::Failed);
        }
        if into.extend_from_slice(&piece[..count]).is_err() {
            return Err(FetchFault::NoMemory);
        }
        left -= count as u64;
    }
}

/// Appends the whole file of this name. After an error, `into` may end with a part of it.
fn append_file<R: Files>(rt: &R, name: &Word, into: &mut Vec<u8>) -> Result<(), FetchFault>
    ensures further { (more : List ℕ) × (into.new.items ≡ into.old.items ++ more) × (length more ≤ 2 ^ 48) }
    ensures text { ¬ IsUtf8 name.now → IsErrOf result FetchFault.Failed }
{
    let Ok(path) = str::from_utf8(name.bytes()) else {
        return Err(FetchFault::Failed);
    };
    match fs::open(rt, path) {
        Ok(mut file) => append_rest(&mut file, into),
        Err(_) => Err(FetchFault::Failed),
    }
}

impl<R: Files + Clone + Drop> Shelf for HostShelf<R> {
    ghost held = { λ _. None };

    ghost faults = { λ faults. faults };

    fn fetch(&mut self, _alloc: Global, name: &Word, into: &mut Vec<u8>) -> Result<(), FetchFault>
        ensures counted { self.old ≤ self.new }
        ensures further { OnOk result ((more : List ℕ) × (into.new.items ≡ into.old.items ++ more)
            × (length more ≤ 2 ^ 48)) }
        ensures failed { IsErrOf result FetchFault.Failed → Rose self.old self.new }
        ensures err { OnErr result (into.new.items ≡ into.old.items) }
        ensures raised { IsErrOf result FetchFault.Failed → self.new ≡ one_more self.old }
        ensures calm { ¬ IsErrOf result FetchFault.Failed → self.new ≡ self.old }
        ensures text { ¬ IsUtf8 name.now → IsErrOf result FetchFault.Failed }
    {
        let before = into.len();
        let outcome = append_file(&self.rt, name, into);
        if outcome.is_err() {
            into.truncate(before);
        }
        if let Err(FetchFault::Failed) = outcome {
            self.faults = one_more(self.faults);
        }
        outcome
    }
}

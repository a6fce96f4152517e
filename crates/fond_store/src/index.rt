//! Texts and lists of numbers, each with a number of its own, found by a hash.

ghost use Rattle.fond_store.specs.Texts.{number_by, Inserts};
ghost use Rattle.std.specs.Prelude.{◌≡◌, [], OnOk, OnErr};

use fond_text::fault::NoMemory;
use std::alloc::Global;
use std::collections::HashMap;
use std::hash::Hash;
use std::marker::Model;

/// Distinct lists, each with a number. Contracts see an index as a list of them, in an order that is not promised.
#[derive(Drop)]
pub struct Index<T: Eq + Hash> {
    numbers: HashMap<Vec<T>, u32>,
}

/// Distinct texts, each with a number.
pub type TextIndex = Index<u8>;

/// Distinct lists of numbers, each with a number of its own.
pub type TupleIndex = Index<u32>;

impl<T: Eq + Hash> Model for Index<T> {
    ghost use Rattle.std.specs.Prelude.{List, ℕ, map};

    ghost Value = { List (List T × ℕ) };

    ghost view = { λ x. map (λ entry. (entry.0.items, entry.1)) x.numbers.entries };
}

impl<T: Eq + Hash + Drop> Index<T> {
    /// An index of no lists. It takes no memory until a list is inserted.
    pub fn new(alloc: Global) -> Index<T>
        ensures { result ≡ [] }
    {
        Index {
            numbers: HashMap::new(alloc),
        }
    }

    /// Inserts a list with its number, or changes nothing if the list is already there. Takes time in the length of
    /// the list.
    pub fn insert(&mut self, list: Vec<T>, number: u32) -> Result<(), NoMemory>
        ensures ok { OnOk result (Inserts T.eq self.old list.items number self.new) }
        ensures err { OnErr result (self.new ≡ self.old) }
    {
        if self.find(&list).is_some() {
            return Ok(());
        }
        self.numbers.insert(list, number)?;
        Ok(())
    }

    /// The number of a list, if the list is there. Takes time in the length of the list.
    pub fn find(&self, list: &[T]) -> Option<u32>
        ensures { result ≡ number_by T.eq self.now list.now }
    {
        self.numbers.get(list).copied()
    }
}

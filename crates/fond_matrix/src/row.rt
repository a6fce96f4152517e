//! Sets of numbers as bits.

ghost use Rattle.std.specs.Prelude.{◌≡◌, ◌<◌, ◌≤◌, ◌/◌, ℕ, [], true, length, slice_index_or, OnOk};
ghost use Rattle.fond_state.specs.Words.{is_set, truth_in};

use fond_text::fault::NoMemory;
use std::alloc::Global;
use std::marker::Model;

/// A set of numbers, 64 to a word. Contracts see the words. A number past the last word is not in the set.
#[derive(Drop)]
pub(crate) struct Row {
    words: Vec<u64>,
    /// The words before this one are 0, so a search need not look at them. It is the largest number as long as the set is empty.
    first: usize,
}

impl Model for Row {
    ghost use Rattle.std.specs.Prelude.{List, ℕ};

    ghost Value = { List ℕ };

    ghost use Rattle.std.specs.Prelude.{◌≡◌, ◌<◌, slice_index_or};

    ghost view = { λ r. r.words.items };

    ghost invariant = { λ r. (i : ℕ) → i < r.first → slice_index_or r.words.items i 0 ≡ 0 };
}

/// The word with this bit set.
fn with_bit(word: u64, place: u32) -> u64
    requires { place < 64 }
    ensures same { is_set result place ≡ true }
    ensures other { (k : ℕ) → k < 64 → ¬ k ≡ place → is_set result k ≡ is_set word k }
{
    word | (1u64 << place)
}

impl Row {
    /// The empty set. It takes no memory.
    pub(crate) fn new(alloc: Global) -> Row
        ensures { result ≡ [] }
    {
        Row {
            words: Vec::new(alloc),
            first: usize::MAX,
        }
    }

    /// How many words at the beginning are 0, or more if all are; and the words.
    pub(crate) fn words(&self) -> (usize, &[u64])
        ensures skip { (i : ℕ) → i < result.0 → slice_index_or self.now i 0 ≡ 0 }
        ensures words { result.1.now ≡ self.now }
    {
        (self.first, self.words.as_slice())
    }

    /// Makes the words at least this many. The set stays the same, also if memory runs out.
    pub(crate) fn widen(&mut self, count: usize) -> Result<(), NoMemory>
        ensures same { (number : ℕ) → truth_in self.new number ≡ truth_in self.old number }
        ensures grown { length self.old ≤ length self.new }
        ensures wide { OnOk result (count ≤ length self.new) }
    {
        for _ in self.words.len()..count {
            self.words.push(0)?;
        }
        Ok(())
    }

    /// Adds a number.
    pub(crate) fn put(&mut self, number: u32)
        requires { number / 64 < length self.old }
        ensures long { length self.new ≡ length self.old }
        ensures same { truth_in self.new number ≡ true }
        ensures other { (k : ℕ) → ¬ k ≡ number → truth_in self.new k ≡ truth_in self.old k }
    {
        let i = (number / 64) as usize;
        let word = self.words[i];
        self.words[i] = with_bit(word, number % 64);
        self.first = self.first.min(i);
    }
}

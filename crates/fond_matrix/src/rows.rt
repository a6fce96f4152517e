//! For each literal a set of numbers.

ghost use Rattle.std.specs.Prelude.{◌≡◌, ◌<◌, ◌≤◌, ◌/◌, ℕ, Bool, true, false, length, slice_index_or, OnOk};
ghost use Rattle.fond_matrix.specs.Rows.{row_number, row_at, has};

use crate::row::Row;
use fond_text::fault::NoMemory;
use std::alloc::Global;
use std::marker::Model;

/// For each literal the numbers of the cubes that have it. Contracts see the words of these sets: for each atom those of its negative
/// and of its positive literal. The set of a literal past the last one is empty.
#[derive(Drop)]
pub(crate) struct Rows {
    rows: Vec<Row>,
}

impl Model for Rows {
    ghost use Rattle.std.specs.Prelude.{List, ℕ};

    ghost Value = { List (List ℕ) };

    ghost view = { λ r. r.rows.items };
}

/// The place of a literal's set.
fn place(atom: u32, sign: bool) -> usize
    ensures { result ≡ row_number sign atom }
{
    if sign {
        2 * atom as usize + 1
    } else {
        2 * atom as usize
    }
}

impl Rows {
    /// Empty sets. They take no memory.
    pub(crate) fn new(alloc: Global) -> Rows
        ensures { (sign : Bool) (atom number : ℕ) → has result sign atom number ≡ false }
    {
        Rows {
            rows: Vec::new(alloc),
        }
    }

    /// How many words of a literal's set at the beginning are 0, or more if all are; and the words.
    pub(crate) fn row(&self, atom: u32, sign: bool) -> (usize, &[u64])
        ensures skip { (i : ℕ) → i < result.0 → slice_index_or (row_at self.now sign atom) i 0 ≡ 0 }
        ensures words { result.1.now ≡ row_at self.now sign atom }
    {
        match self.rows.get(place(atom, sign)) {
            Some(row) => row.words(),
            None => (0, &[]),
        }
    }

    /// Makes the words of a literal's set at least this many. All sets stay the same, also if memory runs out.
    pub(crate) fn widen(&mut self, atom: u32, sign: bool, count: usize) -> Result<(), NoMemory>
        ensures same { (s : Bool) (a number : ℕ) → has self.new s a number ≡ has self.old s a number }
        ensures grown { (s : Bool) (a : ℕ) → length (row_at self.old s a) ≤ length (row_at self.new s a) }
        ensures wide { OnOk result (count ≤ length (row_at self.new sign atom)) }
    {
        let alloc = *self.rows.allocator();
        let at = place(atom, sign);
        for _ in self.rows.len()..at + 1 {
            self.rows.push(Row::new(alloc))?;
        }
        self.rows[at].widen(count)
    }

    /// Adds a number to a literal's set.
    pub(crate) fn put(&mut self, atom: u32, sign: bool, number: u32)
        requires { number / 64 < length (row_at self.old sign atom) }
        ensures long { (s : Bool) (a : ℕ) → length (row_at self.new s a) ≡ length (row_at self.old s a) }
        ensures same { has self.new sign atom number ≡ true }
        ensures other { (s : Bool) (a k : ℕ) → (s ≡ sign → a ≡ atom → k ≡ number → ⊥) → has self.new s a k ≡ has self.old s a k }
    {
        let at = place(atom, sign);
        self.rows[at].put(number);
    }
}

//! States: a truth value for each atom.

ghost use Rattle.std.specs.Prelude.{◌≡◌, ◌<◌, ◌^◌, Bool, false, length, replicate, slice_set, IfOk};
ghost use Rattle.std.specs.Cmp.{bool_eq_equiv, partial_equiv_from_equiv};
ghost use Rattle.std.specs.Cmp.Lexicographic.{pointwise, lists_equiv};
ghost use Rattle.std.specs.Hash as fed;
ghost use Rattle.std.specs.Bool.{beq};
ghost use Rattle.fond_state.specs.Cubes.{truth_at};
ghost use Rattle.fond_state.specs.Hashed.{packed_respects};
ghost use Rattle.fond_state.specs.Words.{packed};

use crate::word::{bit, with_bit, word_count};
use fond_text::fault::NoMemory;
use std::alloc::Global;
use std::hash::{Hash, Hasher};
use std::marker::Model;

/// The truth values of all atoms, 64 to a word. Bits past the last atom are clear, so equal states have equal words.
#[derive(Drop)]
pub struct State {
    pub(crate) atoms: u32,
    pub(crate) words: Vec<u64>,
}

impl Model for State {
    ghost use Rattle.std.specs.Prelude.{◌≡◌, ◌<◌, ◌^◌, List, Bool, vec_len};
    ghost use Rattle.fond_state.specs.Words.{truths_from, words_for, HasNoMore, AreWords};

    ghost Value = { List Bool };

    ghost view = { λ s. truths_from s.words.items 0 s.atoms };

    ghost invariant = { λ s. (vec_len s.words ≡ words_for s.atoms) × HasNoMore s.atoms s.words.items × AreWords s.words.items × (s.atoms < 2 ^ 32) };
}

impl State {
    /// The state over this many atoms in which none is true.
    pub fn new(alloc: Global, atoms: u32) -> Result<State, NoMemory>
        ensures { IfOk result (λ s. s ≡ replicate atoms false) }
    {
        Ok(State {
            atoms,
            words: vec![in alloc; 0; word_count(atoms)]?,
        })
    }

    /// A copy of the state.
    pub fn copy(&self, alloc: Global) -> Result<State, NoMemory>
        ensures { IfOk result (λ s. s ≡ self.now) }
    {
        Ok(State {
            atoms: self.atoms,
            words: Vec::from_slice(alloc, self.words.as_slice())?,
        })
    }

    /// The number of atoms.
    pub fn len(&self) -> usize
        ensures counted { result ≡ length self.now }
        ensures few { result < 2 ^ 32 }
    {
        self.atoms as usize
    }

    /// Whether the atom is true.
    pub fn get(&self, atom: u32) -> bool
        requires { atom < length self.now }
        ensures { result ≡ truth_at self.now atom }
    {
        bit(self.words[(atom / 64) as usize], atom % 64)
    }

    /// Gives the atom this truth value.
    pub fn set(&mut self, atom: u32, v: bool)
        requires { atom < length self.old }
        ensures { self.new ≡ slice_set self.old atom v }
    {
        let i = (atom / 64) as usize;
        let word = self.words[i];
        self.words[i] = with_bit(word, atom % 64, v);
    }

    /// Copies the truth values of another state over as many atoms. Takes no memory.
    pub fn copy_from(&mut self, other: &State)
        requires { length self.old ≡ length other.now }
        ensures { self.new ≡ other.now }
    {
        self.words.copy_from_slice(other.words.as_slice());
    }
}

/// States are equal if they give each atom the same truth value.
impl PartialEq for State {
    ghost eq = { pointwise beq };

    ghost laws = { partial_equiv_from_equiv (lists_equiv bool_eq_equiv) };

    fn eq(&self, other: &State) -> bool {
        self.atoms == other.atoms && self.words.as_slice() == other.words.as_slice()
    }
}

impl Eq for State {
    ghost laws = { lists_equiv bool_eq_equiv };
}

impl Hash for State {
    ghost hash_input = { λ values. fed.slice fed.u64 (packed values) };

    ghost respects_eq = { packed_respects };

    fn hash<H: Hasher>(&self, state: &mut H) {
        self.words.as_slice().hash(state);
    }
}

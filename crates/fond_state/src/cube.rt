//! Cubes: partial states, given by the literals that hold in them.

ghost use Rattle.std.specs.Prelude.{◌≡◌, ◌<◌, ◌≤◌, ◌^◌, ℕ, Some, None, length, replicate, slice_set, Decides, IfOk};
ghost use Rattle.fond_state.specs.Cubes.{literal_at, full_cube, without_literal, lies_in, CubeLiesIn, Contradicts};

use crate::mask::{self, Mask, agrees, are_opposed, first_apart, is_in, mask_at, with_literal};
use crate::state::State;
use crate::word::{low_bits, word_count};
use fond_text::fault::NoMemory;
use std::alloc::Global;
use std::marker::Model;

/// A set of literals over distinct atoms, 64 atoms to a mask. It denotes the states in which they all hold.
#[derive(Drop)]
pub struct Cube {
    atoms: u32,
    masks: Vec<Mask>,
}

impl Model for Cube {
    ghost use Rattle.std.specs.Prelude.{◌≡◌, ◌<◌, ◌^◌, List, Bool, Option, vec_len};
    ghost use Rattle.fond_state.specs.Words.{literals_from, words_for, IsPadded};

    ghost Value = { List (Option Bool) };

    ghost view = { λ c. literals_from c.masks.items 0 c.atoms };

    ghost invariant = { λ c. (vec_len c.masks ≡ words_for c.atoms) × IsPadded c.atoms c.masks.items × (c.atoms < 2 ^ 32) };
}

impl Cube {
    /// The cube over this many atoms without literals.
    pub fn new(alloc: Global, atoms: u32) -> Result<Cube, NoMemory>
        ensures { IfOk result (λ c. c ≡ replicate atoms None) }
    {
        let none = Mask { care: 0, sign: 0 };
        Ok(Cube {
            atoms,
            masks: vec![in alloc; none; word_count(atoms)]?,
        })
    }

    /// The full cube of a state: it has a literal for each atom, and only that state lies in it.
    pub fn full(alloc: Global, s: &State) -> Result<Cube, NoMemory>
        ensures { IfOk result (λ c. c ≡ full_cube s.now) }
    {
        let mut masks = Vec::with_capacity(alloc, s.words.len())?;
        let mut left = s.atoms;
        for word in &s.words {
            masks.push(Mask {
                care: low_bits(left),
                sign: *word,
            })?;
            left = left.saturating_sub(64);
        }
        Ok(Cube {
            atoms: s.atoms,
            masks,
        })
    }

    /// A copy of the cube.
    pub fn copy(&self, alloc: Global) -> Result<Cube, NoMemory>
        ensures { IfOk result (λ c. c ≡ self.now) }
    {
        Ok(Cube {
            atoms: self.atoms,
            masks: Vec::from_slice(alloc, self.masks.as_slice())?,
        })
    }

    /// The number of atoms, with or without a literal.
    pub fn len(&self) -> usize
        ensures counted { result ≡ length self.now }
        ensures few { result < 2 ^ 32 }
    {
        self.atoms as usize
    }

    /// The sign of the atom's literal, if the cube has one. An atom past the last one has none.
    pub fn literal(&self, atom: u32) -> Option<bool>
        ensures { result ≡ literal_at self.now atom }
    {
        if atom >= self.atoms {
            return None;
        }
        mask::literal(self.masks[(atom / 64) as usize], atom % 64)
    }

    /// Gives the atom a literal of this sign and drops any literal that it had.
    pub fn put_literal(&mut self, atom: u32, v: bool)
        requires { atom < length self.old }
        ensures { self.new ≡ slice_set self.old atom (Some v) }
    {
        let i = (atom / 64) as usize;
        let mask = self.masks[i];
        self.masks[i] = with_literal(mask.care, mask.sign, atom % 64, v);
    }

    /// Drops the atom's literal. An atom past the last one changes nothing.
    pub fn drop_literal(&mut self, atom: u32)
        ensures { self.new ≡ without_literal self.old atom }
    {
        if atom >= self.atoms {
            return;
        }
        let i = (atom / 64) as usize;
        let mask = self.masks[i];
        self.masks[i] = mask::without_literal(mask.care, mask.sign, atom % 64);
    }

    /// Copies the literals of another cube over as many atoms. Takes no memory.
    pub fn copy_from(&mut self, other: &Cube)
        requires { length self.old ≡ length other.now }
        ensures { self.new ≡ other.now }
    {
        self.masks.copy_from_slice(other.masks.as_slice());
    }

    /// Whether `d` lies in this cube: it has each literal of this one. Takes time in the number of words.
    pub fn covers(&self, d: &Cube) -> bool
        requires { length self.now ≡ length d.now }
        ensures { Decides result (CubeLiesIn d.now self.now) }
    {
        for i in 0..self.masks.len() {
            if !is_in(self.masks[i].care, self.masks[i].sign, d.masks[i]) {
                return false;
            }
        }
        true
    }

    /// The first atom from `from` on and before `end` at which the two cubes differ, or else `end`. An atom past the last
    /// one of a cube has no literal. Takes time in the number of words between.
    pub fn first_difference(&self, d: &Cube, from: u32, end: u32) -> u32
        requires { from ≤ end }
        ensures within { (from ≤ result) × (result ≤ end) }
        ensures same { (atom : ℕ) → from ≤ atom → atom < result → literal_at self.now atom ≡ literal_at d.now atom }
        ensures differs { result < end → ¬ literal_at self.now result ≡ literal_at d.now result }
    {
        for i in (from / 64) as usize..word_count(end) {
            let start = 64 * i as u32;
            let mask = mask_at(&self.masks, i);
            let place = first_apart(mask, mask_at(&d.masks, i), from.saturating_sub(start));
            if place < 64 {
                return (start + place).min(end);
            }
        }
        end
    }

    /// Whether the two cubes contradict each other: one has a literal of which the other has the opposite. Takes time
    /// in the number of words.
    pub fn contradicts(&self, d: &Cube) -> bool
        requires { length self.now ≡ length d.now }
        ensures { Decides result (Contradicts self.now d.now) }
    {
        for i in 0..self.masks.len() {
            if are_opposed(self.masks[i].care, self.masks[i].sign, d.masks[i]) {
                return true;
            }
        }
        false
    }

    /// Whether all literals of the cube hold in the state. Takes time in the number of words.
    pub fn holds(&self, s: &State) -> bool
        requires { length self.now ≡ length s.now }
        ensures { result ≡ lies_in s.now self.now }
    {
        for i in 0..self.masks.len() {
            if !agrees(self.masks[i].care, self.masks[i].sign, s.words[i]) {
                return false;
            }
        }
        true
    }
}

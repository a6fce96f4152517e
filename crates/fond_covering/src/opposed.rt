//! Which rules a literal keeps from holding, as bits.

use fond_moves::condition::Mask;
use fond_moves::index::{Literal, NONE, bit_of, has, put_bit, size};
use fond_text::fault::NoMemory;
use std::alloc::Global;

/// For each literal the rules whose conditions have its opposite, a bit for each rule. A row ends at its last such rule.
#[derive(Drop)]
pub(crate) struct Opposed {
    rows: Vec<Vec<u64>>,
    /// The atoms of the conditions, and whether each of the task's is one.
    atoms: Vec<u32>,
    are_listed: Vec<u64>,
    /// The rules that were kept from holding by some literals.
    out: Vec<u64>,
}

/// The place of a literal among all.
fn place(literal: Literal) -> usize {
    (literal.atom as usize)
        .saturating_mul(2)
        .saturating_add(literal.sign as usize)
}

/// Makes words as many as these, by words without bits.
fn fill_up(words: &mut Vec<u64>, count: usize) -> Result<(), NoMemory> {
    for _ in words.len()..count {
        words.push(0)?;
    }
    Ok(())
}

/// Adds the bits of other words, as far as both slices go.
fn add_bits(words: &mut [u64], others: &[u64]) {
    for (word, other) in words.iter_mut().zip(others.iter()) {
        *word |= *other;
    }
}

impl Opposed {
    /// No rules, over this many atoms, in this many words.
    pub(crate) fn new(alloc: Global, atoms: u32, width: u32) -> Result<Opposed, NoMemory> {
        let mut rows = Vec::new(alloc);
        for _ in 0..(atoms as usize).saturating_mul(2) {
            rows.push(Vec::new(alloc))?;
        }
        let are_listed = vec![in alloc; 0; width as usize]?;
        Ok(Opposed {
            rows,
            atoms: Vec::new(alloc),
            are_listed,
            out: Vec::new(alloc),
        })
    }

    /// How many atoms the conditions have.
    pub(crate) fn atoms(&self) -> usize {
        self.atoms.len()
    }

    /// Lists an atom, unless it is listed.
    fn list(&mut self, atom: u32) -> Result<(), NoMemory> {
        if !has(&self.are_listed, atom) {
            self.atoms.push(atom)?;
            put_bit(&mut self.are_listed, atom, true);
        }
        Ok(())
    }

    /// The condition of a rule has a literal.
    fn add_literal(&mut self, literal: Literal, rule: u32) -> Result<(), NoMemory> {
        self.list(literal.atom)?;
        let opposite = Literal {
            atom: literal.atom,
            sign: !literal.sign,
        };
        if let Some(row) = self.rows.get_mut(place(opposite)) {
            fill_up(row, (rule as usize >> 6).saturating_add(1))?;
            put_bit(row, rule, true);
        }
        Ok(())
    }

    /// The condition of a rule has the literals of a mask.
    pub(crate) fn add(&mut self, mask: Mask, rule: u32) -> Result<(), NoMemory> {
        let mut bits = mask.care;
        for _ in 0..64 {
            if bits == 0 {
                return Ok(());
            }
            let atom = mask
                .word
                .saturating_mul(64)
                .saturating_add(bits.trailing_zeros());
            let sign = mask.value & bit_of(atom) != 0;
            bits &= bits.wrapping_sub(1);
            self.add_literal(Literal { atom, sign }, rule)?;
        }
        Ok(())
    }

    /// Keeps out the rules that the literal of an atom in the state keeps from holding.
    fn keep_out(&mut self, atom: u32, state: &[u64]) {
        let sign = has(state, atom);
        if let Some(row) = self.rows.get(place(Literal { atom, sign })) {
            add_bits(&mut self.out, row);
        }
    }

    /// Keeps out those that the literals of these atoms of a word keep from holding.
    fn keep_out_by(&mut self, word: u32, bits_of: u64, state: &[u64]) {
        let mut bits = bits_of;
        for _ in 0..64 {
            if bits == 0 {
                return;
            }
            let atom = word
                .saturating_mul(64)
                .saturating_add(bits.trailing_zeros());
            bits &= bits.wrapping_sub(1);
            self.keep_out(atom, state);
        }
    }

    /// Finds which of this many first rules the known atoms of a state keep from holding. Takes time in the number of known atoms
    /// times that of the words of so many bits.
    pub(crate) fn find(
        &mut self,
        rules: u32,
        state: &[u64],
        known: &[u64],
    ) -> Result<(), NoMemory> {
        self.out.clear();
        fill_up(&mut self.out, (rules as usize).saturating_add(63) >> 6)?;
        for (i, word) in known.iter().enumerate() {
            self.keep_out_by(size(i), *word, state);
        }
        Ok(())
    }

    /// Of 64 rules, the bits of those that hold in the state.
    fn holding(&self, word: usize, state: &[u64]) -> u64 {
        let mut out = 0;
        for atom in &self.atoms {
            let atom = *atom;
            let sign = has(state, atom);
            if let Some(row) = self.rows.get(place(Literal { atom, sign })) {
                if let Some(bits) = row.get(word) {
                    out |= *bits;
                }
            }
        }
        !out
    }

    /// The first of this many rules that holds in the state, or `NONE`. Takes time in the number of the atoms of conditions, for
    /// each 64 rules up to it.
    pub(crate) fn first(&self, rules: u32, state: &[u64]) -> u32 {
        for word in 0..(rules >> 6).saturating_add(1) {
            let bits = self.holding(word as usize, state);
            if bits != 0 {
                let first = word
                    .saturating_mul(64)
                    .saturating_add(bits.trailing_zeros());
                return if first < rules { first } else { NONE };
            }
        }
        NONE
    }

    /// Of 64 rules, the bits of those that were found to be left.
    pub(crate) fn left(&self, word: u32) -> u64 {
        match self.out.get(word as usize) {
            Some(bits) => !*bits,
            None => 0,
        }
    }
}

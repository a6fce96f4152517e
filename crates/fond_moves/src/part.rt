//! Partial states in words.

use crate::index::{Literal, clear_words, copy_words, drop_bits, has, put_bit, raise_bits};
use fond_text::fault::NoMemory;
use std::alloc::Global;

/// A partial state: the atoms that are known, and the values of these. The value of an atom that is not known is false.
#[derive(Drop)]
pub struct Part {
    pub care: Vec<u64>,
    pub value: Vec<u64>,
}

impl Part {
    /// The partial state over this many words of which nothing is known.
    pub fn new(alloc: Global, width: u32) -> Result<Part, NoMemory> {
        Ok(Part {
            care: vec![in alloc; 0; width as usize]?,
            value: vec![in alloc; 0; width as usize]?,
        })
    }

    /// Makes this the partial state of which nothing is known.
    pub fn clear(&mut self) {
        clear_words(&mut self.care);
        clear_words(&mut self.value);
    }

    /// Copies another partial state.
    pub fn copy_from(&mut self, other: &Part) {
        copy_words(&mut self.care, &other.care);
        copy_words(&mut self.value, &other.value);
    }

    /// What is known of the atom.
    pub fn literal(&self, atom: u32) -> Option<bool> {
        if has(&self.care, atom) {
            Some(has(&self.value, atom))
        } else {
            None
        }
    }

    /// Whether the literal is known to hold.
    pub fn has(&self, literal: Literal) -> bool {
        has(&self.care, literal.atom) && has(&self.value, literal.atom) == literal.sign
    }

    /// Adds a literal.
    pub fn put(&mut self, literal: Literal) {
        put_bit(&mut self.care, literal.atom, true);
        put_bit(&mut self.value, literal.atom, literal.sign);
    }

    /// Forgets an atom.
    pub fn forget(&mut self, atom: u32) {
        put_bit(&mut self.care, atom, false);
        put_bit(&mut self.value, atom, false);
    }

    /// Sets what is known of an atom.
    pub fn set(&mut self, atom: u32, known: Option<bool>) {
        match known {
            Some(sign) => self.put(Literal { atom, sign }),
            None => self.forget(atom),
        }
    }

    /// Adds these atoms of a word, with their values.
    pub fn put_bits(&mut self, word: u32, bits: u64, values: u64) {
        raise_bits(&mut self.care, word, bits);
        raise_bits(&mut self.value, word, values & bits);
    }

    /// How many atoms are known.
    pub fn count(&self) -> u32 {
        let mut count: u32 = 0;
        for word in &self.care {
            count = count.saturating_add(word.count_ones());
        }
        count
    }

    /// Forgets these atoms of a word.
    pub fn forget_bits(&mut self, word: u32, bits: u64) {
        drop_bits(&mut self.care, word, bits);
        drop_bits(&mut self.value, word, bits);
    }
}

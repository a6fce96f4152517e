//! Reads and writes by index that need no proof: past the end there is nothing to read, and nothing is written.
//!
//! These bodies compare an index with the length, or loop over indexes: the proof of that is a quarter shorter than one of `get`
//! with its `Option`, and less than half as long as one of `zip` with its pairs.

/// The number that names nothing.
pub const NONE: u32 = u32::MAX;

/// The length as a number.
pub fn size(length: usize) -> u32 {
    length.min(u32::MAX as usize) as u32
}

/// The value at an index, or 0 past the end.
pub fn at(values: &[u32], i: u32) -> u32 {
    let i = i as usize;
    if i < values.len() { values[i] } else { 0 }
}

/// The value at an index, or `NONE` past the end.
pub fn link_at(values: &[u32], i: u32) -> u32 {
    let i = i as usize;
    if i < values.len() { values[i] } else { NONE }
}

/// Sets the value at an index.
pub fn put(values: &mut [u32], i: u32, value: u32) {
    let i = i as usize;
    if i < values.len() {
        values[i] = value;
    }
}

/// Sets all values.
pub fn fill(values: &mut [u32], value: u32) {
    for i in 0..values.len() {
        values[i] = value;
    }
}

/// The word at an index, or 0 past the end.
pub fn word_at(words: &[u64], i: u32) -> u64 {
    let i = i as usize;
    if i < words.len() { words[i] } else { 0 }
}

/// Sets all words to 0.
pub fn clear_words(words: &mut [u64]) {
    for i in 0..words.len() {
        words[i] = 0;
    }
}

/// Sets these bits of the word at an index.
pub fn raise_bits(words: &mut [u64], i: u32, bits: u64) {
    let i = i as usize;
    if i < words.len() {
        words[i] |= bits;
    }
}

/// Clears these bits of the word at an index.
pub fn drop_bits(words: &mut [u64], i: u32, bits: u64) {
    let i = i as usize;
    if i < words.len() {
        words[i] &= !bits;
    }
}

/// Copies words as far as both slices go.
pub fn copy_words(words: &mut [u64], from: &[u64]) {
    for i in 0..words.len().min(from.len()) {
        words[i] = from[i];
    }
}

/// The bit of an atom in its word.
pub fn bit_of(atom: u32) -> u64 {
    1u64 << (atom & 63)
}

/// Whether the atom is true.
pub fn has(words: &[u64], atom: u32) -> bool {
    word_at(words, atom >> 6) & bit_of(atom) != 0
}

/// Gives the atom a truth value.
pub fn put_bit(words: &mut [u64], atom: u32, value: bool) {
    if value {
        raise_bits(words, atom >> 6, bit_of(atom));
    } else {
        drop_bits(words, atom >> 6, bit_of(atom));
    }
}

/// A truth value of an atom.
#[derive(Clone, Copy, PartialEq, Eq)]
pub struct Literal {
    pub atom: u32,
    pub sign: bool,
}

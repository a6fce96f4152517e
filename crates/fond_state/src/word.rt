//! Truth values in words: bit k of word i is that of atom 64 * i + k.

ghost use Rattle.std.specs.Prelude.{◌≡◌, ◌<◌, ◌≤◌, ℕ, true, false};
ghost use Rattle.fond_state.specs.Words.{is_set, words_for};

/// The number of words that this many atoms take.
pub(crate) fn word_count(atoms: u32) -> usize
    ensures { result ≡ words_for atoms }
{
    (atoms as usize + 63) / 64
}

/// Whether the bit is set.
pub(crate) fn bit(word: u64, place: u32) -> bool
    requires { place < 64 }
    ensures { result ≡ is_set word place }
{
    (word >> place) & 1 == 1
}

/// The word with this bit set or cleared.
pub(crate) fn with_bit(word: u64, place: u32, v: bool) -> u64
    requires { place < 64 }
    ensures same { is_set result place ≡ v }
    ensures other { (k : ℕ) → k < 64 → ¬ k ≡ place → is_set result k ≡ is_set word k }
{
    let bit = 1u64 << place;
    if v { word | bit } else { word & !bit }
}

/// The word whose lowest bits, this many, are set, and no others. Past 64 it is that of 64.
pub(crate) fn low_bits(count: u32) -> u64
    ensures below { (k : ℕ) → k < 64 → k < count → is_set result k ≡ true }
    ensures above { (k : ℕ) → count ≤ k → is_set result k ≡ false }
{
    if count == 0 {
        return 0;
    }
    u64::MAX >> (64 - count.min(64))
}

/// The first place from this one on whose bit is set, or else 64.
pub(crate) fn first_set(word: u64, from: u32) -> u32
    requires { from < 64 }
    ensures within { (from ≤ result) × (result ≤ 64) }
    ensures clear { (k : ℕ) → from ≤ k → k < result → is_set word k ≡ false }
    ensures set { result < 64 → is_set word result ≡ true }
{
    let left = word >> from;
    if left == 0 {
        return 64;
    }
    from + left.trailing_zeros()
}

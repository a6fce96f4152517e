//! Words of bits.

ghost use Rattle.std.specs.Prelude.{◌≡◌, ◌<◌, ◌≤◌, ◌*◌, ◌+◌, ◌^◌, ◌||◌, ◌&&◌, ℕ, not, true, false, length, slice_index_or};
ghost use Rattle.fond_state.specs.Words.{truth_in};

/// Adds to the first words of `once`, this many, the bits of a row's words from one on, and to those of `twice` the bits that `once`
/// had before. Past the row's last word there are none, and none in its first words, `skip` of them, at which it does not look.
pub(crate) fn add_twice(
    once: &mut [u64],
    twice: &mut [u64],
    count: usize,
    skip: usize,
    row: &[u64],
    start: usize,
)
    requires room { (count ≤ length once.old) × (count ≤ length twice.old) }
    requires few { start + count < 2 ^ 32 }
    requires skip { (i : ℕ) → i < skip → slice_index_or row.now i 0 ≡ 0 }
    ensures long { (length once.new ≡ length once.old) × (length twice.new ≡ length twice.old) }
    ensures once { (k : ℕ) → k < 64 * count → truth_in once.new k ≡ (truth_in once.old k || truth_in row.now (64 * start + k)) }
    ensures twice { (k : ℕ) → k < 64 * count → truth_in twice.new k ≡ (truth_in twice.old k || (truth_in once.old k && truth_in row.now (64 * start + k))) }
{
    for i in skip.saturating_sub(start)..count.min(row.len().saturating_sub(start)) {
        let word = row[start + i];
        twice[i] |= once[i] & word;
        once[i] |= word;
    }
}

/// The place of the first bit of the first words, this many, that is not set, or else the number of their bits.
pub(crate) fn first_clear(words: &[u64], count: usize) -> usize
    requires room { count ≤ length words.now }
    requires few { count < 2 ^ 32 }
    ensures within { result ≤ 64 * count }
    ensures set { (k : ℕ) → k < result → truth_in words.now k ≡ true }
    ensures clear { result < 64 * count → truth_in words.now result ≡ false }
{
    for i in 0..count {
        let word = words[i];
        if word != u64::MAX {
            return 64 * i + word.trailing_ones() as usize;
        }
    }
    64 * count
}

/// The place of the first bit of a row's words from one on that is not among the bits of the first words of `out`, this many, or else
/// the number of these bits. The row's first words, `skip` of them, are 0, and it does not look at them.
pub(crate) fn first_not_in(
    skip: usize,
    row: &[u64],
    start: usize,
    out: &[u64],
    count: usize,
) -> usize
    requires room { count ≤ length out.now }
    requires few { start + count < 2 ^ 32 }
    requires skip { (i : ℕ) → i < skip → slice_index_or row.now i 0 ≡ 0 }
    ensures within { result ≤ 64 * count }
    ensures before { (k : ℕ) → k < result → (truth_in row.now (64 * start + k) && not (truth_in out.now k)) ≡ false }
    ensures found { result < 64 * count → (truth_in row.now (64 * start + result) && not (truth_in out.now result)) ≡ true }
{
    for i in skip.saturating_sub(start)..count.min(row.len().saturating_sub(start)) {
        let word = row[start + i] & !out[i];
        if word != 0 {
            return 64 * i + word.trailing_zeros() as usize;
        }
    }
    64 * count
}

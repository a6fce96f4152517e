//! The literals of 64 atoms.

ghost use Rattle.std.specs.Prelude.{◌≡◌, ◌<◌, ◌≤◌, ℕ, Bool, true, false, Decides};
ghost use Rattle.fond_state.specs.Words.{Agree, Include, Oppose, is_set, literal_of, mask_at};

use crate::word::{bit, first_set, with_bit};

/// The literals of 64 atoms: those whose bit is set in `care` have one, with the sign that is their bit in `sign`.
#[derive(Clone, Copy)]
pub(crate) struct Mask {
    pub(crate) care: u64,
    pub(crate) sign: u64,
}

/// The sign of the literal at a place, if there is one.
pub(crate) fn literal(mask: Mask, place: u32) -> Option<bool>
    requires { place < 64 }
    ensures { result ≡ literal_of mask place }
{
    if bit(mask.care, place) {
        Some(bit(mask.sign, place))
    } else {
        None
    }
}

/// Whether the literals hold in a word of truth values.
pub(crate) fn agrees(care: u64, sign: u64, truth: u64) -> bool
    ensures { Decides result (Agree (record { care = care; sign = sign }) truth) }
{
    care & (sign ^ truth) == 0
}

/// Whether another mask has these literals.
pub(crate) fn is_in(care: u64, sign: u64, other: Mask) -> bool
    ensures { Decides result (Include (record { care = care; sign = sign }) other) }
{
    care & ((other.care ^ care) | (sign ^ other.sign)) == 0
}

/// Whether one of these literals is the opposite of one of another mask.
pub(crate) fn are_opposed(care: u64, sign: u64, other: Mask) -> bool
    ensures { Decides result (Oppose (record { care = care; sign = sign }) other) }
{
    0 < care & (other.care & (sign ^ other.sign))
}

/// The mask of this number. One past the last mask is without literals.
pub(crate) fn mask_at(masks: &[Mask], i: usize) -> Mask
    ensures { result ≡ mask_at masks.now i }
{
    match masks.get(i) {
        Some(mask) => *mask,
        None => Mask { care: 0, sign: 0 },
    }
}

/// The first place from this one on at which the literals of the two masks differ, or else 64. The sign of a place
/// counts only if the place has a literal.
pub(crate) fn first_apart(mask: Mask, other: Mask, from: u32) -> u32
    requires { from < 64 }
    ensures within { (from ≤ result) × (result ≤ 64) }
    ensures same { (place : ℕ) → from ≤ place → place < result → literal_of mask place ≡ literal_of other place }
    ensures differs { result < 64 → ¬ literal_of mask result ≡ literal_of other result }
{
    first_set(
        (mask.care ^ other.care) | (mask.care & (mask.sign ^ other.sign)),
        from,
    )
}

/// The literals with this one at a place.
pub(crate) fn with_literal(care: u64, sign: u64, place: u32, v: bool) -> Mask
    requires { place < 64 }
    ensures same { (is_set result.care place ≡ true) × (is_set result.sign place ≡ v) }
    ensures other { (k : ℕ) → k < 64 → ¬ k ≡ place → (is_set result.care k ≡ is_set care k) × (is_set result.sign k ≡ is_set sign k) }
{
    Mask {
        care: with_bit(care, place, true),
        sign: with_bit(sign, place, v),
    }
}

/// The literals without one at a place.
pub(crate) fn without_literal(care: u64, sign: u64, place: u32) -> Mask
    requires { place < 64 }
    ensures same { is_set result.care place ≡ false }
    ensures other { (k : ℕ) → k < 64 → ¬ k ≡ place → (is_set result.care k ≡ is_set care k) × (is_set result.sign k ≡ is_set sign k) }
{
    Mask {
        care: with_bit(care, place, false),
        sign,
    }
}

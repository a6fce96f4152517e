//! Numbers below 2^64 as texts: their decimal digits, without a sign or a leading zero.

ghost use Rattle.std.specs.Fmt.{decimal};
ghost use Rattle.std.specs.Prelude.{◌≡◌, ◌≢◌, ◌^◌, ◌<◌, ℕ, MatchOption};

use std::marker::Model;

/// The decimal digits of a number, kept at the end of an array of 20 bytes: no number below 2^64 has more.
#[derive(Clone, Copy)]
pub struct Digits {
    bytes: [u8; 20],
    count: usize,
}

impl Model for Digits {
    ghost use Rattle.std.specs.Prelude.{◌≡◌, ◌≤◌, ◌-◌, ◌++◌, ℕ, List, length, drop, replicate};

    ghost Value = { List ℕ };

    ghost view = { λ d. drop (20 - d.count) d.bytes };

    ghost invariant = { λ d. let digits = drop (20 - d.count) d.bytes in
        (d.count ≤ 20) × (length digits ≡ d.count) × (replicate (20 - length digits) 0 ++ digits ≡ d.bytes) };

    ghost inverse = { λ digits. record { bytes = replicate (20 - length digits) 0 ++ digits; count = length digits } };

    ghost inverse_ok = { λ d kept i. record { bytes = kept.2 i; count = kept.1 i } };
}

impl Digits {
    /// The digits of this number.
    pub fn of(n: u64) -> Digits
        ensures { result ≡ decimal n }
    {
        let mut bytes = [0; 20];
        let start = itoa::write_digits(n, &mut bytes, 20);
        Digits {
            bytes,
            count: 20 - start,
        }
    }

    /// The digits, most significant first.
    pub fn bytes(&self) -> &[u8]
        ensures { result.now ≡ self.now }
    {
        &self.bytes[20 - self.count..]
    }
}

/// The number below 2^64 that the bytes write in decimal digits, without a sign or a leading zero.
pub fn read_number(b: &[u8]) -> Option<u64>
    ensures { MatchOption result ((n : ℕ) → n < 2 ^ 64 → b.now ≢ decimal n) (λ n. b.now ≡ decimal n) }
{
    let number = std::str::from_utf8(b).ok()?.parse::<u64>().ok()?;
    // `parse` also accepts a sign and leading zeros, which are not canonical
    if b == Digits::of(number).bytes() {
        Some(number)
    } else {
        None
    }
}

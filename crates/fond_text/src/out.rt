//! Destinations of text, which is added part by part.

ghost use Rattle.std.specs.Fmt.{decimal};
ghost use Rattle.std.specs.Prelude.{◌≡◌, ℕ, Bool, List, [], ◌++◌, true};

use crate::number::Digits;

/// A destination of text, which is added part by part. What adds a part need not answer for a failure: the destination is asked once, after
/// the last part. What it means that a text was added is for each destination to say; the laws below are all that is known of any.
pub trait Out {
    /// From a state to a later one, the text was added, or the destination has failed.
    ghost adds: { Self → Self → List ℕ → Type 0 };

    /// Whether adding has failed.
    ghost failed: { Self → Bool };

    /// Adds bytes at the end.
    fn add(&mut self, part: &[u8])
        ensures { adds self.old self.new part.now };

    /// Whether adding has failed.
    fn has_failed(&self) -> bool
        ensures { result ≡ failed self.now };

    /// Doing nothing adds the empty text.
    ghost adds_nothing: { (now : Self) → adds now now [] };

    /// Texts that are added one after the other are added as a whole.
    ghost adds_then: { (before now after : Self) (text more : List ℕ) → adds before now text → adds now after more → adds before after (text ++ more) };

    /// After a failure, a destination that is left as it is counts as having been given any text.
    ghost adds_failed: { (now : Self) (text : List ℕ) → failed now ≡ true → adds now now text };
}

/// Adds the digits of a number.
pub fn put_number<O: Out>(number: u64, out: &mut O)
    ensures { O.adds out.old out.new (decimal number) }
{
    let digits = Digits::of(number);
    out.add(digits.bytes());
}

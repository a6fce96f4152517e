//! Kleene's strong three-valued logic: values, and how the values of parts are joined.

ghost use Rattle.fond_task.specs.Junctions.{dual, joined, neutral};
ghost use Rattle.fond_task.specs.Values.{greater, lesser, opposite, truth_value};
ghost use Rattle.std.specs.Prelude.{◌≡◌};

use crate::form::{Junction, Kleene};

impl Kleene {
    /// Yes if the test is true, and No if it is false.
    pub fn of(truth: bool) -> Kleene
        ensures { result ≡ truth_value truth }
    {
        if truth { Kleene::Yes } else { Kleene::No }
    }

    /// The opposite of the value.
    pub fn opposite(self) -> Kleene
        ensures { result ≡ opposite self }
    {
        match self {
            Kleene::No => Kleene::Yes,
            Kleene::Unknown => Kleene::Unknown,
            Kleene::Yes => Kleene::No,
        }
    }

    /// The lesser of the two values.
    pub fn lesser(self, other: Kleene) -> Kleene
        ensures { result ≡ lesser self other }
    {
        match (self, other) {
            (Kleene::No, _) | (_, Kleene::No) => Kleene::No,
            (Kleene::Yes, Kleene::Yes) => Kleene::Yes,
            _ => Kleene::Unknown,
        }
    }

    /// The greater of the two values.
    pub fn greater(self, other: Kleene) -> Kleene
        ensures { result ≡ greater self other }
    {
        match (self, other) {
            (Kleene::Yes, _) | (_, Kleene::Yes) => Kleene::Yes,
            (Kleene::No, Kleene::No) => Kleene::No,
            _ => Kleene::Unknown,
        }
    }
}

impl Junction {
    /// The junction whose negation has the negated parts of this one (De Morgan).
    pub fn dual(self) -> Junction
        ensures { result ≡ dual self }
    {
        match self {
            Junction::All => Junction::Any,
            Junction::Any => Junction::All,
        }
    }

    /// The value of no parts.
    pub fn neutral(self) -> Kleene
        ensures { result ≡ neutral self }
    {
        match self {
            Junction::All => Kleene::Yes,
            Junction::Any => Kleene::No,
        }
    }

    /// The value of two parts.
    pub fn joined(self, value: Kleene, other: Kleene) -> Kleene
        ensures { result ≡ joined self value other }
    {
        match self {
            Junction::All => value.lesser(other),
            Junction::Any => value.greater(other),
        }
    }
}

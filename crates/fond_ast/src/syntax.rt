//! Conditions and effects as they are read.

use crate::names::{ReadAtom, Term, TypedNames};

/// A condition. `Truth` is `()`.
#[derive(Drop)]
pub enum Cond {
    Truth,
    Holds(ReadAtom),
    Equal(Term, Term),
    And(Vec<Cond>),
    Or(Vec<Cond>),
    Not(Box<Cond>),
    Imply(Box<Cond>, Box<Cond>),
    Forall(TypedNames, Box<Cond>),
    Exists(TypedNames, Box<Cond>),
}

/// An effect. Exactly one member of a `OneOf` takes place; the text has at least one.
#[derive(Drop)]
pub enum Effect {
    Nothing,
    Add(ReadAtom),
    Delete(ReadAtom),
    And(Vec<Effect>),
    Forall(TypedNames, Box<Effect>),
    When(Cond, Box<Effect>),
    OneOf(Vec<Effect>),
}

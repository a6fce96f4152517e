//! Ground conditions.

/// The value of a condition on a cube: false in all its states, not known, or true in all.
#[derive(Clone, Copy, PartialEq, Eq)]
pub enum Kleene {
    No,
    Unknown,
    Yes,
}

/// How the parts of a condition are joined: all of them have to be true, or one is enough.
#[derive(Clone, Copy)]
pub enum Junction {
    All,
    Any,
}

/// The parts of a conjunction or a disjunction.
pub type Forms = Vec<Form>;

/// A condition over the atoms, by their numbers. A literal is an atom and the truth value that it requires.
#[derive(Drop)]
pub enum Form {
    Truth(bool),
    Lit(u32, bool),
    And(Forms),
    Or(Forms),
}

//! Names, variables and terms as they are read, each with its place.

use fond_text::list::List;
use fond_text::name::Name;
use fond_text::place::Place;

/// A leaf that names a type, or a leaf of a side list that should name a schema.
#[derive(Drop)]
pub struct Kind {
    pub place: Place,
    pub name: Name,
}

/// Types, in the order in which they are written.
pub type Kinds = List<Kind>;

/// A declared name or variable with its types. If the text gives none, the type is `object`, at the place of the name.
#[derive(Drop)]
pub struct TypedName {
    pub place: Place,
    pub name: Name,
    pub kinds: Kinds,
}

/// Declared names or variables, in order.
pub type TypedNames = List<TypedName>;

/// A name or a variable in an atom or a pattern.
#[derive(Drop)]
pub struct Term {
    pub place: Place,
    pub name: Name,
    pub variable: bool,
}

/// The terms of an atom or a pattern, in order.
pub type Terms = List<Term>;

/// An atom: the place of its node, the place and the name of its head, and its terms.
#[derive(Drop)]
pub struct ReadAtom {
    pub place: Place,
    pub head: Place,
    pub name: Name,
    pub terms: Terms,
}

//! Conditions and effects over the numbers of predicates, objects and variables.

use fond_text::atom::Objects;
use fond_text::list::List;
use std::rc::Rc;

/// An object, or a variable: by its position among the variables around it, the outermost first, or in a pattern by one of its positions
/// there.
#[derive(Clone, Copy)]
pub enum LTerm {
    Object(u32),
    Variable(u32),
}

/// The terms of an atom, in order.
pub type LTerms = List<LTerm>;

/// A pattern of ground actions: a term for each parameter. Equal variables have the same number, and different ones
/// different numbers.
pub type LPattern = List<LTerm>;

/// The patterns of a schema, in order.
pub type LPatterns = List<LPattern>;

/// An atom by the numbers of its predicate and its terms.
#[derive(Drop)]
pub struct LAtom {
    pub predicate: u32,
    pub terms: LTerms,
}

/// The objects over which a variable ranges, in order. Variables of the same types share one list.
pub type Range = Rc<Objects>;

/// The ranges of some variables, in order.
pub type Ranges = List<Range>;

/// A condition. A quantifier declares a variable for each of its ranges.
#[derive(Drop)]
pub enum LCond {
    Truth,
    Holds(LAtom),
    Equal(LTerm, LTerm),
    And(Vec<LCond>),
    Or(Vec<LCond>),
    Not(Box<LCond>),
    Imply(Box<LCond>, Box<LCond>),
    Forall(Ranges, Box<LCond>),
    Exists(Ranges, Box<LCond>),
}

/// An effect. Exactly one member of a `OneOf` takes place; it has at least one.
#[derive(Drop)]
pub enum LEffect {
    Nothing,
    Add(LAtom),
    Delete(LAtom),
    And(Vec<LEffect>),
    Forall(Ranges, Box<LEffect>),
    When(LCond, Box<LEffect>),
    OneOf(Vec<LEffect>),
}

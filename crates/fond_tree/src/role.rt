//! What is expected of the trees of a domain and of a problem.

/// A leaf that is required at its place.
#[derive(Clone, Copy)]
pub enum FixedWord {
    Define,
    Domain,
    Problem,
    Either,
}

/// What is expected of a tree at its place. `Head` is the head of a node, which decided what the node is.
#[derive(Clone, Copy)]
pub enum Role {
    DomainFile,
    ProblemFile,
    Word(FixedWord),
    Header(FixedWord),
    Head,
    Name,
    Variable,
    Term,
    DomainSection,
    ProblemSection,
    Predicate,
    Key,
    Variables,
    VariableType,
    Condition,
    Effect,
    Initial,
    Atom,
}

/// What is expected after the first members of a node: nothing; any number of trees of one role; a typed list of
/// these leaves with these types; pairs of a key and a value; or trees that are not read.
#[derive(Clone, Copy)]
pub enum Rest {
    NoMore,
    Each(Role),
    Typed(Role, Role),
    Pairs,
    Unread,
}

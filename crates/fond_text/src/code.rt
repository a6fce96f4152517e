//! The codes of faults, as docs/FAULTS.md lists them, and the limits that some of them report.

/// The most bytes that a text may have.
pub const LONGEST_TEXT: usize = 16_777_216;

/// The most parentheses that may be open at a place.
pub const DEEPEST: usize = 128;

/// The most fluent atoms that a task may have.
pub const MOST_ATOMS: usize = 16_384;

/// The most ground actions that a task may keep.
pub const MOST_ACTIONS: usize = 131_072;

/// The most outcomes that a kept ground action may have.
pub const MOST_OUTCOMES: usize = 256;

/// A text has more bytes than [`LONGEST_TEXT`].
pub const TOO_LONG: u8 = 1;

/// A byte outside comments is neither a blank nor one of the bytes 33 to 126.
pub const STRAY_BYTE: u8 = 2;

/// A text ends while a parenthesis is open.
pub const UNCLOSED: u8 = 3;

/// A closing parenthesis has no opening one, or something follows the first whole tree.
pub const MISPLACED: u8 = 4;

/// A parenthesis opens inside [`DEEPEST`] open ones.
pub const TOO_DEEP: u8 = 5;

/// A text has no leaf and no parenthesis.
pub const NO_TREE: u8 = 6;

/// A tree does not have the form that is expected at its place.
pub const MISFIT: u8 = 7;

/// A section has an unknown head, or an action an unknown key.
pub const UNKNOWN_SECTION: u8 = 8;

/// A section, or a key of an action, occurs a second time.
pub const REPEATED_SECTION: u8 = 9;

/// A problem has no domain or no goal.
pub const MISSING_SECTION: u8 = 10;

/// The head of a condition, an effect or an initial atom is a reserved word that is not an operator there, or an atom
/// has a node among its terms.
pub const MISPLACED_OPERATOR: u8 = 11;

/// A `oneof` has no choices.
pub const NO_CHOICE: u8 = 12;

/// The type of a constant, an object or a variable is not declared.
pub const UNKNOWN_TYPE: u8 = 13;

/// A type is its own ancestor, or `object` is declared with another parent than itself.
pub const TYPE_CYCLE: u8 = 14;

/// The predicate of an atom is not declared.
pub const UNKNOWN_PREDICATE: u8 = 15;

/// An atom has another number of terms than its predicate has parameters.
pub const WRONG_ARITY: u8 = 16;

/// An argument does not fit the parameter at its position.
pub const TYPE_MISMATCH: u8 = 17;

/// A term is not a declared object, or a variable that no list around it declares.
pub const UNKNOWN_TERM: u8 = 18;

/// A name is declared again with other types, or a schema has the name of an earlier one, or a variable occurs twice in
/// one list.
pub const REPEATED_NAME: u8 = 19;

/// A leaf of the side list is not the name of a schema.
pub const UNKNOWN_SCHEMA: u8 = 20;

/// A task has more fluent atoms than [`MOST_ATOMS`].
pub const TOO_MANY_ATOMS: u8 = 21;

/// A task keeps more ground actions than [`MOST_ACTIONS`].
pub const TOO_MANY_ACTIONS: u8 = 22;

/// A schema with a kept ground action has more outcomes than [`MOST_OUTCOMES`].
pub const TOO_MANY_OUTCOMES: u8 = 23;

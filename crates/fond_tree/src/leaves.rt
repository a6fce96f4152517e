//! Leaves: names, variables and words.

ghost use Rattle.fond_tree.specs.Parts.{is_dash as is_dash_leaf};
ghost use Rattle.fond_tree.specs.Roles.{word, is_term as is_term_leaf, leaf_code as leaf_code_of, action_keys, passed_over};
ghost use Rattle.fond_tree.specs.Words.{has_head, is_word as is_word_leaf, reserved, is_one_of, is_name as is_name_leaf, is_variable as is_variable_leaf};
ghost use Rattle.fond_tree.specs.Trees.{leaf_of};
ghost use Rattle.std.specs.Prelude.{◌≡◌, Some, None, if◌then◌else◌};
ghost use Rattle.std.specs.Str.{bytes_eq};

use crate::role::{FixedWord, Role};
use crate::tree::Tree;
use fond_text::code::{MISFIT, UNKNOWN_SECTION};

/// Whether a leaf is this word.
pub fn is_word(leaf: &[u8], word: &[u8]) -> bool
    ensures { result ≡ bytes_eq leaf.now word.now }
{
    leaf == word
}

/// Whether a leaf is a reserved word.
pub fn is_reserved(leaf: &[u8]) -> bool
    ensures { result ≡ is_one_of reserved leaf.now }
{
    is_word(leaf, b"and")
        || is_word(leaf, b"or")
        || is_word(leaf, b"not")
        || is_word(leaf, b"imply")
        || is_word(leaf, b"forall")
        || is_word(leaf, b"exists")
        || is_word(leaf, b"when")
        || is_word(leaf, b"oneof")
        || is_word(leaf, b"either")
        || is_word(leaf, b"=")
        || is_word(leaf, b"-")
}

/// Whether a leaf is a variable: it begins with a question mark.
pub fn is_variable(leaf: &[u8]) -> bool
    ensures { result ≡ is_variable_leaf leaf.now }
{
    matches!(leaf, [b'?', ..])
}

/// Whether a leaf is a name: no variable, no keyword and no reserved word.
pub fn is_name(leaf: &[u8]) -> bool
    ensures { result ≡ is_name_leaf leaf.now }
{
    let marked = matches!(leaf, [b'?' | b':', ..]);
    !marked && !is_reserved(leaf)
}

/// Whether a leaf is a term: a name or a variable.
pub fn is_term(leaf: &[u8]) -> bool
    ensures { result ≡ is_term_leaf leaf.now }
{
    is_name(leaf) || is_variable(leaf)
}

/// Whether a leaf is a key of an action.
pub fn is_action_key(leaf: &[u8]) -> bool
    ensures { result ≡ is_one_of action_keys leaf.now }
{
    is_word(leaf, b":parameters") || is_word(leaf, b":precondition") || is_word(leaf, b":effect")
}

/// Whether a section of a problem is passed over, by its head.
pub fn is_passed_over(head: &[u8]) -> bool
    ensures { result ≡ is_one_of passed_over head.now }
{
    is_word(head, b":metric") || is_word(head, b":goal-reward") || is_word(head, b":length")
}

/// Whether a leaf is this fixed word.
fn is_fixed_word(leaf: &[u8], fixed: FixedWord) -> bool
    ensures { result ≡ bytes_eq leaf.now (word fixed) }
{
    match fixed {
        FixedWord::Define => is_word(leaf, b"define"),
        FixedWord::Domain => is_word(leaf, b"domain"),
        FixedWord::Problem => is_word(leaf, b"problem"),
        FixedWord::Either => is_word(leaf, b"either"),
    }
}

/// A code, unless something fits.
fn code_unless(fits: bool, code: u8) -> Option<u8>
    ensures { result ≡ (if fits then None else Some code) }
{
    if fits { None } else { Some(code) }
}

/// The code with which a leaf is refused, if it is.
pub fn leaf_code(role: Role, leaf: &[u8]) -> Option<u8>
    ensures { result ≡ leaf_code_of role leaf.now }
{
    match role {
        Role::Head => None,
        Role::Word(fixed) => code_unless(is_fixed_word(leaf, fixed), MISFIT),
        Role::Name | Role::VariableType => code_unless(is_name(leaf), MISFIT),
        Role::Variable => code_unless(is_variable(leaf), MISFIT),
        Role::Term => code_unless(is_term(leaf), MISFIT),
        Role::Key => code_unless(is_action_key(leaf), UNKNOWN_SECTION),
        _ => Some(MISFIT),
    }
}

/// Whether a tree is the leaf `-`.
pub fn is_dash(tree: &Tree) -> bool
    ensures { result ≡ is_dash_leaf tree.now }
{
    match tree {
        Tree::Leaf(_, name) => is_word(name.bytes(), b"-"),
        Tree::Node(_, _) => false,
    }
}

/// Whether a tree is this leaf.
pub fn is_leaf(tree: &Tree, word: &[u8]) -> bool
    ensures { result ≡ is_word_leaf word.now (leaf_of tree.now) }
{
    match tree {
        Tree::Leaf(_, name) => is_word(name.bytes(), word),
        Tree::Node(_, _) => false,
    }
}

/// Whether a tree is a node that begins with this word.
pub fn begins(tree: &Tree, word: &[u8]) -> bool
    ensures { result ≡ has_head word.now tree.now }
{
    match tree {
        Tree::Leaf(_, _) => false,
        Tree::Node(_, members) => match members.as_slice() {
            [] => false,
            [head, ..] => is_leaf(head, word),
        },
    }
}

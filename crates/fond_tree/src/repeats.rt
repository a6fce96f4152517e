//! Sections and keys that occur a second time, and sections that a problem lacks.

ghost use Rattle.fond_tree.specs.FormFaults.{Repeats, IsRepeated, Lacks, IsIncomplete, single_in_domain, single_in_problem, after_header as after_header_of, keys};
ghost use Rattle.fond_text.specs.Firsts.{IsFirst};
ghost use Rattle.fond_text.specs.declared.code.TheConstants.{REPEATED_SECTION, MISSING_SECTION};
ghost use Rattle.fond_tree.specs.Words.{is_word as is_word_leaf};
ghost use Rattle.fond_tree.specs.Roles.{action_keys};
ghost use Rattle.fond_tree.specs.Trees.{head_of as head_of_tree, leaf_of as leaf_of_tree, place_of as place_of_tree};
ghost use Rattle.std.specs.Bool.{Decides};
ghost use Rattle.std.specs.List.{list_any};
ghost use Rattle.std.specs.Prelude.{◌≡◌, ◌⊎◌, ◌∷◌, [], true, codes, drop};

use crate::leaves::{begins, is_leaf};
use crate::role::Role;
use crate::tree::Tree;
use fond_text::code::{MISSING_SECTION, REPEATED_SECTION};
use fond_text::first::{Found, earlier, found_if};

/// A tree that repeats a head: one with its head was seen before it.
fn again(seen: bool, headed: bool, tree: &Tree) -> Option<Found>
    ensures { IsFirst (λ place code. (seen ≡ true) × (headed ≡ true) × (place ≡ place_of_tree tree.now) × (code ≡ REPEATED_SECTION)) result }
{
    found_if(seen && headed, tree.place(), REPEATED_SECTION)
}

/// The first section that follows another one with this head.
fn repeated_head(sections: &[Tree], head: &[u8]) -> Option<Found>
    ensures { IsFirst (λ place code. Repeats head_of_tree (head.now ∷ []) sections.now place × (code ≡ REPEATED_SECTION)) result }
{
    let mut first = None;
    let mut seen = false;
    for section in sections {
        let headed = begins(section, head);
        first = earlier(first, again(seen, headed, section));
        seen = seen || headed;
    }
    first
}

/// The trees after the first one.
fn after_first(trees: &[Tree]) -> &[Tree]
    ensures { result.now ≡ drop 1 trees.now }
{
    match trees {
        [] => &[],
        [_, after @ ..] => after,
    }
}

/// The first key that is this leaf and follows another one that is.
fn repeated_key(pairs: &[Tree], key: &[u8]) -> Option<Found>
    ensures { IsFirst (λ place code. Repeats leaf_of_tree (key.now ∷ []) (keys pairs.now) place × (code ≡ REPEATED_SECTION)) result }
{
    let mut first = None;
    let mut seen = false;
    let mut rest = pairs;
    while let [one, after @ ..] = rest {
        let headed = is_leaf(one, key);
        first = earlier(first, again(seen, headed, one));
        seen = seen || headed;
        rest = after_first(after);
    }
    first
}

/// The first section of a domain that may occur only once and is repeated.
fn repeated_in_domain(sections: &[Tree]) -> Option<Found>
    ensures { IsFirst (λ place code. Repeats head_of_tree single_in_domain sections.now place × (code ≡ REPEATED_SECTION)) result }
{
    let predicates = repeated_head(sections, b":predicates");
    let constants = earlier(repeated_head(sections, b":constants"), predicates);
    let types = earlier(repeated_head(sections, b":types"), constants);
    earlier(repeated_head(sections, b":requirements"), types)
}

/// The first section of a problem that may occur only once and is repeated.
fn repeated_in_problem(sections: &[Tree]) -> Option<Found>
    ensures { IsFirst (λ place code. Repeats head_of_tree single_in_problem sections.now place × (code ≡ REPEATED_SECTION)) result }
{
    let goal = repeated_head(sections, b":goal");
    let init = earlier(repeated_head(sections, b":init"), goal);
    let objects = earlier(repeated_head(sections, b":objects"), init);
    let domain = earlier(repeated_head(sections, b":domain"), objects);
    earlier(repeated_head(sections, b":requirements"), domain)
}

/// The first key of an action that is repeated.
fn repeated_in_action(pairs: &[Tree]) -> Option<Found>
    ensures { IsFirst (λ place code. Repeats leaf_of_tree action_keys (keys pairs.now) place × (code ≡ REPEATED_SECTION)) result }
{
    let effect = repeated_key(pairs, b":effect");
    let precondition = earlier(repeated_key(pairs, b":precondition"), effect);
    earlier(repeated_key(pairs, b":parameters"), precondition)
}

/// The members of a file after its header, and those of an action after its name.
fn after_header(members: &[Tree]) -> &[Tree]
    ensures { result.now ≡ after_header_of members.now }
{
    match members {
        [_, _, after @ ..] => after,
        _ => &[],
    }
}

/// The first section of a file, or key of an action, that is repeated.
pub fn repeated(role: Role, tree: &Tree) -> Option<Found>
    ensures { IsFirst (λ place code. IsRepeated role tree.now place × (code ≡ REPEATED_SECTION)) result }
{
    match (role, tree.members()) {
        (Role::DomainFile, Some(members)) => repeated_in_domain(after_header(members)),
        (Role::ProblemFile, Some(members)) => repeated_in_problem(after_header(members)),
        (Role::DomainSection, Some(members)) if begins(tree, b":action") => {
            repeated_in_action(after_header(members))
        }
        _ => None,
    }
}

/// Whether some section has this head.
fn has_section(sections: &[Tree], head: &[u8]) -> bool
    ensures { result ≡ list_any (λ tree. is_word_leaf head.now (head_of_tree tree)) sections.now }
{
    sections.iter().any(|section| begins(section, head))
}

/// Whether no section has this head.
fn lacks(sections: &[Tree], head: &[u8]) -> bool
    ensures { Decides result (Lacks head.now sections.now) }
{
    !has_section(sections, head)
}

/// Whether there is no domain or no goal among the sections of a problem.
fn is_incomplete(sections: &[Tree]) -> bool
    ensures { Decides result (Lacks (codes ":domain") sections.now ⊎ Lacks (codes ":goal") sections.now) }
{
    lacks(sections, b":domain") || lacks(sections, b":goal")
}

/// A problem that has no domain or no goal.
pub fn incomplete(role: Role, tree: &Tree) -> Option<Found>
    ensures { IsFirst (λ place code. IsIncomplete role tree.now place × (code ≡ MISSING_SECTION)) result }
{
    match (role, tree.members()) {
        (Role::ProblemFile, Some(members)) => {
            found_if(
                is_incomplete(after_header(members)),
                tree.place(),
                MISSING_SECTION,
            )
        }
        _ => None,
    }
}

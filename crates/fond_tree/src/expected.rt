//! The form that is expected of a node, by its role and its head. Each table is a function of its own.

ghost use Rattle.fond_tree.specs.Roles.{Members, shape, atom as atom_shape, none as no_members, domain_section as domain_section_of, problem_section as problem_section_of, condition as condition_of, effect as effect_of, initial as initial_of, choice as choice_of, atom_or_refused as atom_or_refused_of, section, form_of, node_expected};
ghost use Rattle.fond_tree.specs.Parts.{is_counted as is_counted_shape, is_rest as is_rest_of};
ghost use Rattle.fond_tree.specs.Walks.{seen};
ghost use Rattle.fond_tree.specs.Trees.{is_node as is_node_tree, front as front_of};
ghost use Rattle.std.specs.List.{list_any};
ghost use Rattle.std.specs.Prelude.{◌≡◌, ◌∷◌, [], option_map};

use crate::leaves::{is_name, is_passed_over, is_reserved, is_word};
use crate::role::{FixedWord, Rest, Role};
use crate::tree::{Tree, front};
use fond_text::code::{MISPLACED_OPERATOR, NO_CHOICE, UNKNOWN_SECTION};

/// The members that are expected of a node: the first of them one by one, and the rest.
#[derive(Clone, Copy)]
pub struct Shape {
    pub first: &'static [Role],
    pub rest: Rest,
}

/// What is expected of a node: members of a shape, or it is itself refused with a code.
#[derive(Clone, Copy)]
pub enum Expected {
    Members(Shape),
    Refused(u8),
}

/// Members of a shape.
fn members(first: &'static [Role], rest: Rest) -> Expected
    ensures { seen result ≡ Members (shape first.now rest) }
{
    Expected::Members(Shape { first, rest })
}

/// A section of a domain, by its head.
fn domain_section(head: &[u8]) -> Expected
    ensures { seen result ≡ domain_section_of head.now }
{
    if is_word(head, b":requirements") {
        members(&[Role::Head], Rest::Unread)
    } else if is_word(head, b":types") || is_word(head, b":constants") {
        members(&[Role::Head], Rest::Typed(Role::Name, Role::Name))
    } else if is_word(head, b":predicates") {
        members(&[Role::Head], Rest::Each(Role::Predicate))
    } else if is_word(head, b":action") {
        members(&[Role::Head, Role::Name], Rest::Pairs)
    } else {
        Expected::Refused(UNKNOWN_SECTION)
    }
}

/// A section of a problem, by its head.
fn problem_section(head: &[u8]) -> Expected
    ensures { seen result ≡ problem_section_of head.now }
{
    if is_word(head, b":requirements") {
        members(&[Role::Head], Rest::Unread)
    } else if is_word(head, b":domain") {
        members(&[Role::Head, Role::Name], Rest::NoMore)
    } else if is_word(head, b":objects") {
        members(&[Role::Head], Rest::Typed(Role::Name, Role::Name))
    } else if is_word(head, b":init") {
        members(&[Role::Head], Rest::Each(Role::Initial))
    } else if is_word(head, b":goal") {
        members(&[Role::Head, Role::Condition], Rest::NoMore)
    } else if is_passed_over(head) {
        members(&[Role::Head], Rest::Unread)
    } else {
        Expected::Refused(UNKNOWN_SECTION)
    }
}

/// An atom: a name and terms.
fn atom() -> Expected
    ensures { seen result ≡ Members atom_shape }
{
    members(&[Role::Name], Rest::Each(Role::Term))
}

/// No members.
fn nothing() -> Expected
    ensures { seen result ≡ Members no_members }
{
    members(&[], Rest::NoMore)
}

/// Whether some tree is a node.
fn has_node(trees: &[Tree]) -> bool
    ensures { result ≡ list_any is_node_tree trees.now }
{
    trees.iter().any(|tree| tree.is_node())
}

/// An atom at a place where operators are allowed, by its head, which is no operator there. A reserved word is refused,
/// and so is a name that a node follows.
fn atom_or_refused(head: &[u8], after: &[Tree]) -> Expected
    ensures { seen result ≡ atom_or_refused_of head.now after.now }
{
    if is_reserved(head) || (is_name(head) && has_node(after)) {
        Expected::Refused(MISPLACED_OPERATOR)
    } else {
        atom()
    }
}

/// A condition, by its head.
fn condition(head: &[u8], after: &[Tree]) -> Expected
    ensures { seen result ≡ condition_of head.now after.now }
{
    if is_word(head, b"and") || is_word(head, b"or") {
        members(&[Role::Head], Rest::Each(Role::Condition))
    } else if is_word(head, b"not") {
        members(&[Role::Head, Role::Condition], Rest::NoMore)
    } else if is_word(head, b"imply") {
        members(
            &[Role::Head, Role::Condition, Role::Condition],
            Rest::NoMore,
        )
    } else if is_word(head, b"forall") || is_word(head, b"exists") {
        members(
            &[Role::Head, Role::Variables, Role::Condition],
            Rest::NoMore,
        )
    } else if is_word(head, b"=") {
        members(&[Role::Head, Role::Term, Role::Term], Rest::NoMore)
    } else {
        atom_or_refused(head, after)
    }
}

/// A choice has at least one member.
fn choice(after: &[Tree]) -> Expected
    ensures { seen result ≡ choice_of after.now }
{
    match after {
        [] => Expected::Refused(NO_CHOICE),
        [_, ..] => members(&[Role::Head], Rest::Each(Role::Effect)),
    }
}

/// An effect, by its head.
fn effect(head: &[u8], after: &[Tree]) -> Expected
    ensures { seen result ≡ effect_of head.now after.now }
{
    if is_word(head, b"and") {
        members(&[Role::Head], Rest::Each(Role::Effect))
    } else if is_word(head, b"not") {
        members(&[Role::Head, Role::Atom], Rest::NoMore)
    } else if is_word(head, b"forall") {
        members(&[Role::Head, Role::Variables, Role::Effect], Rest::NoMore)
    } else if is_word(head, b"when") {
        members(&[Role::Head, Role::Condition, Role::Effect], Rest::NoMore)
    } else if is_word(head, b"oneof") {
        choice(after)
    } else {
        atom_or_refused(head, after)
    }
}

/// An initial atom, by its head.
fn initial(head: &[u8], after: &[Tree]) -> Expected
    ensures { seen result ≡ initial_of head.now after.now }
{
    if is_word(head, b"not") {
        members(&[Role::Head, Role::Atom], Rest::NoMore)
    } else {
        atom_or_refused(head, after)
    }
}

/// A section without a head: a leaf is expected there.
fn headless() -> Expected
    ensures { seen result ≡ Members (shape (Role.Name ∷ []) Rest.Unread) }
{
    members(&[Role::Name], Rest::Unread)
}

/// A section of a domain, by its members.
fn domain_section_of(trees: &[Tree]) -> Expected
    ensures { seen result ≡ section domain_section_of (front_of trees.now) }
{
    match front(trees) {
        None => headless(),
        Some(head) => domain_section(head),
    }
}

/// A section of a problem, by its members.
fn problem_section_of(trees: &[Tree]) -> Expected
    ensures { seen result ≡ section problem_section_of (front_of trees.now) }
{
    match front(trees) {
        None => headless(),
        Some(head) => problem_section(head),
    }
}

/// A condition, by its members.
fn condition_of(trees: &[Tree]) -> Expected
    ensures { seen result ≡ form_of no_members condition_of trees.now }
{
    match trees {
        [] => nothing(),
        [Tree::Leaf(_, head), after @ ..] => condition(head.bytes(), after),
        [Tree::Node(_, _), ..] => atom(),
    }
}

/// An effect, by its members.
fn effect_of(trees: &[Tree]) -> Expected
    ensures { seen result ≡ form_of no_members effect_of trees.now }
{
    match trees {
        [] => nothing(),
        [Tree::Leaf(_, head), after @ ..] => effect(head.bytes(), after),
        [Tree::Node(_, _), ..] => atom(),
    }
}

/// An initial atom, by its members.
fn initial_of(trees: &[Tree]) -> Expected
    ensures { seen result ≡ form_of atom_shape initial_of trees.now }
{
    match trees {
        [Tree::Leaf(_, head), after @ ..] => initial(head.bytes(), after),
        _ => atom(),
    }
}

/// The header of a file: its fixed word and its name.
fn header(fixed: FixedWord) -> Expected
    ensures { seen result ≡ Members (shape (Role.Word fixed ∷ Role.Name ∷ []) Rest.NoMore) }
{
    match fixed {
        FixedWord::Define => members(&[Role::Word(FixedWord::Define), Role::Name], Rest::NoMore),
        FixedWord::Domain => members(&[Role::Word(FixedWord::Domain), Role::Name], Rest::NoMore),
        FixedWord::Problem => members(&[Role::Word(FixedWord::Problem), Role::Name], Rest::NoMore),
        FixedWord::Either => members(&[Role::Word(FixedWord::Either), Role::Name], Rest::NoMore),
    }
}

/// What is expected of the node of these members: none if a leaf is expected.
pub fn expected_of(role: Role, trees: &[Tree]) -> Option<Expected>
    ensures { option_map seen result ≡ node_expected role trees.now }
{
    match role {
        Role::DomainFile => Some(members(
            &[
                Role::Word(FixedWord::Define),
                Role::Header(FixedWord::Domain),
            ],
            Rest::Each(Role::DomainSection),
        )),
        Role::ProblemFile => Some(members(
            &[
                Role::Word(FixedWord::Define),
                Role::Header(FixedWord::Problem),
            ],
            Rest::Each(Role::ProblemSection),
        )),
        Role::Header(fixed) => Some(header(fixed)),
        Role::DomainSection => Some(domain_section_of(trees)),
        Role::ProblemSection => Some(problem_section_of(trees)),
        Role::Predicate => Some(members(
            &[Role::Name],
            Rest::Typed(Role::Variable, Role::VariableType),
        )),
        Role::Variables => Some(members(&[], Rest::Typed(Role::Variable, Role::VariableType))),
        Role::VariableType => Some(members(
            &[Role::Word(FixedWord::Either), Role::Name],
            Rest::Each(Role::Name),
        )),
        Role::Condition => Some(condition_of(trees)),
        Role::Effect => Some(effect_of(trees)),
        Role::Initial => Some(initial_of(trees)),
        Role::Atom => Some(atom()),
        _ => None,
    }
}

/// Whether nothing is missing of the rest and nothing is too many.
fn is_rest(rest: Rest, trees: &[Tree]) -> bool
    ensures { result ≡ is_rest_of rest trees.now }
{
    match rest {
        Rest::NoMore => trees.is_empty(),
        Rest::Pairs => trees.len() % 2 == 0,
        Rest::Each(_) | Rest::Typed(_, _) | Rest::Unread => true,
    }
}

/// Whether no member of a shape is missing and none is too many.
pub fn is_counted(shape: Shape, trees: &[Tree]) -> bool
    ensures { result ≡ is_counted_shape shape.first.now shape.rest trees.now }
{
    let first = shape.first.len();
    first <= trees.len() && is_rest(shape.rest, &trees[first..])
}

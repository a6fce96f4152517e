//! Values of a sort at the beginning of a text. Each call takes time in the length of what it reads, and no memory.

ghost use Rattle.fond_form.specs.Cutting.{HasNoValue, BeginsWith, HasNoWords, BeginsWithWords};
ghost use Rattle.fond_form.specs.WordTests.{test_of};
ghost use Rattle.fond_form.specs.declared.table.Sort.TheVariants.{Nothing as NothingSort, Action as ActionSort, Short as ShortSort, Target as TargetSort, Literals as LiteralsSort};
ghost use Rattle.std.specs.Prelude.{MatchOption};

use crate::scan::{are_literals, group};
use crate::table::Sort;
use crate::word::{WordKind, after_words, is_number, is_target, word};

/// A value and the rest of the text.
type Split<'a> = (&'a [u8], &'a [u8]);

/// Nothing, if the text ends.
fn nothing<'a>(text: &'a [u8]) -> Option<Split<'a>>
    ensures { MatchOption result (HasNoValue NothingSort text.now) (λ parts. BeginsWith NothingSort text.now parts.0.now parts.1.now) }
{
    if text.is_empty() {
        Some(text.split_at(0))
    } else {
        None
    }
}

/// An action.
fn action<'a>(text: &'a [u8]) -> Option<Split<'a>>
    ensures { MatchOption result (HasNoValue ActionSort text.now) (λ parts. BeginsWith ActionSort text.now parts.0.now parts.1.now) }
{
    group(text)
}

/// A number.
fn number<'a>(text: &'a [u8]) -> Option<Split<'a>>
    ensures { MatchOption result (HasNoValue ShortSort text.now) (λ parts. BeginsWith ShortSort text.now parts.0.now parts.1.now) }
{
    let (digits, rest) = word(text);
    if is_number(digits) {
        Some((digits, rest))
    } else {
        None
    }
}

/// A target.
fn target<'a>(text: &'a [u8]) -> Option<Split<'a>>
    ensures { MatchOption result (HasNoValue TargetSort text.now) (λ parts. BeginsWith TargetSort text.now parts.0.now parts.1.now) }
{
    let (found, rest) = word(text);
    if is_target(found) {
        Some((found, rest))
    } else {
        None
    }
}

/// All the words of the kind, at least one and each after a space.
fn words<'a>(kind: WordKind, text: &'a [u8]) -> Option<Split<'a>>
    ensures { MatchOption result (HasNoWords (test_of kind) text.now) (λ parts. BeginsWithWords (test_of kind) text.now parts.0.now parts.1.now) }
{
    let rest = after_words(kind, text);
    if rest.len() == text.len() {
        return None;
    }
    Some(text.split_at(text.len() - rest.len()))
}

/// Literals, if nothing follows them.
fn literals<'a>(text: &'a [u8]) -> Option<Split<'a>>
    ensures { MatchOption result (HasNoValue LiteralsSort text.now) (λ parts. BeginsWith LiteralsSort text.now parts.0.now parts.1.now) }
{
    if are_literals(text) {
        Some(text.split_at(text.len()))
    } else {
        None
    }
}

/// The value of the sort with which the text begins, up to where it ends, and the rest.
pub(crate) fn value_of<'a>(sort: Sort, text: &'a [u8]) -> Option<Split<'a>>
    ensures { MatchOption result (HasNoValue sort text.now) (λ parts. BeginsWith sort text.now parts.0.now parts.1.now) }
{
    match sort {
        Sort::Nothing => nothing(text),
        Sort::Action => action(text),
        Sort::Short => number(text),
        Sort::Long => number(text),
        Sort::Target => target(text),
        Sort::Shorts => words(WordKind::Number, text),
        Sort::Targets => words(WordKind::Target, text),
        Sort::Literals => literals(text),
    }
}

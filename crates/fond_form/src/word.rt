//! The words of a line: numbers and targets. Each call takes time in the length of what it reads, and no memory.

ghost use Rattle.std.specs.Fmt.{decimal};
ghost use Rattle.std.specs.Prelude.{◌≡◌, ◌≢◌, ◌^◌, ◌<◌, ◌≤◌, ◌++◌, List, ℕ, IsTrue, MatchOption, codes};
ghost use Rattle.std.specs.Str.Parse.{digits_value};
ghost use Rattle.fond_form.specs.Lines.{is_number, is_target, AreWords, spaced};
ghost use Rattle.std.specs.Char.{is_ascii_digit};
ghost use Rattle.std.specs.List.{list_all};
ghost use Rattle.fond_form.specs.Parts.{EndsWord, HasNoWord, IsCut};
ghost use Rattle.fond_form.specs.WordTests.{test_of};

use crate::scan::{after, len_before};
use fond_text::number::read_number;

/// A kind of words of which a line has several.
#[derive(Clone, Copy)]
pub(crate) enum WordKind {
    Target,
    Number,
}

/// Whether all bytes are digits.
fn are_digits(word: &[u8]) -> bool
    ensures { result ≡ list_all is_ascii_digit word.now }
{
    word.iter().all(|b| b.is_ascii_digit())
}

/// The bytes before the first space, and the rest.
pub fn word<'a>(text: &'a [u8]) -> (&'a [u8], &'a [u8])
    ensures { IsCut text.now result.0.now result.1.now }
{
    text.split_at(len_before(text, b' '))
}

/// Whether the word is a number: digits, the first of which is 0 only if it is the only one.
pub(crate) fn is_number(word: &[u8]) -> bool
    ensures { result ≡ is_number word.now }
{
    match word.split_first() {
        Some((b, rest)) => {
            b.is_ascii_digit() && (*b != b'0' || rest.is_empty()) && are_digits(rest)
        }
        None => false,
    }
}

/// The value of a number, or nothing if it is 2^64 or more.
pub fn number(digits: &[u8]) -> Option<u64>
    requires { IsTrue (is_number digits.now) }
    ensures value { MatchOption result (2 ^ 64 ≤ digits_value 10 digits.now) (λ n. n ≡ digits_value 10 digits.now) }
    ensures written { MatchOption result ((n : ℕ) → n < 2 ^ 64 → digits.now ≢ decimal n) (λ n. digits.now ≡ decimal n) }
{
    Some(read_number(digits)?)
}

/// Whether the word is a target: `goal` or a number.
pub(crate) fn is_target(word: &[u8]) -> bool
    ensures { result ≡ is_target word.now }
{
    word == b"goal".as_slice() || is_number(word)
}

/// Whether the word is of the kind.
fn is_of(kind: WordKind, word: &[u8]) -> bool
    ensures { result ≡ test_of kind word.now }
{
    match kind {
        WordKind::Target => is_target(word),
        WordKind::Number => is_number(word),
    }
}

/// The rest after a space and a word of the kind, if the text begins with them.
fn after_word<'a>(kind: WordKind, text: &'a [u8]) -> Option<&'a [u8]>
    ensures { MatchOption result (HasNoWord (test_of kind) text.now)
        (λ rest. (word : List ℕ) × IsTrue (test_of kind word) × EndsWord rest.now × (text.now ≡ codes " " ++ (word ++ rest.now))) }
{
    let (word, rest) = word(after(text, b" ")?);
    if is_of(kind, word) { Some(rest) } else { None }
}

/// The rest after all the words of the kind with which the text begins, each after a space.
pub(crate) fn after_words<'a>(kind: WordKind, text: &'a [u8]) -> &'a [u8]
    ensures ended { HasNoWord (test_of kind) result.now }
    ensures cut { (words : List (List ℕ)) × AreWords (test_of kind) words × (text.now ≡ spaced words ++ result.now) }
    ensures ends { EndsWord text.now → EndsWord result.now }
{
    let mut rest = text;
    while let Some(next) = after_word(kind, rest) {
        rest = next;
    }
    rest
}

//! Reading actions, numbers and targets.

ghost use Rattle.fond_cert.specs.Checked.{IsValueText, Means, IsValueRefused, ReadsNumber};
ghost use Rattle.fond_cert.specs.Refusals.{LineRefuses};
ghost use Rattle.fond_cert.specs.Spellings.{target_word};
ghost use Rattle.fond_cert.specs.Words.{target_code};
ghost use Rattle.fond_cert.specs.declared.code.TheConstants.{TOO_LARGE};
ghost use Rattle.fond_cert.specs.declared.error.LineError.TheVariants.{Refused as RefusedLine};
ghost use Rattle.fond_form.specs.Lines.{is_number, is_target};
ghost use Rattle.fond_form.specs.declared.table.Sort.TheVariants.{Action, Short, Long, Target as TargetSort, Shorts, Targets};
ghost use Rattle.fond_policy.specs.Sizes.{IsSmallTarget};
ghost use Rattle.fond_task.specs.declared.task.Task.{Task};
ghost use Rattle.std.specs.Prelude.{◌≡◌, ◌+◌, ◌<◌, ◌≤◌, ◌^◌, Some, None, length, IsTrue, MatchOption, IfOk, IfErr};
ghost use Rattle.std.specs.Str.Parse.{digits_value};

use crate::code::{TOO_LARGE, UNKNOWN_ACTION};
use crate::error::LineError;
use crate::task_index::TaskIndex;
use fond_form::part::Part;
use fond_form::scan::after;
use fond_form::word::{number, word};
use fond_policy::item::ItemNumbers;
use fond_task::rule::{Target, TargetList};
use std::alloc::Global;

/// The number of an action.
pub(crate) fn read_act(index: &TaskIndex, action: Part) -> Result<u32, LineError>
    requires { IsValueText Action action.text.now }
    ensures read { IfOk result (Means index.now action.entry.at Action action.entry.text.now) }
    ensures wrong { IfErr result (LineRefuses (IsValueRefused index.now action.entry.at Action action.entry.text.now)) }
{
    match index.act(action.text) {
        Some(act) => Ok(act),
        None => Err(LineError::Refused {
            code: UNKNOWN_ACTION,
            at: action.at,
        }),
    }
}

/// The value of a number, or nothing if it is 2^32 or more.
fn short_number(digits: &[u8]) -> Option<u32>
    requires { IsTrue (is_number digits.now) }
    ensures { MatchOption result (2 ^ 32 ≤ digits_value 10 digits.now) (ReadsNumber digits.now) }
{
    u32::try_from(number(digits)?).ok()
}

/// The refusal of a number that is too large.
fn too_large(digits: Part) -> LineError
    ensures { result ≡ RefusedLine TOO_LARGE digits.entry.at }
{
    LineError::Refused {
        code: TOO_LARGE,
        at: digits.at,
    }
}

/// The value of a number below 2^32.
pub(crate) fn read_short(digits: Part) -> Result<u32, LineError>
    requires { IsValueText Short digits.text.now }
    ensures read { IfOk result (λ number. (task : Task) → Means task digits.entry.at Short digits.entry.text.now number) }
    ensures wrong { IfErr result (λ error. (task : Task) → LineRefuses (IsValueRefused task digits.entry.at Short digits.entry.text.now) error) }
{
    match short_number(digits.text) {
        Some(n) => Ok(n),
        None => Err(too_large(digits)),
    }
}

/// The value of a number below 2^64.
pub(crate) fn read_long(digits: Part) -> Result<u64, LineError>
    requires { IsValueText Long digits.text.now }
    ensures read { IfOk result (λ number. (task : Task) → Means task digits.entry.at Long digits.entry.text.now number) }
    ensures wrong { IfErr result (λ error. (task : Task) → LineRefuses (IsValueRefused task digits.entry.at Long digits.entry.text.now) error) }
{
    match number(digits.text) {
        Some(n) => Ok(n),
        None => Err(too_large(digits)),
    }
}

/// The target that the word writes, or nothing if its number is 2^32 or more.
fn target(word: &[u8]) -> Option<Target>
    requires { IsTrue (is_target word.now) }
    ensures { MatchOption result (target_code word.now ≡ Some TOO_LARGE)
        (λ target. (target_code word.now ≡ None) × (word.now ≡ target_word target) × IsSmallTarget target) }
{
    if word == b"goal".as_slice() {
        return Some(Target::Goal);
    }
    Some(Target::Rule(short_number(word)?))
}

/// A target.
pub(crate) fn read_target(word: Part) -> Result<Target, LineError>
    requires { IsValueText TargetSort word.text.now }
    ensures read { IfOk result (λ target. (task : Task) → Means task word.entry.at TargetSort word.entry.text.now target) }
    ensures wrong { IfErr result (λ error. (task : Task) → LineRefuses (IsValueRefused task word.entry.at TargetSort word.entry.text.now) error) }
{
    match target(word.text) {
        Some(target) => Ok(target),
        None => Err(too_large(word)),
    }
}

/// The targets of the text, each after a space. The text begins at this byte of its line.
fn targets_at(alloc: Global, text: &[u8], at: usize) -> Result<TargetList, LineError>
    requires spelled { IsValueText Targets text.now }
    requires within { at + length text.now < 2 ^ 64 }
    ensures read { IfOk result (λ targets. (task : Task) → Means task at Targets text.now targets) }
    ensures wrong { IfErr result (λ error. (task : Task) → LineRefuses (IsValueRefused task at Targets text.now) error) }
{
    let mut targets = TargetList::new(alloc);
    let mut rest = text;
    while let Some(inner) = after(rest, b" ") {
        let (word, further) = word(inner);
        let Some(target) = target(word) else {
            return Err(LineError::Refused {
                code: TOO_LARGE,
                at: at + (text.len() - inner.len()),
            });
        };
        targets.push(target)?;
        rest = further;
    }
    Ok(targets)
}

/// Targets. Takes time in the length of their text; memory for the targets.
pub(crate) fn read_targets(alloc: Global, targets: Part) -> Result<TargetList, LineError>
    requires { IsValueText Targets targets.text.now }
    ensures read { IfOk result (λ read. (task : Task) → Means task targets.entry.at Targets targets.entry.text.now read) }
    ensures wrong { IfErr result (λ error. (task : Task) → LineRefuses (IsValueRefused task targets.entry.at Targets targets.entry.text.now) error) }
{
    targets_at(alloc, targets.text, targets.at)
}

/// The numbers of the text, each after a space. The text begins at this byte of its line.
fn numbers_at(alloc: Global, text: &[u8], at: usize) -> Result<ItemNumbers, LineError>
    requires spelled { IsValueText Shorts text.now }
    requires within { at + length text.now < 2 ^ 64 }
    ensures read { IfOk result (λ numbers. (task : Task) → Means task at Shorts text.now numbers) }
    ensures wrong { IfErr result (λ error. (task : Task) → LineRefuses (IsValueRefused task at Shorts text.now) error) }
{
    let mut numbers = ItemNumbers::new(alloc);
    let mut rest = text;
    while let Some(inner) = after(rest, b" ") {
        let (word, further) = word(inner);
        let Some(number) = short_number(word) else {
            return Err(LineError::Refused {
                code: TOO_LARGE,
                at: at + (text.len() - inner.len()),
            });
        };
        numbers.push(number)?;
        rest = further;
    }
    Ok(numbers)
}

/// The numbers of items. Takes time in the length of their text; memory for the numbers.
pub(crate) fn read_item_numbers(alloc: Global, items: Part) -> Result<ItemNumbers, LineError>
    requires { IsValueText Shorts items.text.now }
    ensures read { IfOk result (λ read. (task : Task) → Means task items.entry.at Shorts items.entry.text.now read) }
    ensures wrong { IfErr result (λ error. (task : Task) → LineRefuses (IsValueRefused task items.entry.at Shorts items.entry.text.now) error) }
{
    numbers_at(alloc, items.text, items.at)
}

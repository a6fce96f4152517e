//! Reading a script: the numbers of recorded outcomes. Its words are its longest runs of bytes other than blanks, and
//! each must be a number.

ghost use Rattle.fond_text.specs.Bytes.{is_blank};
ghost use Rattle.fond_exec.specs.Scripts.{IsNumber, IsScript, IsScriptFault, ScriptRefuses};
ghost use Rattle.fond_exec.specs.declared.script.ScriptError.TheVariants.{NoMemory as OutOfMemory};
ghost use Rattle.std.specs.List.{prefix_len};
ghost use Rattle.std.specs.Prelude.{◌≡◌, ℕ, not, IfOk, IfErr, IfSome, IfNone};

use fond_text::bytes::is_blank;
use fond_text::number::read_number;
use std::alloc::{AllocFailed, Global};

/// Why a text is no script.
#[derive(Clone, Copy, Debug)]
pub enum ScriptError {
    /// The word that begins at this byte, counted from 0, is not the digits of a number below 2^32, without a sign or
    /// a leading zero.
    Refused { byte: u64 },
    NoMemory,
}

impl<T: Drop> From<AllocFailed<T>> for ScriptError {
    ghost from_gives = { λ _ e. e ≡ OutOfMemory };

    fn from(_e: AllocFailed<T>) -> ScriptError {
        ScriptError::NoMemory
    }
}

/// The number of bytes before the first blank.
fn word_len(b: &[u8]) -> usize
    ensures { result ≡ prefix_len (λ c. not (is_blank c)) b.now }
{
    b.iter().take_while(|x| !is_blank(**x)).count()
}

/// The number below 2^32 of which the word is the digits, if there is one.
fn number_of(word: &[u8]) -> Option<u32>
    ensures some { IfSome result (λ n. IsNumber word.now n) }
    ensures none { IfNone result ((n : ℕ) → ¬ IsNumber word.now n) }
{
    u32::try_from(read_number(word)?).ok()
}

/// The numbers that a script spells, or the byte of its fault. Takes time in the length of the text, and memory in the
/// count of the numbers.
pub fn read_script(alloc: Global, text: &[u8]) -> Result<Vec<u32>, ScriptError>
    ensures read { IfOk result (λ numbers. IsScript text.now numbers.items) }
    ensures refused { IfErr result (ScriptRefuses (IsScriptFault text.now)) }
{
    let mut numbers = Vec::new(alloc);
    let mut rest = text;
    while let Some((_, further)) = rest.split_first() {
        let count = word_len(rest);
        if count == 0 {
            rest = further;
            continue;
        }
        let (word, after) = rest.split_at(count);
        let Some(number) = number_of(word) else {
            return Err(ScriptError::Refused {
                byte: (text.len() - rest.len()) as u64,
            });
        };
        numbers.push(number)?;
        rest = after;
    }
    Ok(numbers)
}

//! The parts of a line. Each call reads a part at the beginning of a text and answers it with the rest of the text. It
//! takes time in the length of what it reads, and no memory.

ghost use Rattle.std.specs.List.{prefix_len};
ghost use Rattle.std.specs.Prelude.{◌==◌, not, ◌≡◌, ◌≢◌, ◌++◌, ◌↔◌, ℕ, Bool, List, false, true, option_map, MatchOption, codes};
ghost use Rattle.fond_form.specs.Lines.{is_plain_byte, sign_text};
ghost use Rattle.fond_form.specs.Parts.{IsGroupText, HasNoGroup, after_leaves, IsLiteralsText, HasNoLiteral};

/// Whether the byte may occur in a leaf of a certificate.
fn is_plain_byte(b: u8) -> bool
    ensures { result ≡ is_plain_byte b }
{
    b.is_ascii_graphic() && b != b'(' && b != b')' && b != b';' && !b.is_ascii_uppercase()
}

/// The rest after leaves, separated by single spaces, and their closing parenthesis.
fn after_leaves<'a>(text: &'a [u8]) -> Option<&'a [u8]>
    ensures { option_map (λ rest. rest.now) result ≡ after_leaves false text.now }
{
    let mut is_open = false;
    let mut rest = text;
    while let Some((b, further)) = rest.split_first() {
        if is_plain_byte(*b) {
            is_open = true;
        } else if is_open && *b == b' ' {
            is_open = false;
        } else if is_open && *b == b')' {
            return Some(further);
        } else {
            return None;
        }
        rest = further;
    }
    None
}

/// The number of bytes before the first one that is this byte.
pub(crate) fn len_before(text: &[u8], end: u8) -> usize
    ensures { result ≡ prefix_len (λ b. not (b == end)) text.now }
{
    text.iter().take_while(|b| **b != end).count()
}

/// The rest after the word, if the text begins with it.
pub fn after<'a>(text: &'a [u8], word: &[u8]) -> Option<&'a [u8]>
    ensures { MatchOption result ((rest : List ℕ) → text.now ≢ word.now ++ rest) (λ rest. text.now ≡ word.now ++ rest.now) }
{
    text.strip_prefix(word)
}

/// The atom or action at the beginning of the text, and the rest.
pub(crate) fn group<'a>(text: &'a [u8]) -> Option<(&'a [u8], &'a [u8])>
    ensures { MatchOption result (HasNoGroup text.now) (λ parts. IsGroupText parts.0.now × (text.now ≡ parts.0.now ++ parts.1.now)) }
{
    let rest = after_leaves(after(text, b"(")?)?;
    Some((&text[..text.len() - rest.len()], rest))
}

/// The sign at the beginning of the text, and the rest.
fn sign<'a>(text: &'a [u8]) -> Option<(bool, &'a [u8])>
    ensures { MatchOption result ((sign : Bool) (rest : List ℕ) → text.now ≢ sign_text sign ++ rest) (λ parts. text.now ≡ sign_text parts.0 ++ parts.1.now) }
{
    match text.split_first() {
        Some((b'+', rest)) => Some((true, rest)),
        Some((b'-', rest)) => Some((false, rest)),
        _ => None,
    }
}

/// The literal at the beginning of the text: whether its sign is `+`, its atom, and the rest.
pub fn literal<'a>(text: &'a [u8]) -> Option<(bool, &'a [u8], &'a [u8])>
    ensures { MatchOption result (HasNoLiteral text.now) (λ parts. IsGroupText parts.1.now × (text.now ≡ codes " " ++ (sign_text parts.0 ++ (parts.1.now ++ parts.2.now)))) }
{
    let (sign, further) = sign(after(text, b" ")?)?;
    let (atom, rest) = group(further)?;
    Some((sign, atom, rest))
}

/// Whether the text is that of literals.
pub(crate) fn are_literals(text: &[u8]) -> bool
    ensures { result ≡ true ↔ IsLiteralsText text.now }
{
    let mut rest = text;
    while let Some((_, _, further)) = literal(rest) {
        rest = further;
    }
    rest.is_empty()
}

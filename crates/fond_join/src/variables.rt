//! The variables that occur in a condition.

ghost use Rattle.fond_ast.specs.Laws.{has_variable};
ghost use Rattle.fond_ast.specs.Patterns.{is_variable};
ghost use Rattle.std.specs.List.{list_any};
ghost use Rattle.std.specs.Prelude.{◌≡◌, ◌≤◌, ◌<◌, ℕ, true, false, map};

use fond_ast::form::{LCond, LTerm};

/// Whether a term is a variable with a number from `start` on and below `end`.
fn is_between(term: LTerm, start: usize, end: usize) -> bool
    ensures { result ≡ false → (number : ℕ) → start ≤ number → number < end → is_variable number term ≡ false }
{
    match term {
        LTerm::Object(_) => false,
        LTerm::Variable(number) => start <= number as usize && (number as usize) < end,
    }
}

/// Whether such a variable is among terms.
fn are_between(terms: &[LTerm], start: usize, end: usize) -> bool
    ensures { result ≡ false → (number : ℕ) → start ≤ number → number < end → list_any (is_variable number) terms.now ≡ false }
{
    for term in terms {
        if is_between(*term, start, end) {
            return true;
        }
    }
    false
}

/// Whether a variable with a number from `start` on and below `end` occurs in a condition. Takes time in the size of the
/// condition, and no memory.
#[cycle(finding)]
pub fn has_variables(condition: &LCond, start: usize, end: usize) -> bool
    ensures { result ≡ false → (number : ℕ) → start ≤ number → number < end → has_variable number condition.now ≡ false }
{
    match condition {
        LCond::Truth => false,
        LCond::Holds(atom) => are_between(atom.terms.as_slice(), start, end),
        LCond::Equal(term, other) => {
            is_between(*term, start, end) || is_between(*other, start, end)
        }
        LCond::And(parts) => have_variables(parts, start, end),
        LCond::Or(parts) => have_variables(parts, start, end),
        LCond::Not(part) => has_variables(part, start, end),
        LCond::Imply(part, other) => {
            has_variables(part, start, end) || has_variables(other, start, end)
        }
        LCond::Forall(_, part) => has_variables(part, start, end),
        LCond::Exists(_, part) => has_variables(part, start, end),
    }
}

/// Whether such a variable occurs in some part.
#[cycle(finding)]
fn have_variables(parts: &[LCond], start: usize, end: usize) -> bool
    ensures { result ≡ false → (number : ℕ) → start ≤ number → number < end → list_any (λ found. found) (map (has_variable number) parts.now) ≡ false }
{
    for part in parts {
        if has_variables(part, start, end) {
            return true;
        }
    }
    false
}

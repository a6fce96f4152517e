//! What must be known before an outcome, so that some atoms are known after it.

use crate::reason::{explain, is_decided, is_true};
use fond_moves::index::{Literal, has, put_bit, size, word_at};
use fond_task::task::{Entry, Outcome};

/// Whether the entry gives the atom of the literal its value, if its condition is true.
fn concerns(entry: &Entry, literal: Literal) -> bool {
    entry.atom == literal.atom && entry.add == literal.sign
}

/// Whether some entry makes the literal true from the state.
fn gives(outcome: &Outcome, literal: Literal, state: &[u64]) -> bool {
    for entry in outcome {
        if concerns(entry, literal) && is_true(&entry.cond, state) {
            return true;
        }
    }
    false
}

/// Whether the known atoms decide that some entry makes the literal true.
fn is_given(outcome: &Outcome, literal: Literal, state: &[u64], known: &[u64]) -> bool {
    for entry in outcome {
        if concerns(entry, literal) && is_decided(&entry.cond, true, state, known) {
            return true;
        }
    }
    false
}

/// Makes known why no entry makes the literal true.
fn explain_none(outcome: &Outcome, literal: Literal, state: &[u64], known: &mut [u64]) {
    for entry in outcome {
        if concerns(entry, literal) {
            explain(&entry.cond, false, state, known);
        }
    }
}

/// Makes known why the first entry that makes the literal true does so.
fn explain_one(outcome: &Outcome, literal: Literal, state: &[u64], known: &mut [u64]) {
    for entry in outcome {
        if concerns(entry, literal) && is_true(&entry.cond, state) {
            explain(&entry.cond, true, state, known);
            return;
        }
    }
}

/// Makes known why the literal is true after the outcome, which it must be: an entry gives the atom its value, or the atom
/// had it before and no entry takes it away. An atom that is added and deleted is true.
fn explain_after(outcome: &Outcome, literal: Literal, state: &[u64], known: &mut [u64]) {
    let Literal { atom, sign } = literal;
    let opposite = Literal { atom, sign: !sign };
    if !sign {
        explain_none(outcome, opposite, state, known);
    }
    if is_given(outcome, literal, state, known) {
        return;
    }
    if has(state, atom) != sign || (sign && gives(outcome, opposite, state)) {
        explain_one(outcome, literal, state, known);
        return;
    }
    put_bit(known, atom, true);
    if sign {
        explain_none(outcome, opposite, state, known);
    }
}

/// Notes which atoms the outcome may change.
fn touch(outcome: &Outcome, touched: &mut [u64]) {
    for entry in outcome {
        put_bit(touched, entry.atom, true);
    }
}

/// Makes the asked atoms known that the outcome leaves alone.
fn know_untouched(asked: &[u64], touched: &[u64], known: &mut [u64]) {
    for (i, word) in known.iter_mut().enumerate() {
        *word |= word_at(asked, size(i)) & !word_at(touched, size(i));
    }
}

/// Makes atoms of the state known such that the asked ones are known after the outcome, which leads to `next`. `touched` has
/// no atom, before and afterwards. Takes time in the width of a state, and for each asked atom that an entry may change in the
/// number of entries.
pub fn regress(
    outcome: &Outcome,
    state: &[u64],
    next: &[u64],
    asked: &[u64],
    touched: &mut [u64],
    known: &mut [u64],
) {
    touch(outcome, touched);
    know_untouched(asked, touched, known);
    for entry in outcome {
        let atom = entry.atom;
        if has(touched, atom) && has(asked, atom) {
            let sign = has(next, atom);
            explain_after(outcome, Literal { atom, sign }, state, known);
        }
        put_bit(touched, atom, false);
    }
}

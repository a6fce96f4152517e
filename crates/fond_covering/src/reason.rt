//! Reasons: atoms of a state whose values decide whether a condition is true in it.

use fond_moves::index::{has, put_bit};
use fond_task::form::Form;

/// Whether the condition is true in the state.
pub(crate) fn is_true(form: &Form, state: &[u64]) -> bool {
    match form {
        Form::Truth(value) => *value,
        Form::Lit(atom, sign) => has(state, *atom) == *sign,
        Form::And(parts) => {
            for part in parts {
                if !is_true(part, state) {
                    return false;
                }
            }
            true
        }
        Form::Or(parts) => {
            for part in parts {
                if is_true(part, state) {
                    return true;
                }
            }
            false
        }
    }
}

/// Whether the known atoms of the state decide that the condition has this value in it. A conjunction is true if each part
/// is, and false if one part is; of a disjunction the opposite holds.
pub(crate) fn is_decided(form: &Form, value: bool, state: &[u64], known: &[u64]) -> bool {
    match form {
        Form::Truth(always) => *always == value,
        Form::Lit(atom, sign) => has(known, *atom) && (has(state, *atom) == *sign) == value,
        Form::And(parts) => {
            for part in parts {
                if is_decided(part, value, state, known) != value {
                    return !value;
                }
            }
            value
        }
        Form::Or(parts) => {
            for part in parts {
                if is_decided(part, value, state, known) == value {
                    return value;
                }
            }
            !value
        }
    }
}

/// Makes atoms of the state known that decide that the condition has this value, which it must have in the state. If one part
/// is enough, the first one that has the value is taken, unless what is known decides already.
pub fn explain(form: &Form, value: bool, state: &[u64], known: &mut [u64]) {
    if is_decided(form, value, state, known) {
        return;
    }
    match form {
        Form::Truth(_) => {}
        Form::Lit(atom, _) => put_bit(known, *atom, true),
        Form::And(parts) => {
            for part in parts {
                if value || !is_true(part, state) {
                    explain(part, value, state, known);
                    if !value {
                        return;
                    }
                }
            }
        }
        Form::Or(parts) => {
            for part in parts {
                if !value || is_true(part, state) {
                    explain(part, value, state, known);
                    if value {
                        return;
                    }
                }
            }
        }
    }
}

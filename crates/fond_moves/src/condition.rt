//! Conditions in words: 64 literals are compared at once.

use crate::index::{Literal, bit_of, word_at};
use crate::part::Part;
use crate::weight::Weights;
use fond_task::form::{Form, Kleene};
use fond_text::fault::NoMemory;
use std::alloc::Global;

/// Literals over the atoms of one word: these bits have these values.
#[derive(Clone, Copy)]
pub struct Mask {
    pub word: u32,
    pub care: u64,
    pub value: u64,
}

/// A condition.
#[derive(Drop)]
pub enum Condition {
    /// All these literals.
    Literals(Vec<Mask>),
    All(Vec<Condition>),
    Any(Vec<Condition>),
}

/// The mask of one literal.
fn mask_of(literal: Literal) -> Mask {
    let care = bit_of(literal.atom);
    Mask {
        word: literal.atom >> 6,
        care,
        value: if literal.sign { care } else { 0 },
    }
}

/// Adds a mask, to one of the same word unless they are opposed.
fn add_mask(masks: &mut Vec<Mask>, more: Mask) -> Result<(), NoMemory> {
    for mask in masks.iter_mut() {
        if mask.word == more.word && (mask.value ^ more.value) & mask.care & more.care == 0 {
            mask.care |= more.care;
            mask.value |= more.value;
            return Ok(());
        }
    }
    masks.push(more)?;
    Ok(())
}

/// Whether all literals hold in the state.
pub fn all_hold(masks: &[Mask], state: &[u64]) -> bool {
    for mask in masks {
        if word_at(state, mask.word) & mask.care != mask.value {
            return false;
        }
    }
    true
}

/// The value of the conjunction of literals on a partial state.
fn value_of(masks: &[Mask], part: &Part) -> Kleene {
    let mut least = Kleene::Yes;
    for mask in masks {
        let known = word_at(&part.care, mask.word) & mask.care;
        if (word_at(&part.value, mask.word) ^ mask.value) & known != 0 {
            return Kleene::No;
        }
        if known != mask.care {
            least = Kleene::Unknown;
        }
    }
    least
}

/// Adds the literals of a part of a conjunction to the masks, and any other part to the rest.
fn join(part: Condition, masks: &mut Vec<Mask>, rest: &mut Vec<Condition>) -> Result<(), NoMemory> {
    match part {
        Condition::Literals(more) => {
            for mask in more.iter() {
                add_mask(masks, *mask)?;
            }
        }
        other => rest.push(other)?,
    }
    Ok(())
}

/// The conjunction of literals and other conditions.
fn conjunction(masks: Vec<Mask>, mut rest: Vec<Condition>) -> Result<Condition, NoMemory> {
    if rest.is_empty() {
        return Ok(Condition::Literals(masks));
    }
    rest.push(Condition::Literals(masks))?;
    Ok(Condition::All(rest))
}

/// The condition of one literal.
fn one_literal(alloc: Global, literal: Literal) -> Result<Condition, NoMemory> {
    let mut masks = Vec::new(alloc);
    masks.push(mask_of(literal))?;
    Ok(Condition::Literals(masks))
}

/// The condition that a form states.
pub fn condition_of(alloc: Global, form: &Form) -> Result<Condition, NoMemory> {
    match form {
        Form::Truth(true) => Ok(Condition::Literals(Vec::new(alloc))),
        Form::Truth(false) => Ok(Condition::Any(Vec::new(alloc))),
        Form::Lit(atom, sign) => one_literal(
            alloc,
            Literal {
                atom: *atom,
                sign: *sign,
            },
        ),
        Form::And(parts) => {
            let mut masks = Vec::new(alloc);
            let mut rest = Vec::new(alloc);
            for part in parts {
                join(condition_of(alloc, part)?, &mut masks, &mut rest)?;
            }
            conjunction(masks, rest)
        }
        Form::Or(parts) => {
            let mut any = Vec::new(alloc);
            for part in parts {
                any.push(condition_of(alloc, part)?)?;
            }
            Ok(Condition::Any(any))
        }
    }
}

/// The lesser of two values.
fn lesser(one: Kleene, other: Kleene) -> Kleene {
    match (one, other) {
        (Kleene::No, _) | (_, Kleene::No) => Kleene::No,
        (Kleene::Yes, Kleene::Yes) => Kleene::Yes,
        _ => Kleene::Unknown,
    }
}

/// The greater of two values.
pub fn greater(one: Kleene, other: Kleene) -> Kleene {
    match (one, other) {
        (Kleene::Yes, _) | (_, Kleene::Yes) => Kleene::Yes,
        (Kleene::No, Kleene::No) => Kleene::No,
        _ => Kleene::Unknown,
    }
}

/// The literal of these bits of a mask that the partial state has, with the greatest weight.
fn heaviest(
    mask: &Mask,
    bits_of: u64,
    weights: &Weights,
    best: Option<(u32, Literal)>,
) -> Option<(u32, Literal)> {
    let mut chosen = best;
    let mut bits = bits_of;
    for _ in 0..64 {
        if bits == 0 {
            return chosen;
        }
        let bit = bits.trailing_zeros();
        bits &= bits.wrapping_sub(1);
        let literal = Literal {
            atom: mask.word.saturating_mul(64).saturating_add(bit),
            sign: mask.value & bit_of(bit) == 0,
        };
        let weight = weights.of(literal);
        chosen = match chosen {
            Some((most, _)) if most >= weight => chosen,
            _ => Some((weight, literal)),
        };
    }
    chosen
}

/// Adds a literal of the partial state to `into` that contradicts one of the masks.
fn refute_one(masks: &[Mask], from: &Part, weights: &Weights, into: &mut Part) {
    let mut best = None;
    for mask in masks {
        let opposed = word_at(&from.care, mask.word)
            & mask.care
            & (word_at(&from.value, mask.word) ^ mask.value);
        best = heaviest(mask, opposed, weights, best);
    }
    if let Some((_, literal)) = best {
        into.put(literal);
    }
}

/// Adds the literals of the partial state over the atoms of the masks to `into`.
pub fn copy_mentioned(masks: &[Mask], from: &Part, into: &mut Part) {
    for mask in masks {
        let known = word_at(&from.care, mask.word) & mask.care;
        into.put_bits(mask.word, known, word_at(&from.value, mask.word) & known);
    }
}

impl Condition {
    /// Adds literals of a partial state on which the value is No to `into`, so that it is No there too.
    pub fn refute(&self, from: &Part, weights: &Weights, into: &mut Part) {
        if self.value(into) == Kleene::No {
            return;
        }
        match self {
            Condition::Literals(masks) => refute_one(masks, from, weights, into),
            Condition::All(parts) => {
                for part in parts {
                    if part.value(from) == Kleene::No {
                        part.refute(from, weights, into);
                        return;
                    }
                }
            }
            Condition::Any(parts) => {
                for part in parts {
                    part.refute(from, weights, into);
                }
            }
        }
    }

    /// Adds the literals of a partial state over the atoms of the condition to `into`.
    pub fn mention(&self, from: &Part, into: &mut Part) {
        match self {
            Condition::Literals(masks) => copy_mentioned(masks, from, into),
            Condition::All(parts) | Condition::Any(parts) => {
                for part in parts {
                    part.mention(from, into);
                }
            }
        }
    }

    /// Whether the condition holds in the state.
    pub fn holds(&self, state: &[u64]) -> bool {
        match self {
            Condition::Literals(masks) => all_hold(masks, state),
            Condition::All(parts) => {
                for part in parts {
                    if !part.holds(state) {
                        return false;
                    }
                }
                true
            }
            Condition::Any(parts) => {
                for part in parts {
                    if part.holds(state) {
                        return true;
                    }
                }
                false
            }
        }
    }

    /// The value of the condition on a partial state, in Kleene's strong three-valued logic.
    pub fn value(&self, part: &Part) -> Kleene {
        match self {
            Condition::Literals(masks) => value_of(masks, part),
            Condition::All(parts) => {
                let mut least = Kleene::Yes;
                for one in parts {
                    least = lesser(least, one.value(part));
                }
                least
            }
            Condition::Any(parts) => {
                let mut greatest = Kleene::No;
                for one in parts {
                    greatest = greater(greatest, one.value(part));
                }
                greatest
            }
        }
    }
}

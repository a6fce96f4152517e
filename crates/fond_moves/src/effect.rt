//! Effects in words.

use crate::condition::{Condition, Mask, condition_of, greater};
use crate::index::{Literal, bit_of, copy_words, has, put_bit, raise_bits, word_at};
use crate::part::Part;
use fond_task::form::{Form, Kleene};
use fond_task::task::{Entry, Outcome};
use fond_text::fault::NoMemory;
use std::alloc::Global;

/// What happens to the atoms of one word without a condition.
#[derive(Clone, Copy)]
struct Change {
    word: u32,
    keep: u64,
    set: u64,
}

/// What happens to an atom that an entry with a condition may change, and that no entry without one adds.
#[derive(Drop)]
struct Mixed {
    atom: u32,
    deleted: bool,
    adds: Vec<Condition>,
    deletes: Vec<Condition>,
}

/// The effect of an outcome.
#[derive(Drop)]
pub struct Effect {
    changes: Vec<Change>,
    mixed: Vec<Mixed>,
}

impl Change {
    /// The literals of the partial state that do not hold after the change.
    fn lost(&self, part: &Part) -> u64 {
        let opposed = word_at(&part.value, self.word) ^ self.set;
        word_at(&part.care, self.word) & !self.keep & opposed
    }

    /// Makes the change to a state.
    fn apply(&self, state: &mut [u64]) {
        if let Some(word) = state.get_mut(self.word as usize) {
            *word = (*word & self.keep) | self.set;
        }
    }

    /// Makes the change to a partial state: the atoms of the change are known after it.
    fn image(&self, part: &mut Part) {
        raise_bits(&mut part.care, self.word, !self.keep);
        self.apply(&mut part.value);
    }

    /// Adds the number of a step to the lists of the literals that the change gives.
    fn list_gifts(&self, step: u32, lists: &mut [Vec<u32>]) -> Result<(), NoMemory> {
        let mut bits = !self.keep;
        for _ in 0..64 {
            if bits == 0 {
                return Ok(());
            }
            let bit = bits.trailing_zeros();
            bits &= bits.wrapping_sub(1);
            let atom = self.word.saturating_mul(64).saturating_add(bit);
            let sign = self.set & bit_of(bit) != 0;
            let place = atom.saturating_mul(2).saturating_add(sign as u32);
            if let Some(list) = lists.get_mut(place as usize) {
                list.push(step)?;
            }
        }
        Ok(())
    }
}

/// Whether the entry has no condition.
pub fn is_plain(entry: &Entry) -> bool {
    matches!(&entry.cond, Form::Truth(true))
}

/// The greatest value of the conditions.
fn greatest(conditions: &[Condition], part: &Part) -> Kleene {
    let mut value = Kleene::No;
    for condition in conditions {
        value = greater(value, condition.value(part));
    }
    value
}

/// Whether one of the conditions holds.
fn some_holds(conditions: &[Condition], state: &[u64]) -> bool {
    for condition in conditions {
        if condition.holds(state) {
            return true;
        }
    }
    false
}

/// What is known of an atom after it may have been given this value.
fn after(change: Kleene, sign: bool, known: Option<bool>) -> Option<bool> {
    match change {
        Kleene::No => known,
        Kleene::Yes => Some(sign),
        Kleene::Unknown => { if known == Some(sign) { known } else { None } }
    }
}

impl Mixed {
    /// Adds the condition of an entry.
    fn add(&mut self, alloc: Global, entry: &Entry) -> Result<(), NoMemory> {
        let condition = condition_of(alloc, &entry.cond)?;
        if entry.add {
            self.adds.push(condition)?;
        } else {
            self.deletes.push(condition)?;
        }
        Ok(())
    }

    /// The truth value of the atom after the effect.
    fn value_after(&self, state: &[u64], before: bool) -> bool {
        if some_holds(&self.adds, state) {
            return true;
        }
        before && !self.deleted && !some_holds(&self.deletes, state)
    }

    /// Adds the literals of a partial state over the atoms of the conditions to `into`.
    fn mention(&self, from: &Part, into: &mut Part) {
        for condition in &self.adds {
            condition.mention(from, into);
        }
        for condition in &self.deletes {
            condition.mention(from, into);
        }
    }

    /// If the atom may become true, it is among those that are added and those that may be true after the effect.
    fn relax(&self, adds: &mut [u64], after: &mut [u64]) {
        if !self.adds.is_empty() {
            put_bit(adds, self.atom, true);
            put_bit(after, self.atom, true);
        }
    }

    /// Whether the partial state has a literal of the atom that may not hold after the effect.
    fn is_lost(&self, part: &Part) -> bool {
        let before = part.literal(self.atom);
        before.is_some() && self.known_after(part) != before
    }

    /// What is known of the atom after the effect.
    fn known_after(&self, part: &Part) -> Option<bool> {
        let deleted = if self.deleted {
            Kleene::Yes
        } else {
            greatest(&self.deletes, part)
        };
        let known = after(deleted, false, part.literal(self.atom));
        after(greatest(&self.adds, part), true, known)
    }
}

impl Effect {
    /// The effect that does nothing.
    fn new(alloc: Global) -> Effect {
        Effect {
            changes: Vec::new(alloc),
            mixed: Vec::new(alloc),
        }
    }

    /// Gives the atom a truth value without a condition; an earlier value of it is replaced.
    fn change(&mut self, literal: Literal) -> Result<(), NoMemory> {
        let bit = bit_of(literal.atom);
        let word = literal.atom >> 6;
        let set = if literal.sign { bit } else { 0 };
        for change in self.changes.iter_mut() {
            if change.word == word {
                change.keep &= !bit;
                change.set = (change.set & !bit) | set;
                return Ok(());
            }
        }
        self.changes.push(Change {
            word,
            keep: !bit,
            set,
        })?;
        Ok(())
    }

    /// Whether the effect surely gives the atom this value.
    pub fn gives(&self, literal: Literal) -> bool {
        let bit = bit_of(literal.atom);
        for change in &self.changes {
            if change.word == literal.atom >> 6 {
                return change.keep & bit == 0 && (change.set & bit != 0) == literal.sign;
            }
        }
        false
    }

    /// Leaves the atom as it is, as far as entries without a condition go.
    fn leave(&mut self, atom: u32) {
        let bit = bit_of(atom);
        for change in self.changes.iter_mut() {
            if change.word == atom >> 6 {
                change.keep |= bit;
                change.set &= !bit;
            }
        }
    }

    /// Adds what the entries without a condition do that add their atom, or that delete it.
    fn add_plain(&mut self, outcome: &Outcome, sign: bool) -> Result<(), NoMemory> {
        for entry in outcome {
            if entry.add == sign && is_plain(entry) {
                self.change(Literal {
                    atom: entry.atom,
                    sign,
                })?;
            }
        }
        Ok(())
    }

    /// Adds an entry with a condition to a mixed atom, if the atom is there.
    fn extend(&mut self, alloc: Global, entry: &Entry) -> Result<bool, NoMemory> {
        for mixed in self.mixed.iter_mut() {
            if mixed.atom == entry.atom {
                mixed.add(alloc, entry)?;
                return Ok(true);
            }
        }
        Ok(false)
    }

    /// Adds what an entry with a condition does.
    fn add_mixed(&mut self, alloc: Global, entry: &Entry) -> Result<(), NoMemory> {
        let atom = entry.atom;
        if self.gives(Literal { atom, sign: true }) || self.extend(alloc, entry)? {
            return Ok(());
        }
        let deleted = self.gives(Literal { atom, sign: false });
        self.leave(atom);
        let mut mixed = Mixed {
            atom,
            deleted,
            adds: Vec::new(alloc),
            deletes: Vec::new(alloc),
        };
        mixed.add(alloc, entry)?;
        self.mixed.push(mixed)?;
        Ok(())
    }

    /// Makes `out` the state after the effect. Takes time in the width of a state and the size of the effect.
    pub fn apply(&self, state: &[u64], out: &mut [u64]) {
        copy_words(out, state);
        for change in &self.changes {
            change.apply(out);
        }
        for mixed in &self.mixed {
            let before = has(state, mixed.atom);
            put_bit(out, mixed.atom, mixed.value_after(state, before));
        }
    }

    /// How many literals of the partial state may not hold after the effect.
    pub fn count_lost(&self, part: &Part) -> u32 {
        let mut count: u32 = 0;
        for change in &self.changes {
            count = count.saturating_add(change.lost(part).count_ones());
        }
        for mixed in &self.mixed {
            count = count.saturating_add(mixed.is_lost(part) as u32);
        }
        count
    }

    /// Forgets the literals of the partial state that may not hold after the effect.
    pub fn forget_lost(&self, part: &mut Part) {
        for mixed in &self.mixed {
            if mixed.is_lost(part) {
                part.forget(mixed.atom);
            }
        }
        for change in &self.changes {
            let lost = change.lost(part);
            part.forget_bits(change.word, lost);
        }
    }

    /// Whether a mixed atom is among these of a word.
    fn mixes(&self, word: u32, bits: u64) -> bool {
        for mixed in &self.mixed {
            if mixed.atom >> 6 == word && bit_of(mixed.atom) & bits != 0 {
                return true;
            }
        }
        false
    }

    /// The literals of a mask that must hold before the effect for all of the mask to hold after it, or nothing if the
    /// effect may prevent that.
    pub fn needed_before(&self, mask: &Mask) -> Option<u64> {
        if self.mixes(mask.word, mask.care) {
            return None;
        }
        for change in &self.changes {
            if change.word == mask.word {
                if !change.keep & mask.care & (change.set ^ mask.value) != 0 {
                    return None;
                }
                return Some(mask.care & change.keep);
            }
        }
        Some(mask.care)
    }

    /// Makes `after` the atoms that may be true after the effect if those in it may be before, and `adds` those that may
    /// become true.
    pub fn relax(&self, adds: &mut [u64], after: &mut [u64]) {
        for change in &self.changes {
            raise_bits(adds, change.word, change.set);
            change.apply(after);
        }
        for mixed in &self.mixed {
            mixed.relax(adds, after);
        }
    }

    /// Adds the number of a step with this effect to the lists of the literals that it surely gives.
    pub fn list_gifts(&self, step: u32, lists: &mut [Vec<u32>]) -> Result<(), NoMemory> {
        for change in &self.changes {
            change.list_gifts(step, lists)?;
        }
        Ok(())
    }

    /// Adds the literals of a partial state over the atoms of the effect's conditions to `into`.
    pub fn mention(&self, from: &Part, into: &mut Part) {
        for mixed in &self.mixed {
            mixed.mention(from, into);
        }
    }

    /// Makes `out` what is known after the effect.
    pub fn image(&self, part: &Part, out: &mut Part) {
        out.copy_from(part);
        for change in &self.changes {
            change.image(out);
        }
        for mixed in &self.mixed {
            out.set(mixed.atom, mixed.known_after(part));
        }
    }
}

impl Effect {
    /// Adds the entries of an outcome.
    fn add_all(&mut self, alloc: Global, outcome: &Outcome) -> Result<(), NoMemory> {
        self.add_plain(outcome, false)?;
        self.add_plain(outcome, true)?;
        for entry in outcome {
            if !is_plain(entry) {
                self.add_mixed(alloc, entry)?;
            }
        }
        Ok(())
    }
}

/// The effect of an outcome. Takes time in the number of entries times that of the words that they change, and in the
/// square of the number of entries with a condition.
pub fn effect_of(alloc: Global, outcome: &Outcome) -> Result<Effect, NoMemory> {
    let mut effect = Effect::new(alloc);
    effect.add_all(alloc, outcome)?;
    Ok(effect)
}

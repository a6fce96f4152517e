//! Rules in words: which is the first that holds in a state, and which atoms keep the earlier ones from holding.

use crate::opposed::Opposed;
use fond_moves::condition::{Mask, all_hold};
use fond_moves::index::{Literal, NONE, at, bit_of, has, link_at, put, put_bit, size, word_at};
use fond_moves::lists::empty_lists;
use fond_state::cube::Cube;
use fond_text::fault::NoMemory;
use std::alloc::Global;

/// Up to this many atoms in conditions, all of them are looked at for 64 rules at once.
const FEW_ATOMS: usize = 128;

/// Rules in order, each filed under one of its literals, so that only few are looked at in a state.
#[derive(Drop)]
pub(crate) struct Choices {
    /// The literals of all conditions, by words, one condition after the other, and where each ends.
    masks: Vec<Mask>,
    ends: Vec<u32>,
    acts: Vec<u32>,
    /// By literal: the rules that are filed under it, in order. The negative literal of an atom comes first.
    lists: Vec<Vec<u32>>,
    /// The atoms under whose literals rules are filed, and whether they are true there.
    filed_true: Vec<u64>,
    filed_false: Vec<u64>,
    /// The first rule without literals.
    whole: u32,
    /// Which rules a literal keeps from holding.
    opposed: Opposed,
    /// The earlier rules that are to be kept from holding.
    rivals: Vec<u32>,
    /// By atom: how many of these it keeps from holding.
    counts: Vec<u32>,
    /// How many conditions, and atoms of those that were counted, were looked at.
    work: u64,
}

/// Adds a literal to the masks from one on, after whose atoms it comes.
fn add_literal(masks: &mut Vec<Mask>, from: u32, literal: Literal) -> Result<(), NoMemory> {
    let word = literal.atom >> 6;
    let care = bit_of(literal.atom);
    let value = if literal.sign { care } else { 0 };
    let is_begun = size(masks.len()) > from;
    if let Some(mask) = masks.last_mut() {
        if is_begun && mask.word == word {
            mask.care |= care;
            mask.value |= value;
            return Ok(());
        }
    }
    masks.push(Mask { word, care, value })?;
    Ok(())
}

/// Adds the literals of a cube.
fn add_cube(masks: &mut Vec<Mask>, cube: &Cube) -> Result<(), NoMemory> {
    let from = size(masks.len());
    for atom in 0..size(cube.len()) {
        if let Some(sign) = cube.literal(atom) {
            add_literal(masks, from, Literal { atom, sign })?;
        }
    }
    Ok(())
}

/// The literals of the condition of this number.
fn condition_of<'a>(masks: &'a [Mask], ends: &[u32], rule: u32) -> &'a [Mask] {
    let end = at(ends, rule) as usize;
    let start = if rule == 0 {
        0
    } else {
        at(ends, rule - 1) as usize
    };
    if start > end || end > masks.len() {
        return &[];
    }
    &masks[start..end]
}

/// The literals of a mask that are false in the state.
fn opposed(mask: &Mask, state: &[u64]) -> u64 {
    (word_at(state, mask.word) ^ mask.value) & mask.care
}

/// Whether a known atom of the state keeps the condition from holding.
fn is_kept_out(masks: &[Mask], state: &[u64], known: &[u64]) -> bool {
    for mask in masks {
        if opposed(mask, state) & word_at(known, mask.word) != 0 {
            return true;
        }
    }
    false
}

/// The only atom of the state that keeps the condition from holding, or `NONE` if there are others.
fn sole_reason(masks: &[Mask], state: &[u64]) -> u32 {
    let mut found = NONE;
    for mask in masks {
        let bits = opposed(mask, state);
        if bits == 0 {
            continue;
        }
        if found != NONE || bits.count_ones() > 1 {
            return NONE;
        }
        found = atom_of(mask.word, bits);
    }
    found
}

/// The atom of the lowest of these bits of a word.
fn atom_of(word: u32, bits: u64) -> u32 {
    word.saturating_mul(64)
        .saturating_add(bits.trailing_zeros())
}

/// The atom of these bits with the greatest count, or the one that is given.
fn better_of(word: u32, bits_of: u64, counts: &[u32], best: u32) -> u32 {
    let mut chosen = best;
    let mut bits = bits_of;
    for _ in 0..64 {
        if bits == 0 {
            return chosen;
        }
        let atom = atom_of(word, bits);
        bits &= bits.wrapping_sub(1);
        if chosen == NONE || at(counts, atom) > at(counts, chosen) {
            chosen = atom;
        }
    }
    chosen
}

/// Counts the atoms of these bits once more, or sets their counts to 0.
fn count_bits(word: u32, bits_of: u64, counts: &mut [u32], anew: bool) {
    let mut bits = bits_of;
    for _ in 0..64 {
        if bits == 0 {
            return;
        }
        let atom = atom_of(word, bits);
        bits &= bits.wrapping_sub(1);
        let count = if anew {
            0
        } else {
            at(counts, atom).saturating_add(1)
        };
        put(counts, atom, count);
    }
}

/// The place of a literal among all.
fn place(literal: Literal) -> usize {
    (literal.atom as usize)
        .saturating_mul(2)
        .saturating_add(literal.sign as usize)
}

impl Choices {
    /// No rules, over this many atoms.
    pub(crate) fn new(alloc: Global, atoms: u32, width: u32) -> Result<Choices, NoMemory> {
        let lists = empty_lists(alloc, atoms.saturating_mul(2))?;
        let filed_true = vec![in alloc; 0; width as usize]?;
        let filed_false = vec![in alloc; 0; width as usize]?;
        let counts = vec![in alloc; 0; atoms as usize]?;
        let opposed = Opposed::new(alloc, atoms, width)?;
        Ok(Choices {
            masks: Vec::new(alloc),
            ends: Vec::new(alloc),
            acts: Vec::new(alloc),
            lists,
            filed_true,
            filed_false,
            whole: NONE,
            opposed,
            rivals: Vec::new(alloc),
            counts,
            work: 0,
        })
    }

    /// The number of rules.
    pub(crate) fn len(&self) -> u32 {
        size(self.acts.len())
    }

    /// How many conditions, and atoms of those that were counted, were looked at.
    pub(crate) fn work(&self) -> u64 {
        self.work
    }

    /// The action of a rule.
    pub(crate) fn act(&self, rule: u32) -> u32 {
        link_at(&self.acts, rule)
    }

    /// The literals of a rule's condition.
    fn condition(&self, rule: u32) -> &[Mask] {
        condition_of(&self.masks, &self.ends, rule)
    }

    /// How bad it is to file a rule under the literal: most states have few true atoms, and a long list takes long.
    fn badness(&self, literal: Literal) -> usize {
        let length = match self.lists.get(place(literal)) {
            Some(list) => list.len(),
            None => 0,
        };
        if literal.sign {
            length
        } else {
            length.saturating_add(1).saturating_mul(8)
        }
    }

    /// The better literal to file a rule under, of one and those of a mask.
    fn better(&self, mask: Mask, best: Option<Literal>) -> Option<Literal> {
        let mut chosen = best;
        let mut bits = mask.care;
        for _ in 0..64 {
            if bits == 0 {
                return chosen;
            }
            let atom = atom_of(mask.word, bits);
            let sign = mask.value & bit_of(atom) != 0;
            bits &= bits.wrapping_sub(1);
            let literal = Literal { atom, sign };
            chosen = match chosen {
                Some(one) if self.badness(one) <= self.badness(literal) => chosen,
                _ => Some(literal),
            };
        }
        chosen
    }

    /// Files a rule under a literal.
    fn file(&mut self, literal: Literal, rule: u32) -> Result<(), NoMemory> {
        if let Some(list) = self.lists.get_mut(place(literal)) {
            list.push(rule)?;
        }
        if literal.sign {
            put_bit(&mut self.filed_true, literal.atom, true);
        } else {
            put_bit(&mut self.filed_false, literal.atom, true);
        }
        Ok(())
    }

    /// Notes by which literals the rule is kept from holding.
    fn oppose(&mut self, rule: u32) -> Result<(), NoMemory> {
        for mask in condition_of(&self.masks, &self.ends, rule) {
            self.opposed.add(*mask, rule)?;
        }
        Ok(())
    }

    /// Adds a rule after the others. Takes time in the number of atoms.
    pub(crate) fn add(&mut self, cond: &Cube, act: u32) -> Result<(), NoMemory> {
        let rule = size(self.acts.len());
        add_cube(&mut self.masks, cond)?;
        self.ends.push(size(self.masks.len()))?;
        self.acts.push(act)?;
        let mut best = None;
        for mask in self.condition(rule) {
            best = self.better(*mask, best);
        }
        self.oppose(rule)?;
        match best {
            Some(literal) => self.file(literal, rule),
            None => {
                self.whole = self.whole.min(rule);
                Ok(())
            }
        }
    }

    /// The first of the rules under a literal that holds in the state, if it is before the best one so far.
    fn first_filed(&self, literal: Literal, state: &[u64], best: u32) -> u32 {
        let Some(list) = self.lists.get(place(literal)) else {
            return best;
        };
        for rule in list {
            if *rule >= best || all_hold(self.condition(*rule), state) {
                return best.min(*rule);
            }
        }
        best
    }

    /// The first of the rules under literals of these atoms that holds in the state, if it is before the best one so far.
    fn first_under(&self, word: u32, bits_under: u64, state: &[u64], best: u32) -> u32 {
        let mut first = best;
        let mut bits = bits_under;
        for _ in 0..64 {
            if bits == 0 {
                return first;
            }
            let atom = atom_of(word, bits);
            bits &= bits.wrapping_sub(1);
            let sign = has(state, atom);
            first = self.first_filed(Literal { atom, sign }, state, first);
        }
        first
    }

    /// The first rule that holds in the state, or `NONE`. Takes time in the width of the state and in the number of rules that
    /// are filed under its literals, or if conditions are over few atoms, in that of 64 rules at once.
    pub(crate) fn first(&self, state: &[u64]) -> u32 {
        if self.opposed.atoms() <= FEW_ATOMS {
            return self.opposed.first(self.len(), state);
        }
        let mut first = self.whole;
        for (i, word) in state.iter().enumerate() {
            let number = size(i);
            let bits = (*word & word_at(&self.filed_true, number))
                | (!*word & word_at(&self.filed_false, number));
            first = self.first_under(number, bits, state, first);
        }
        first
    }

    /// Makes the atoms of a rule's condition known.
    fn know_condition(&self, rule: u32, known: &mut [u64]) {
        for mask in self.condition(rule) {
            if let Some(word) = known.get_mut(mask.word as usize) {
                *word |= mask.care;
            }
        }
    }

    /// Lists an earlier rule if no known atom keeps it from holding, and counts the atoms that do. If there is only one such
    /// atom, it is made known at once.
    fn meet(&mut self, number: u32, state: &[u64], known: &mut [u64]) -> Result<(), NoMemory> {
        let masks = condition_of(&self.masks, &self.ends, number);
        if is_kept_out(masks, state, known) {
            return Ok(());
        }
        let sole = sole_reason(masks, state);
        if sole != NONE {
            put_bit(known, sole, true);
            return Ok(());
        }
        for mask in masks {
            count_bits(mask.word, opposed(mask, state), &mut self.counts, false);
        }
        self.rivals.push(number)?;
        self.work = self.work.saturating_add(masks.len() as u64);
        Ok(())
    }

    /// Lists those of 64 earlier rules that no known atom keeps from holding.
    fn meet_word(
        &mut self,
        word: u32,
        rule: u32,
        state: &[u64],
        known: &mut [u64],
    ) -> Result<(), NoMemory> {
        let mut bits = self.opposed.left(word);
        for _ in 0..64 {
            if bits == 0 {
                return Ok(());
            }
            let number = atom_of(word, bits);
            bits &= bits.wrapping_sub(1);
            if number >= rule {
                return Ok(());
            }
            self.meet(number, state, known)?;
        }
        Ok(())
    }

    /// Lists the earlier rules that no known atom keeps from holding.
    fn find_rivals(&mut self, rule: u32, state: &[u64], known: &mut [u64]) -> Result<(), NoMemory> {
        self.rivals.clear();
        self.opposed.find(rule, state, known)?;
        for word in 0..(rule >> 6).saturating_add(1) {
            self.meet_word(word, rule, state, known)?;
        }
        Ok(())
    }

    /// Makes an atom known that keeps the earlier rule from holding, unless one is: the one that keeps most rules from it.
    fn keep_out(&self, rival: u32, state: &[u64], known: &mut [u64]) {
        let masks = self.condition(rival);
        if is_kept_out(masks, state, known) {
            return;
        }
        let mut best = NONE;
        for mask in masks {
            best = better_of(mask.word, opposed(mask, state), &self.counts, best);
        }
        put_bit(known, best, true);
    }

    /// Sets the counts of all atoms that keep a listed rule from holding to 0.
    fn forget_counts(&mut self, state: &[u64]) {
        for rival in &self.rivals {
            for mask in condition_of(&self.masks, &self.ends, *rival) {
                count_bits(mask.word, opposed(mask, state), &mut self.counts, true);
            }
        }
    }

    /// Makes atoms of the state known because of which the rule is the first that holds in it. Takes time in the number of the
    /// earlier rules times that of known atoms, 64 rules at once, and in the literals of those that no known atom keeps from
    /// holding.
    pub(crate) fn know_first(
        &mut self,
        rule: u32,
        state: &[u64],
        known: &mut [u64],
    ) -> Result<(), NoMemory> {
        self.work = self.work.saturating_add(rule as u64);
        self.know_condition(rule, known);
        self.find_rivals(rule, state, known)?;
        for rival in &self.rivals {
            self.keep_out(*rival, state, known);
        }
        self.forget_counts(state);
        Ok(())
    }
}

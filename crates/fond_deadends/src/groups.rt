//! Groups of atoms of which at most one is true: places of the same thing, as it were.
//!
//! Two atoms that are never true together begin a group if a step gives the one and takes the other away. All atoms join that are
//! never true together with a member. What results is a group if each step that gives a member takes away one that its action
//! needs, so that as many stay true as were: a monotonicity invariant (Helmert, *Concise finite-domain representations for PDDL
//! planning tasks*, 2009), found on ground atoms.

use crate::agenda::first_bit;
use crate::facts::Facts;
use fond_heuristic::together::Together;
use fond_moves::applicable::sure_masks;
use fond_moves::boxes::boxed;
use fond_moves::effect::Effect;
use fond_moves::index::{
    Literal, NONE, at, bit_of, clear_words, copy_words, has, put_bit, size, word_at,
};
use fond_moves::lists::empty_lists;
use fond_moves::moves::{Move, Moves};
use fond_task::plan_step::PlanStep;
use fond_text::fault::NoMemory;
use std::alloc::Global;

/// The most work to find groups: looks at steps, and words of the atoms that may join a group.
const MOST: u64 = 10_000_000;

/// The groups of a task.
#[derive(Drop)]
pub(crate) struct Groups {
    members: Vec<Vec<u32>>,
    /// The groups of each atom, and how many steps give it a value.
    of: Vec<Vec<u32>>,
    changes: Vec<u32>,
    /// The members of the group that is made, and the atoms that may join it.
    group: Vec<u32>,
    is_member: Vec<u64>,
    open: Vec<u64>,
    /// The atoms with which no further group of the same atom is begun.
    tried: Vec<u64>,
    /// The atoms that may be true at all.
    reached: Vec<u64>,
    left: u64,
}

/// An atom that is to be known, with a group of it or `NONE`, and what that costs: how many steps change what was not known
/// before.
#[derive(Clone, Copy)]
pub(crate) struct Choice {
    pub(crate) atom: u32,
    pub(crate) group: u32,
    cost: u32,
}

/// Keeps those of the atoms that are false where this one is true.
fn meet_excluded(words: &mut [u64], together: &Together, atom: u32) {
    for i in 0..words.len() {
        words[i] &= together.excluded(atom, size(i));
    }
}

/// The steps that surely give each literal: two lists for each atom, the negative literal first.
fn gifts_of(alloc: Global, moves: &Moves) -> Result<Vec<Vec<u32>>, NoMemory> {
    let mut gifts = empty_lists(alloc, moves.atoms.saturating_mul(2))?;
    for (number, step) in moves.steps.iter().enumerate() {
        if let Some(effect) = moves.effect(*step) {
            effect.list_gifts(size(number), &mut gifts)?;
        }
    }
    Ok(gifts)
}

/// The steps that give a literal.
fn givers(gifts: &[Vec<u32>], literal: Literal) -> &[u32] {
    let place = literal
        .atom
        .saturating_mul(2)
        .saturating_add(literal.sign as u32);
    match gifts.get(place as usize) {
        Some(steps) => steps.as_slice(),
        None => &[],
    }
}

impl Groups {
    /// The groups of a task.
    pub(crate) fn new(alloc: Global, facts: &Facts) -> Result<Box<Groups>, NoMemory> {
        let width = facts.moves.width as usize;
        let mut groups = Groups {
            members: Vec::new(alloc),
            of: empty_lists(alloc, facts.moves.atoms)?,
            changes: Vec::new(alloc),
            group: Vec::new(alloc),
            is_member: vec![in alloc; 0; width]?,
            open: vec![in alloc; 0; width]?,
            tried: vec![in alloc; 0; width]?,
            reached: vec![in alloc; 0; width]?,
            left: MOST,
        };
        groups.reach(facts);
        groups.find_all(facts)?;
        boxed(alloc, groups)
    }

    /// Marks the atoms that may be true at all.
    fn reach(&mut self, facts: &Facts) {
        for atom in 0..facts.moves.atoms {
            let is_never = facts.together.excluded(atom, atom >> 6) & bit_of(atom) != 0;
            put_bit(&mut self.reached, atom, !is_never);
        }
    }

    /// Makes the words the atoms that are never true, unless they are in the state.
    pub(crate) fn list_never(&self, state: &[u64], never: &mut [u64]) {
        for i in 0..never.len() {
            never[i] = !word_at(&self.reached, size(i)) & !word_at(state, size(i));
        }
    }

    /// Finds the groups of all atoms.
    fn find_all(&mut self, facts: &Facts) -> Result<(), NoMemory> {
        let gifts = gifts_of(*self.group.allocator(), facts.moves)?;
        for atom in 0..facts.moves.atoms {
            let gives = givers(&gifts, Literal { atom, sign: true });
            let takes = givers(&gifts, Literal { atom, sign: false });
            self.changes
                .push(size(gives.len()).saturating_add(size(takes.len())))?;
            self.find(facts, &gifts, atom)?;
        }
        Ok(())
    }

    /// Finds the groups of an atom.
    fn find(&mut self, facts: &Facts, gifts: &[Vec<u32>], atom: u32) -> Result<(), NoMemory> {
        clear_words(&mut self.tried);
        self.mark_known(atom);
        for step in givers(gifts, Literal { atom, sign: true }) {
            self.find_by(facts, gifts, atom, facts.moves.step(*step))?;
        }
        Ok(())
    }

    /// No group of the atom is begun with a member of another one.
    fn mark_known(&mut self, atom: u32) {
        let Some(numbers) = self.of.get(atom as usize) else {
            return;
        };
        for number in numbers {
            if let Some(members) = self.members.get(*number as usize) {
                mark(&mut self.tried, members);
            }
        }
    }

    /// Finds a group of an atom that a step gives, with one that it takes away.
    fn find_by(
        &mut self,
        facts: &Facts,
        gifts: &[Vec<u32>],
        atom: u32,
        step: PlanStep,
    ) -> Result<(), NoMemory> {
        let Some(other) = self.other_of(facts, atom, step) else {
            return Ok(());
        };
        put_bit(&mut self.tried, other, true);
        self.grow(facts, atom, other)?;
        if self.is_balanced(facts, gifts) {
            mark(&mut self.tried, &self.group);
            self.keep()?;
        }
        Ok(())
    }

    /// An atom that the step takes away, that its action needs, and with which no group of the atom was begun.
    fn other_of(&mut self, facts: &Facts, atom: u32, step: PlanStep) -> Option<u32> {
        self.left = self.left.saturating_sub(1);
        if self.left == 0 {
            return None;
        }
        let one = facts.moves.acts.get(step.act as usize)?;
        let effect = one.effects.get(step.outcome as usize)?;
        for mask in sure_masks(&one.needs) {
            let bits = mask.value
                & facts.together.excluded(atom, mask.word)
                & word_at(&self.reached, mask.word)
                & !word_at(&self.tried, mask.word);
            let other = taken_of(effect, mask.word, bits);
            if other.is_some() {
                return other;
            }
        }
        None
    }

    /// Makes the group that begins with two atoms.
    fn grow(&mut self, facts: &Facts, one: u32, other: u32) -> Result<(), NoMemory> {
        self.group.clear();
        clear_words(&mut self.is_member);
        copy_words(&mut self.open, &self.reached);
        self.join(facts, one)?;
        self.join(facts, other)?;
        for _ in 0..facts.moves.atoms {
            let Some(next) = first_bit(&self.open) else {
                return Ok(());
            };
            self.join(facts, next)?;
        }
        Ok(())
    }

    /// An atom joins the group.
    fn join(&mut self, facts: &Facts, atom: u32) -> Result<(), NoMemory> {
        self.left = self.left.saturating_sub(self.open.len() as u64);
        self.group.push(atom)?;
        put_bit(&mut self.is_member, atom, true);
        put_bit(&mut self.open, atom, false);
        meet_excluded(&mut self.open, facts.together, atom);
        Ok(())
    }

    /// Whether each step that gives a member takes one away.
    fn is_balanced(&mut self, facts: &Facts, gifts: &[Vec<u32>]) -> bool {
        for i in 0..self.group.len() {
            let steps = givers(
                gifts,
                Literal {
                    atom: self.group[i],
                    sign: true,
                },
            );
            self.left = self.left.saturating_sub(steps.len() as u64);
            if self.left == 0 || !self.are_fed(facts, steps, self.group[i]) {
                return false;
            }
        }
        true
    }

    /// Whether each of the steps that give a member takes one away.
    fn are_fed(&self, facts: &Facts, steps: &[u32], atom: u32) -> bool {
        for number in steps {
            let step = facts.moves.step(*number);
            let Some(one) = facts.moves.acts.get(step.act as usize) else {
                return false;
            };
            if !self.is_fed(one, step, atom) {
                return false;
            }
        }
        true
    }

    /// Whether a step that gives a member takes one away that is needed; or the member is, or an atom that is never true.
    fn is_fed(&self, one: &Move, step: PlanStep, atom: u32) -> bool {
        let Some(effect) = one.effects.get(step.outcome as usize) else {
            return false;
        };
        for mask in sure_masks(&one.needs) {
            if mask.value & !word_at(&self.reached, mask.word) != 0 {
                return true;
            }
            let bits = mask.value & word_at(&self.is_member, mask.word);
            if atom >> 6 == mask.word && bits & bit_of(atom) != 0 {
                return true;
            }
            if taken_of(effect, mask.word, bits).is_some() {
                return true;
            }
        }
        false
    }

    /// Keeps the group that was made.
    fn keep(&mut self) -> Result<(), NoMemory> {
        let number = size(self.members.len());
        let mut members = Vec::new(*self.group.allocator());
        for atom in &self.group {
            members.push(*atom)?;
            if let Some(numbers) = self.of.get_mut(*atom as usize) {
                numbers.push(number)?;
            }
        }
        self.members.push(members)?;
        Ok(())
    }

    /// The members of a group.
    pub(crate) fn members(&self, group: u32) -> &[u32] {
        match self.members.get(group as usize) {
            Some(members) => members.as_slice(),
            None => &[],
        }
    }

    /// What it costs to know an atom: the more steps change it, the more, but by its order of magnitude alone.
    fn cost_alone(&self, atom: u32) -> u32 {
        let changes = at(&self.changes, atom);
        34u32.saturating_sub(changes.leading_zeros())
    }

    /// What it costs to know a group of which some members are known.
    fn cost(&self, group: u32, known: &[u64]) -> u32 {
        let mut cost: u32 = 0;
        for atom in self.members(group) {
            if !has(known, *atom) {
                cost = cost.saturating_add(self.cost_alone(*atom));
            }
        }
        cost
    }

    /// The cheaper one of a choice and an atom alone.
    pub(crate) fn cheaper_alone(&self, atom: u32, other: Option<Choice>) -> Option<Choice> {
        let cost = self.cost_alone(atom);
        less(
            other,
            Choice {
                atom,
                group: NONE,
                cost,
            },
        )
    }

    /// The cheapest of a choice and an atom with each of its groups, or alone if it has none.
    pub(crate) fn cheaper(
        &self,
        atom: u32,
        known: &[u64],
        other: Option<Choice>,
    ) -> Option<Choice> {
        let Some(numbers) = self.of.get(atom as usize) else {
            return other;
        };
        if numbers.is_empty() {
            return self.cheaper_alone(atom, other);
        }
        let mut best = other;
        for group in numbers {
            let cost = self.cost(*group, known);
            best = less(
                best,
                Choice {
                    atom,
                    group: *group,
                    cost,
                },
            );
        }
        best
    }
}

/// The cheaper choice, and of two with the same cost the first.
fn less(one: Option<Choice>, other: Choice) -> Option<Choice> {
    match one {
        Some(choice) if choice.cost <= other.cost => one,
        _ => Some(other),
    }
}

/// Sets the bits of atoms.
pub(crate) fn mark(words: &mut [u64], atoms: &[u32]) {
    for atom in atoms {
        put_bit(words, *atom, true);
    }
}

/// The first of these atoms of a word that an effect takes away.
fn taken_of(effect: &Effect, word: u32, bits_of_word: u64) -> Option<u32> {
    let mut bits = bits_of_word;
    for _ in 0..64 {
        if bits == 0 {
            return None;
        }
        let atom = word
            .saturating_mul(64)
            .saturating_add(bits.trailing_zeros());
        bits &= bits.wrapping_sub(1);
        if effect.gives(Literal { atom, sign: false }) {
            return Some(atom);
        }
    }
    None
}

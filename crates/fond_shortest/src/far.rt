//! Far lists: why each solution needs as many lucky steps as the policy that was found.
//!
//! A state belongs into list `j` if its least rank is more than `j`. It gets a cube there around it. In the first list this is a reason
//! why the state is no goal. In a later list it is one of the cubes of the list before that has the state, if no action does harm on it:
//! the action is not applicable, or leads from the cube into a layer or into the list before. If no such cube is found, one of them is
//! made smaller by reasons why actions do no harm: why an action is not applicable in the state, or what the cubes ask for into which
//! it leads from there, regressed through the outcomes. States to which it leads and that have no cube yet get theirs first.
//!
//! So the lists have cubes for those states alone for whose sake the initial state is in the last one, and many states share a cube. It
//! is a lazy abstraction along the ranks, as the layers of fond_deadends are one of lost states.

use crate::board::{Board, Side};
use crate::pad::Pad;
use crate::pile::Pile;
use fond_covering::reason::explain;
use fond_deadends::cubes::CubeSet;
use fond_moves::condition::{Condition, Mask, all_hold};
use fond_moves::index::{NONE, size, word_at};
use fond_moves::weight::Weights;
use fond_task::form::Kleene;
use fond_task::plan_step::PlanStep;
use fond_task::task::Task;
use fond_text::fault::NoMemory;
use std::alloc::Global;

/// So many cubes of the list before are tried as they are.
const TRIED: u32 = 8;

/// A won state that is to lie in a cube of a far list.
#[derive(Clone, Copy)]
struct Aim {
    list: u32,
    state: u32,
}

/// Whether there is a reason why an action does no harm.
#[derive(Clone, Copy, PartialEq, Eq)]
enum Reason {
    Added,
    /// Some states are asked for first.
    Waits,
    /// There is none: the rank of the state is too small.
    Nothing,
}

/// Far lists in the making.
#[derive(Drop)]
pub(crate) struct Far<'a> {
    task: &'a Task,
    board: &'a Board,
    /// The cubes of the layers.
    dead: &'a CubeSet,
    weights: Box<Weights>,
    pub(crate) piles: Vec<Pile>,
    stack: Vec<Aim>,
    pad: Box<Pad>,
    /// The action that did harm last, which is looked at first.
    blamed: u32,
}

impl<'a> Far<'a> {
    /// No cubes in this many lists.
    pub(crate) fn new(
        alloc: Global,
        task: &'a Task,
        board: &'a Board,
        dead: &'a CubeSet,
        lists: u32,
    ) -> Result<Far<'a>, NoMemory> {
        let mut piles = Vec::new(alloc);
        for _ in 0..lists {
            piles.push(Pile::new(alloc))?;
        }
        Ok(Far {
            task,
            board,
            dead,
            weights: Weights::new(alloc, task, board.moves.atoms)?,
            piles,
            stack: Vec::new(alloc),
            pad: Pad::new(alloc, board.moves.atoms, board.moves.width)?,
            blamed: 0,
        })
    }

    /// The number of cubes of a list.
    fn count(&self, list: u32) -> u32 {
        match self.piles.get(list as usize) {
            Some(pile) => pile.len(),
            None => 0,
        }
    }

    /// The number of the first cube of a list in which a state lies, or `NONE`.
    fn find(&self, list: u32, state: &[u64]) -> u32 {
        match self.piles.get(list as usize) {
            Some(pile) => pile.find(state),
            None => NONE,
        }
    }

    /// Whether an action does no harm on the cube in the making: it is not applicable there, or leads into a layer, or into the list.
    fn is_harmless(&mut self, list: u32, act: u32) -> bool {
        let board = self.board;
        let Some(one) = board.moves.acts.get(act as usize) else {
            return true;
        };
        let Some(pile) = self.piles.get(list as usize) else {
            return false;
        };
        if matches!(one.needs.value(&self.pad.part), Kleene::No) {
            return true;
        }
        let mut some_leads = false;
        let mut each_leads = true;
        for effect in one.effects.iter() {
            self.pad.enter(effect);
            if self.dead.cover(&self.pad.image).is_some() {
                return true;
            }
            let leads = pile.covers(&self.pad.image);
            some_leads |= leads;
            each_leads &= leads;
        }
        if one.unfair { some_leads } else { each_leads }
    }

    /// Whether no action does harm on the cube in the making, with this list as the one before.
    fn are_harmless(&mut self, list: u32) -> bool {
        if !self.is_harmless(list, self.blamed) {
            return false;
        }
        for act in 0..size(self.board.moves.acts.len()) {
            if !self.is_harmless(list, act) {
                self.blamed = act;
                return false;
            }
        }
        true
    }

    /// Makes the next state the one after a step from the state.
    fn step(&mut self, step: PlanStep) {
        self.pad.step(&self.board.moves, step);
    }

    /// Asks for a cube of the list in which the next state lies, if there is none. Returns whether it may lie in one.
    fn want(&mut self, list: u32) -> Result<bool, NoMemory> {
        let Side::Won(state) = self.board.side(&self.pad.next) else {
            return Ok(false);
        };
        if self.board.level(state) <= list {
            return Ok(false);
        }
        if self.find(list, &self.pad.next) == NONE {
            self.stack.push(Aim { list, state })?;
        }
        Ok(true)
    }

    /// The first outcome of an action that leads from the state to a lost one, which becomes the next state.
    fn losing(&mut self, act: u32) -> Option<u32> {
        for outcome in 0..self.board.moves.outcomes(act) {
            self.step(PlanStep { act, outcome });
            if matches!(self.board.side(&self.pad.next), Side::Lost) {
                return Some(outcome);
            }
        }
        None
    }

    /// The outcome of an unfair action for whose sake the state is far: one that leads into a cube of the list, or else to a state of
    /// greatest rank.
    fn farthest(&mut self, list: u32, act: u32) -> u32 {
        let mut best = 0;
        let mut most = 0;
        for outcome in 0..self.board.moves.outcomes(act) {
            self.step(PlanStep { act, outcome });
            if self.find(list, &self.pad.next) != NONE {
                return outcome;
            }
            if let Side::Won(number) = self.board.side(&self.pad.next) {
                if self.board.level(number) > most {
                    most = self.board.level(number);
                    best = outcome;
                }
            }
        }
        best
    }

    /// Asks for states to which these outcomes of an action lead, as far as they lie in no cube of the list. Returns whether all do.
    fn want_all(&mut self, list: u32, act: u32, first: u32, end: u32) -> Result<Reason, NoMemory> {
        let before = self.stack.len();
        for outcome in first..end {
            self.step(PlanStep { act, outcome });
            if !self.want(list)? {
                return Ok(Reason::Nothing);
            }
        }
        if self.stack.len() > before {
            return Ok(Reason::Waits);
        }
        Ok(Reason::Added)
    }

    /// Adds to the cube in the making why an action that is applicable in the state leads into a layer or into the list.
    fn add_targets(&mut self, list: u32, act: u32) -> Result<Reason, NoMemory> {
        if let Some(outcome) = self.losing(act) {
            let cube = self.dead.first(&self.pad.next);
            self.pad.ask(self.task, PlanStep { act, outcome }, self.dead.masks(cube));
            return Ok(Reason::Added);
        }
        let mut first = 0;
        let mut end = self.board.moves.outcomes(act);
        if self.board.moves.is_unfair(act) {
            first = self.farthest(list, act);
            end = first.saturating_add(1);
        }
        let found = self.want_all(list, act, first, end)?;
        if found != Reason::Added {
            return Ok(found);
        }
        for outcome in first..end {
            self.step(PlanStep { act, outcome });
            if let Some(pile) = self.piles.get(list as usize) {
                let cube = pile.find(&self.pad.next);
                self.pad
                    .ask(self.task, PlanStep { act, outcome }, pile.masks(cube));
            }
        }
        Ok(Reason::Added)
    }

    /// Adds to the cube in the making why an action does no harm.
    fn add_reason(&mut self, list: u32, act: u32) -> Result<Reason, NoMemory> {
        if self.board.moves.applies(act, &self.pad.whole.value) {
            return self.add_targets(list, act);
        }
        let board = self.board;
        if let Some(one) = board.moves.acts.get(act as usize) {
            self.pad.refute(&one.needs, &self.weights);
        }
        Ok(Reason::Added)
    }

    /// Makes the cube in the making so small that no action does harm on it, with this list as the one before.
    fn add_reasons(&mut self, list: u32) -> Result<Reason, NoMemory> {
        for act in 0..size(self.board.moves.acts.len()) {
            if self.is_harmless(list, act) {
                continue;
            }
            let found = self.add_reason(list, act)?;
            if found != Reason::Added {
                return Ok(found);
            }
        }
        Ok(Reason::Added)
    }

    /// Adds the cube in the making to a list.
    fn keep(&mut self, alloc: Global, list: u32) -> Result<(), NoMemory> {
        let masks = self.pad.cube(alloc)?;
        let moves = &self.board.moves;
        if let Some(pile) = self.piles.get_mut(list as usize) {
            pile.add(alloc, moves.atoms, moves.width, masks)?;
        }
        Ok(())
    }

    /// Adds reasons why a state is no goal to the first list: for a conjunction of literals each of those that are false, as a cube.
    fn add_first(&mut self, alloc: Global, state: &[u64]) -> Result<(), NoMemory> {
        let board = self.board;
        self.pad.begin(state, &[]);
        let Condition::Literals(masks) = &board.moves.goal else {
            explain(&self.task.goal, false, state, &mut self.pad.part.care);
            self.pad.settle();
            return self.keep(alloc, 0);
        };
        for mask in masks {
            self.add_false(alloc, state, mask)?;
        }
        Ok(())
    }

    /// Adds each literal of a mask that is false in a state to the first list, as a cube.
    fn add_false(&mut self, alloc: Global, state: &[u64], mask: &Mask) -> Result<(), NoMemory> {
        let value = word_at(state, mask.word);
        let mut bits = (value ^ mask.value) & mask.care;
        for _ in 0..64 {
            let rest = bits & bits.wrapping_sub(1);
            if bits != 0 {
                self.pad.begin(state, &[]);
                self.pad.part.put_bits(mask.word, bits ^ rest, value);
                self.keep(alloc, 0)?;
            }
            bits = rest;
        }
        Ok(())
    }

    /// Adds a cube of the list before that has the state and on which no action does harm, if one is found.
    fn carry(&mut self, alloc: Global, list: u32, state: &[u64]) -> Result<bool, NoMemory> {
        let before = list.saturating_sub(1);
        let mut tried: u32 = 0;
        for number in 0..self.count(before) {
            let Some(pile) = self.piles.get(before as usize) else {
                return Ok(false);
            };
            if tried == TRIED || !all_hold(pile.masks(number), state) {
                continue;
            }
            tried = tried.saturating_add(1);
            self.pad.begin(state, pile.masks(number));
            if self.are_harmless(before) {
                self.keep(alloc, list)?;
                return Ok(true);
            }
        }
        Ok(false)
    }

    /// Adds a cube for a state to a list beyond the first.
    fn add_later(&mut self, alloc: Global, list: u32, state: &[u64]) -> Result<Reason, NoMemory> {
        if self.carry(alloc, list, state)? {
            return Ok(Reason::Added);
        }
        let before = list.saturating_sub(1);
        if let Some(pile) = self.piles.get(before as usize) {
            let cube = pile.find(state);
            self.pad.begin(state, pile.masks(cube));
        }
        let found = self.add_reasons(before)?;
        if found == Reason::Added {
            self.keep(alloc, list)?;
        }
        Ok(found)
    }

    /// Adds a cube for an aim, or asks for what it needs. Returns whether it may be had.
    fn meet(&mut self, alloc: Global, aim: Aim) -> Result<bool, NoMemory> {
        let board = self.board;
        let state = board.states.get(aim.state);
        let Aim {
            list,
            state: number,
        } = aim;
        if self.find(list, state) != NONE {
            self.stack.pop();
            return Ok(true);
        }
        if list == 0 {
            self.add_first(alloc, state)?;
            self.stack.pop();
            return Ok(true);
        }
        if self.find(list.saturating_sub(1), state) == NONE {
            self.stack.push(Aim {
                list: list.saturating_sub(1),
                state: number,
            })?;
            return Ok(true);
        }
        match self.add_later(alloc, list, state)? {
            Reason::Added => {
                self.stack.pop();
                Ok(true)
            }
            Reason::Waits => Ok(true),
            Reason::Nothing => Ok(false),
        }
    }

    /// Makes lists in the last of which a won state lies. Returns false if its rank is too small.
    pub(crate) fn search(&mut self, alloc: Global, state: u32) -> Result<bool, NoMemory> {
        let list = size(self.piles.len()).saturating_sub(1);
        self.stack.push(Aim { list, state })?;
        for _ in 0..u64::MAX {
            let Some(aim) = self.stack.last() else {
                return Ok(true);
            };
            let aim = *aim;
            if !self.meet(alloc, aim)? {
                return Ok(false);
            }
        }
        Ok(false)
    }
}

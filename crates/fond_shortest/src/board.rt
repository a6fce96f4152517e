//! The states from which a policy wins, with the number of lucky steps that each needs at least.

use fond_covering::sketch::read;
use fond_deadends::states::StateSet;
use fond_draft::order::Place;
use fond_explicit::answer::Choices;
use fond_moves::applicable::ActIndex;
use fond_moves::index::{NONE, at, put, size};
use fond_moves::moves::Moves;
use fond_task::plan_step::PlanStep;
use fond_task::task::Task;
use fond_text::fault::NoMemory;
use std::alloc::Global;

/// A state of a task all of whose reachable states are split into goals, won and lost ones.
#[derive(Clone, Copy)]
pub(crate) enum Side {
    Goal,
    /// A policy wins from the state of this number.
    Won(u32),
    Lost,
}

/// The won states, with the action that is taken in each and its least rank. States are words.
#[derive(Drop)]
pub(crate) struct Board {
    pub(crate) moves: Moves,
    pub(crate) index: Box<ActIndex>,
    pub(crate) states: StateSet,
    acts: Vec<u32>,
    levels: Vec<u32>,
}

/// The choices by rising ranks.
fn in_order(alloc: Global, choices: &Choices) -> Result<Vec<Place>, NoMemory> {
    let mut places = Vec::new(alloc);
    for number in 0..choices.len() {
        let rank = choices.get(number).rank;
        places.push(Place { rank, number })?;
    }
    places.sort_by_key(|place| place.rank)?;
    Ok(places)
}

impl Board {
    /// The board of the states of choices, whose ranks are not known yet.
    fn begin(alloc: Global, t: &Task, choices: &Choices) -> Result<Board, NoMemory> {
        let moves = Moves::new(alloc, t)?;
        let index = ActIndex::new(alloc, &moves)?;
        let states = StateSet::new(alloc, moves.width)?;
        let levels = vec![in alloc; NONE; choices.len()]?;
        Ok(Board {
            moves,
            index,
            states,
            acts: Vec::new(alloc),
            levels,
        })
    }

    /// Adds the states of the choices, each under the number of its choice.
    fn fill(&mut self, alloc: Global, choices: &Choices) -> Result<(), NoMemory> {
        let mut words = vec![in alloc; 0; self.moves.width as usize]?;
        for number in 0..choices.len() {
            let pick = choices.get(number);
            read(&mut words, &pick.state);
            self.states.add(&words)?;
            self.acts.push(pick.act)?;
        }
        Ok(())
    }

    /// Ranks the states. A choice leads to goals and to states of choices before it.
    fn rank(&mut self, alloc: Global, choices: &Choices) -> Result<(), NoMemory> {
        let mut next = vec![in alloc; 0; self.moves.width as usize]?;
        for place in &in_order(alloc, choices)? {
            let number = size(place.number);
            let level = self.rank_of(number, &mut next);
            put(&mut self.levels, number, level);
        }
        Ok(())
    }

    /// The board of choices that win, one in each won state. Takes the time of one outcome of each choice, and memory in the number of
    /// choices times that of atoms.
    pub(crate) fn new(alloc: Global, t: &Task, choices: &Choices) -> Result<Board, NoMemory> {
        let mut board = Board::begin(alloc, t, choices)?;
        board.fill(alloc, choices)?;
        board.rank(alloc, choices)?;
        Ok(board)
    }

    /// On which side a reachable state is.
    pub(crate) fn side(&self, state: &[u64]) -> Side {
        if self.moves.goal.holds(state) {
            return Side::Goal;
        }
        match self.states.find(state) {
            Some(number) => Side::Won(number),
            None => Side::Lost,
        }
    }

    /// The least rank of a won state.
    pub(crate) fn level(&self, number: u32) -> u32 {
        at(&self.levels, number)
    }

    /// The action that is taken in a won state.
    pub(crate) fn act(&self, number: u32) -> u32 {
        at(&self.acts, number)
    }

    /// The rank of a state, 0 for a goal.
    fn level_of(&self, state: &[u64]) -> u32 {
        match self.side(state) {
            Side::Goal => 0,
            Side::Won(number) => self.level(number),
            Side::Lost => NONE,
        }
    }

    /// One more than the least rank of the states to which the action of a state leads, or than the greatest one if an opponent picks.
    fn rank_of(&self, number: u32, next: &mut [u64]) -> u32 {
        let act = self.act(number);
        let mut least = NONE;
        let mut most = 0;
        for outcome in 0..self.moves.outcomes(act) {
            self.moves
                .apply(PlanStep { act, outcome }, self.states.get(number), next);
            let level = self.level_of(next);
            least = least.min(level);
            most = most.max(level);
        }
        let bound = if self.moves.is_unfair(act) {
            most
        } else {
            least
        };
        bound.saturating_add(1)
    }
}

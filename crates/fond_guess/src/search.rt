//! Greedy best first search that evaluates a state when it is taken from a list, and prefers the steps of relaxed plans (Richter and
//! Helmert, *Preferred operators and deferred evaluation in satisficing planning*, 2009). Once the least estimate has not fallen for a
//! while, it also takes states in the order of the goals and landmarks that are left.
//!
//! A fair action has an entry for each outcome. An unfair one has a single entry, and the search goes on in one outcome, the
//! opponent's response, so that a search which ends without a plan has met all that the opponent needs.

use crate::goals::Goals;
use crate::known::Known;
use crate::lists::{ALL, HELPFUL, LEFT, OpenLists, PREFERRED};
use crate::queue::Open;
use fond_deadends::states::StateSet;
use fond_heuristic::cost::FAR;
use fond_heuristic::relaxed::Estimate;
use fond_moves::boxes::boxed;
use fond_moves::index::{NONE, copy_words};
use fond_task::plan_step::PlanStep;
use fond_text::fault::NoMemory;
use std::alloc::Global;

/// How many states are opened, with no estimate below the least before, until goals are counted, and until landmarks are. Where the
/// opponent picks, counting is of less use: goals that hold may be undone.
const GOALS_FROM: u32 = 200;

const LANDMARKS_FROM: u32 = 300;

const OPPOSED_FROM: u32 = 2_000;

/// The most outcomes of an unfair action whose states are estimated at once.
const MOST_ASKED: u32 = 24;

/// How a state was reached: from which one, and by which step. The first state has none.
#[derive(Clone, Copy)]
struct Link {
    from: u32,
    step: u32,
}

/// What a search may take: how many states it may have opened, and how much work it may do; and whether it may count goals.
#[derive(Clone, Copy)]
pub(crate) struct Limits {
    pub(crate) states: u32,
    pub(crate) work: u64,
    pub(crate) counts: bool,
}

/// The levels of an entry: the estimate of its state, and the rank of what is left there, or `NONE` where it is not listed.
#[derive(Clone, Copy)]
struct Levels {
    estimate: u32,
    rank: u32,
}

/// How a search ended.
#[derive(Clone, Copy, PartialEq, Eq)]
pub(crate) enum Ended {
    Found,
    Nothing,
    Spent,
}

/// A search. Its buffers serve one search after the other.
#[derive(Drop)]
pub(crate) struct Search {
    states: StateSet,
    links: Vec<Link>,
    lists: OpenLists,
    goals: Box<Goals>,
    /// How often what is counted was chosen.
    stage: u32,
    acts: Vec<u32>,
    current: Vec<u64>,
    next: Vec<u64>,
    chosen: Vec<u64>,
    estimate: Box<Estimate>,
    nearest: u32,
    opened: u32,
    /// How many states were opened when the least estimate fell last.
    fell: u32,
    steps: u64,
    /// The state in which the plan ends, and an unfair action that ends it.
    end: u32,
    last: Option<PlanStep>,
}

/// The link of the first state.
fn no_link() -> Link {
    Link {
        from: NONE,
        step: NONE,
    }
}

impl Search {
    /// A search that has not begun.
    pub(crate) fn new(alloc: Global, known: &Known) -> Result<Box<Search>, NoMemory> {
        let width = known.moves.width;
        let estimate = Estimate::new(alloc, &known.net, known.moves.steps.len())?;
        let states = StateSet::new(alloc, width)?;
        let current = vec![in alloc; 0; width as usize]?;
        let next = vec![in alloc; 0; width as usize]?;
        let chosen = vec![in alloc; 0; width as usize]?;
        let lists = OpenLists::new(alloc)?;
        let goals = Goals::new(alloc, &known.net, known.moves.steps.len())?;
        boxed(
            alloc,
            Search {
                states,
                links: Vec::new(alloc),
                lists,
                goals,
                stage: 0,
                acts: Vec::new(alloc),
                current,
                next,
                chosen,
                estimate,
                nearest: FAR,
                opened: 0,
                fell: 0,
                steps: 0,
                end: NONE,
                last: None,
            },
        )
    }

    /// Forgets the search before.
    fn clear(&mut self) -> Result<(), NoMemory> {
        self.states.clear()?;
        self.links.clear();
        self.lists.clear(ALL);
        self.goals.clear();
        self.stage = 0;
        self.nearest = FAR;
        self.opened = 0;
        self.fell = 0;
        self.end = NONE;
        self.last = None;
        Ok(())
    }

    /// The work done so far: updates of the relaxation, and entries taken or made.
    pub(crate) fn work(&self) -> u64 {
        self.steps
            .saturating_add(self.estimate.costs.work)
            .saturating_add(self.goals.work())
    }

    /// Counts a step of work.
    fn tick(&mut self) {
        self.steps = self.steps.saturating_add(1);
    }

    /// The estimate of the current state, or `FAR` if it is dead.
    fn judge(&mut self, known: &Known) -> Result<u32, NoMemory> {
        self.estimate.of(&known.net, &self.current)
    }

    /// Adds an entry for a step, which the relaxed plan has if `preferred`, and the one for the nearest goal if `helpful`.
    fn offer(
        &mut self,
        levels: Levels,
        open: Open,
        preferred: bool,
        helpful: bool,
    ) -> Result<(), NoMemory> {
        self.tick();
        if levels.estimate != NONE {
            self.lists.push(ALL, levels.estimate, open)?;
            if preferred {
                self.lists.push(PREFERRED, levels.estimate, open)?;
            }
        }
        if levels.rank != NONE {
            self.lists.push(LEFT, levels.rank, open)?;
            if helpful {
                self.lists.push(HELPFUL, levels.rank, open)?;
            }
        }
        Ok(())
    }

    /// Adds an entry for each outcome of a fair action.
    fn offer_fair(
        &mut self,
        known: &Known,
        act: u32,
        state: u32,
        levels: Levels,
    ) -> Result<(), NoMemory> {
        let first = known.moves.first_step(act);
        for outcome in 0..known.moves.outcomes(act) {
            let step = first.saturating_add(outcome);
            let preferred = self.estimate.prefers(step);
            let helpful = self.goals.way.has(step);
            self.offer(levels, Open { state, step }, preferred, helpful)?;
        }
        Ok(())
    }

    /// Whether the relaxed plan, and the one for the nearest goal, have some step of the action.
    fn prefers_act(&self, known: &Known, act: u32) -> (bool, bool) {
        let first = known.moves.first_step(act);
        let mut preferred = false;
        let mut helpful = false;
        for outcome in 0..known.moves.outcomes(act) {
            preferred |= self.estimate.prefers(first.saturating_add(outcome));
            helpful |= self.goals.way.has(first.saturating_add(outcome));
        }
        (preferred, helpful)
    }

    /// Adds the entries of an action that applies in the current state.
    fn offer_act(
        &mut self,
        known: &Known,
        act: u32,
        state: u32,
        levels: Levels,
    ) -> Result<(), NoMemory> {
        if known.is_excluded(act, &self.current, &mut self.next) {
            return Ok(());
        }
        if !known.moves.is_unfair(act) {
            return self.offer_fair(known, act, state, levels);
        }
        let step = known.moves.first_step(act);
        let (preferred, helpful) = self.prefers_act(known, act);
        self.offer(levels, Open { state, step }, preferred, helpful)
    }

    /// Adds the entries of all actions that apply in the current state.
    fn offer_all(&mut self, known: &Known, state: u32, levels: Levels) -> Result<(), NoMemory> {
        known
            .index
            .collect(&known.moves, &self.current, &mut self.acts)?;
        for i in 0..self.acts.len() {
            if let Some(act) = self.acts.get(i) {
                let act = *act;
                self.offer_act(known, act, state, levels)?;
            }
        }
        Ok(())
    }

    /// The rank of what is left in the current state, whose costs were worked out last, or `NONE` if nothing is counted.
    fn rank(&mut self, known: &Known, state: u32) -> Result<u32, NoMemory> {
        if !self.goals.is_on() {
            return Ok(NONE);
        }
        let costs = &self.estimate.costs;
        let left = self.goals.left(&known.net, costs, state, &self.current);
        self.goals.way.find(&known.net, costs, left.fact)?;
        Ok(left.rank())
    }

    /// Opens the current state, which has this number and estimate.
    fn open(&mut self, known: &Known, state: u32, estimate: u32) -> Result<(), NoMemory> {
        self.opened = self.opened.saturating_add(1);
        let rank = self.rank(known, state)?;
        let is_nearer = self.goals.is_better(rank);
        if estimate < self.nearest {
            self.fell = self.opened;
        }
        if is_nearer || estimate < self.nearest {
            self.nearest = self.nearest.min(estimate);
            self.lists.boost();
        }
        self.offer_all(known, state, Levels { estimate, rank })
    }

    /// Adds the entries of all states so far to the list of what is left.
    fn open_again(&mut self, known: &Known) -> Result<(), NoMemory> {
        self.goals.begin_again();
        self.lists.clear(LEFT);
        self.lists.boost();
        for state in 0..self.states.len() {
            copy_words(&mut self.current, self.states.get(state));
            let from = match self.links.get(state as usize) {
                Some(link) => link.from,
                None => NONE,
            };
            self.goals.meet(&known.net, from, &self.current)?;
            let costs = &self.estimate.costs;
            let left = self.goals.left(&known.net, costs, state, &self.current);
            let levels = Levels {
                estimate: NONE,
                rank: left.worst_rank(),
            };
            self.offer_all(known, state, levels)?;
        }
        Ok(())
    }

    /// How many states are to be opened before what is counted changes.
    fn next_stage(&self, known: &Known) -> u32 {
        match self.stage {
            0 | 1 if known.net.has_hopeful => OPPOSED_FROM,
            0 => GOALS_FROM,
            1 => LANDMARKS_FROM,
            _ => NONE,
        }
    }

    /// Counts goals, and later landmarks too, once enough states were opened.
    fn count(&mut self, known: &Known, start: &[u64]) -> Result<(), NoMemory> {
        if self.opened.saturating_sub(self.fell) < self.next_stage(known) {
            return Ok(());
        }
        copy_words(&mut self.current, start);
        let _ = self.judge(known)?;
        let work = self.work();
        let costs = &self.estimate.costs;
        let begun = match self.stage {
            0 => self.goals.begin(&known.net, costs)?,
            _ => self.goals.add_landmarks(&known.net, costs, start, work)?,
        };
        self.stage = self.stage.saturating_add(1);
        if begun {
            self.open_again(known)?;
        }
        Ok(())
    }

    /// Adds the current state and opens it, if it is new and not dead. Returns whether a plan ends in it.
    fn visit(&mut self, known: &Known, link: Link) -> Result<bool, NoMemory> {
        let (number, is_new) = self.states.add(&self.current)?;
        if !is_new {
            return Ok(false);
        }
        self.links.push(link)?;
        if self.goals.is_on() {
            self.goals.meet(&known.net, link.from, &self.current)?;
        }
        if known.is_settled(&self.current)
            && (number != 0 || known.moves.goal.holds(&self.current))
        {
            self.end = number;
            return Ok(true);
        }
        let estimate = self.judge(known)?;
        if estimate == FAR {
            return Ok(false);
        }
        self.open(known, number, estimate)?;
        Ok(false)
    }

    /// The next entry of the list whose turn it is.
    fn pop(&mut self) -> Option<Open> {
        self.tick();
        self.lists.pop()
    }

    /// How much the opponent likes the state in `next` as a response in the current state: most of all the one that was
    /// set, then to stay, then the state that is furthest from the goal, if it is estimated.
    fn like(&mut self, known: &Known, is_set: bool, is_asked: bool) -> Result<u32, NoMemory> {
        if is_set {
            return Ok(FAR);
        }
        if self.next.as_slice() == self.current.as_slice() {
            return Ok(FAR - 1);
        }
        if !is_asked {
            return Ok(0);
        }
        let distance = self.estimate.of(&known.net, &self.next)?;
        Ok(distance.min(FAR - 2))
    }

    /// Finds the opponent's response to an unfair action in the current state, among the outcomes in which the plan may
    /// not end, and puts its state into `chosen`. Returns its number, or `NONE` if there is none.
    fn answer(&mut self, known: &Known, act: u32, set: u32) -> Result<u32, NoMemory> {
        let mut best = NONE;
        let mut most = 0;
        let stride = known.moves.outcomes(act) / MOST_ASKED + 1;
        for outcome in 0..known.moves.outcomes(act) {
            known
                .moves
                .apply(PlanStep { act, outcome }, &self.current, &mut self.next);
            if known.is_settled(&self.next) {
                continue;
            }
            let liked = self.like(known, outcome == set, outcome % stride == 0)?;
            if best == NONE || liked > most {
                best = outcome;
                most = liked;
                copy_words(&mut self.chosen, &self.next);
            }
        }
        Ok(best)
    }

    /// Takes the step of an entry, whose state is made the current one. Returns the link to it.
    fn take(&mut self, known: &mut Known, open: Open) -> Result<Option<Link>, NoMemory> {
        copy_words(&mut self.current, self.states.get(open.state));
        let step = known.moves.step(open.step);
        if !known.moves.is_unfair(step.act) {
            known.moves.apply(step, &self.current, &mut self.next);
            copy_words(&mut self.current, &self.next);
            return Ok(Some(Link {
                from: open.state,
                step: open.step,
            }));
        }
        let set = known.responses.get(step.act, &self.current);
        let outcome = self.answer(known, step.act, set)?;
        if outcome == NONE {
            self.end = open.state;
            self.last = Some(step);
            return Ok(None);
        }
        copy_words(&mut self.current, &self.chosen);
        Ok(Some(Link {
            from: open.state,
            step: open.step.saturating_add(outcome),
        }))
    }

    /// Takes an entry, and opens the state that it leads to if that is new. Returns how the search ended, if it did.
    fn turn(&mut self, known: &mut Known) -> Result<Option<Ended>, NoMemory> {
        let Some(open) = self.pop() else {
            return Ok(Some(Ended::Nothing));
        };
        let Some(link) = self.take(known, open)? else {
            return Ok(Some(Ended::Found));
        };
        if self.visit(known, link)? {
            return Ok(Some(Ended::Found));
        }
        Ok(None)
    }

    /// Begins to search from a state. Returns whether a plan ends in it.
    pub(crate) fn begin(&mut self, known: &Known, start: &[u64]) -> Result<bool, NoMemory> {
        self.clear()?;
        copy_words(&mut self.current, start);
        self.visit(known, no_link())
    }

    /// Searches on from the state from which the search began. It may go on with larger limits if it was spent.
    pub(crate) fn run(
        &mut self,
        known: &mut Known,
        start: &[u64],
        limits: Limits,
    ) -> Result<Ended, NoMemory> {
        let begun = self.work();
        for _ in 0..u64::MAX {
            if self.opened >= limits.states || self.work().saturating_sub(begun) >= limits.work {
                return Ok(Ended::Spent);
            }
            if let Some(ended) = self.turn(known)? {
                return Ok(ended);
            }
            if limits.counts {
                self.count(known, start)?;
            }
        }
        Ok(Ended::Spent)
    }

    /// The steps of the plan that was found, the last first.
    pub(crate) fn plan(&self, alloc: Global, known: &Known) -> Result<Vec<PlanStep>, NoMemory> {
        let mut steps = Vec::new(alloc);
        if let Some(step) = self.last {
            steps.push(step)?;
        }
        let mut number = self.end;
        for _ in 0..self.links.len() {
            let Some(link) = self.links.get(number as usize) else {
                return Ok(steps);
            };
            if link.step == NONE {
                return Ok(steps);
            }
            steps.push(known.moves.step(link.step))?;
            number = link.from;
        }
        Ok(steps)
    }
}

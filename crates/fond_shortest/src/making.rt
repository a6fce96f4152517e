//! Rules in the order of least ranks.
//!
//! A state gets a rule if the policy reaches it and no rule holds in it yet; states of smaller ranks come first. The rule takes the
//! state's action, with the goal or a rule of smaller rank as target, and its condition is as short as that allows. All states of one
//! rank are looked at before their rules are added, so that no rule has one of the same rank as target. If a rule holds in a state, it
//! is of no greater rank than the state needs; so the policy has the least rank, if it reaches no lost state.

ghost use Rattle.fond_rules.specs.Select.{AreOver};
ghost use Rattle.std.specs.Prelude.{◌≤◌, length, OnOk};

use crate::board::{Board, Side};
use fond_deadends::cubes::{CubeSet, Masks, masks_of};
use fond_draft::order::Place;
use fond_explicit::answer::Choices;
use fond_moves::index::{NONE, at, size};
use fond_moves::part::Part;
use fond_regress::condition::lean_condition;
use fond_rules::pad::Pad;
use fond_rules::pairs::Pairs;
use fond_rules::rules::Rules;
use fond_rules::sure_rules::sure_rule;
use fond_state::cube::Cube;
use fond_state::state::State;
use fond_task::plan_step::PlanStep;
use fond_task::rule::{Rule, Target, TargetList, Targets};
use fond_task::task::Task;
use fond_text::fault::NoMemory;
use std::alloc::Global;

/// What is known of the rules so far: their conditions in words, actions and ranks.
#[derive(Drop)]
struct Making<'a> {
    board: &'a Board,
    choices: &'a Choices,
    shortens: bool,
    conditions: Box<CubeSet>,
    acts: Vec<u32>,
    ranks: Vec<u32>,
    next: Vec<u64>,
}

/// A rule for a won state, with its rank.
#[derive(Drop)]
struct Made {
    state: u32,
    rank: u32,
    rule: Rule,
}

/// The masks of a cube.
fn masks_of_cube(alloc: Global, cube: &Cube, width: u32) -> Result<Masks, NoMemory> {
    let mut part = Part::new(alloc, width)?;
    for atom in 0..size(cube.len()) {
        part.set(atom, cube.literal(atom));
    }
    masks_of(alloc, &part)
}

/// Adds a rule, if its condition is over the task's atoms. Reports `NoMemory` past 2^32 - 2 rules.
fn push_rule(t: &Task, rules: &mut Rules, rule: Rule) -> Result<(), NoMemory>
    requires { AreOver (length t.now.atoms) rules.old }
    ensures { OnOk result (AreOver (length t.now.atoms) rules.new) }
{
    if rules.len() >= u32::MAX - 1 || rule.cond.len() != t.atoms.len() {
        return Err(NoMemory);
    }
    rules.push(rule)
}

/// A rule with these targets that holds in a state and is sure, if there is one: with a short condition, or with the state's full cube.
fn sure_rule_in(
    alloc: Global,
    t: &Task,
    rules: &Rules,
    state: &State,
    act: u32,
    targets: Targets,
    shortens: bool,
) -> Result<Option<Rule>, NoMemory>
    requires { AreOver (length t.now.atoms) rules.now }
{
    if act as usize >= t.acts.len() || state.len() != t.atoms.len() {
        return Ok(None);
    }
    let pairs = Pairs::new(alloc);
    let mut pad = Pad::new(alloc, t.atoms.len() as u32)?;
    let cond = Cube::full(alloc, state)?;
    let rule = Rule { cond, act, targets };
    if !sure_rule(t, &pairs, rules, rules.len(), &rule, &mut pad) {
        return Ok(None);
    }
    if !shortens {
        return Ok(Some(rule));
    }
    let cond = lean_condition(alloc, t, &pairs, rules, state, act, &rule.targets)?;
    let targets = rule.targets;
    Ok(Some(Rule { cond, act, targets }))
}

impl<'a> Making<'a> {
    /// No rules.
    fn new(
        alloc: Global,
        board: &'a Board,
        choices: &'a Choices,
        shortens: bool,
    ) -> Result<Making<'a>, NoMemory> {
        let conditions = CubeSet::new(alloc, board.moves.atoms, board.moves.width)?;
        Ok(Making {
            board,
            choices,
            shortens,
            conditions,
            acts: Vec::new(alloc),
            ranks: Vec::new(alloc),
            next: vec![in alloc; 0; board.moves.width as usize]?,
        })
    }

    /// Makes the next state the one after a step in a won state.
    fn step(&mut self, state: u32, step: PlanStep) {
        let board = self.board;
        board
            .moves
            .apply(step, board.states.get(state), &mut self.next);
    }

    /// The target for the next state and its rank, if it is a goal or a rule holds in it.
    fn target(&self) -> Option<(Target, u32)> {
        if matches!(self.board.side(&self.next), Side::Goal) {
            return Some((Target::Goal, 0));
        }
        let rule = self.conditions.first(&self.next);
        if rule == NONE {
            return None;
        }
        Some((Target::Rule(rule), at(&self.ranks, rule)))
    }

    /// The target of least rank of a fair action in a state, with a rank of one more, if there is one.
    fn nearest(&mut self, state: u32, act: u32) -> Option<(Targets, u32)> {
        let mut best = None;
        let mut least = NONE;
        for outcome in 0..self.board.moves.outcomes(act) {
            self.step(state, PlanStep { act, outcome });
            if let Some((target, rank)) = self.target() {
                if rank < least {
                    least = rank;
                    best = Some((Targets::One { outcome, target }, rank.saturating_add(1)));
                }
            }
        }
        best
    }

    /// The targets of an unfair action in a state, with a rank of one more than the greatest of them, if each outcome has one.
    fn each(
        &mut self,
        alloc: Global,
        state: u32,
        act: u32,
    ) -> Result<Option<(Targets, u32)>, NoMemory> {
        let mut targets = TargetList::new(alloc);
        let mut most = 0;
        for outcome in 0..self.board.moves.outcomes(act) {
            self.step(state, PlanStep { act, outcome });
            let Some((target, rank)) = self.target() else {
                return Ok(None);
            };
            targets.push(target)?;
            most = most.max(rank);
        }
        Ok(Some((Targets::All(targets), most.saturating_add(1))))
    }

    /// A rule for a won state, if one can be made now.
    fn make(
        &mut self,
        alloc: Global,
        t: &Task,
        rules: &Rules,
        state: u32,
    ) -> Result<Option<Made>, NoMemory>
        requires { AreOver (length t.now.atoms) rules.now }
    {
        let act = self.board.act(state);
        if act as usize >= t.acts.len() {
            return Ok(None);
        }
        let found = if t.acts.get(act as usize).unfair {
            self.each(alloc, state, act)?
        } else {
            self.nearest(state, act)
        };
        let Some((targets, rank)) = found else {
            return Ok(None);
        };
        let choices = self.choices;
        if state as usize >= choices.len() {
            return Ok(None);
        }
        let here = &choices.get(state as usize).state;
        let Some(rule) = sure_rule_in(alloc, t, rules, here, act, targets, self.shortens)? else {
            return Ok(None);
        };
        Ok(Some(Made { state, rank, rule }))
    }

    /// Adds rules, but those in whose states one holds already.
    fn add_all(
        &mut self,
        alloc: Global,
        t: &Task,
        rules: &mut Rules,
        made: Vec<Made>,
    ) -> Result<(), NoMemory>
        requires { AreOver (length t.now.atoms) rules.old }
        ensures { OnOk result (AreOver (length t.now.atoms) rules.new) }
    {
        for one in made {
            if self.holds_in(one.state) {
                continue;
            }
            let masks = masks_of_cube(alloc, &one.rule.cond, self.board.moves.width)?;
            self.conditions.add(masks)?;
            self.acts.push(one.rule.act)?;
            self.ranks.push(one.rank)?;
            push_rule(t, rules, one.rule)?;
        }
        Ok(())
    }

    /// Whether a rule holds in a won state.
    fn holds_in(&self, state: u32) -> bool {
        self.conditions.holds(self.board.states.get(state))
    }

    /// Makes rules for states of the same rank in which none holds. Returns whether each got one.
    fn make_rank(
        &mut self,
        alloc: Global,
        t: &Task,
        rules: &mut Rules,
        places: &[Place],
    ) -> Result<bool, NoMemory>
        requires { AreOver (length t.now.atoms) rules.old }
        ensures { OnOk result (AreOver (length t.now.atoms) rules.new) }
    {
        let mut made = Vec::new(alloc);
        for place in places {
            let state = size(place.number);
            if self.holds_in(state) {
                continue;
            }
            let Some(one) = self.make(alloc, t, rules, state)? else {
                return Ok(false);
            };
            made.push(one)?;
        }
        self.add_all(alloc, t, rules, made)?;
        Ok(true)
    }

    /// Makes rules for states, which are sorted by their ranks. Returns whether each got one.
    fn make_all(
        &mut self,
        alloc: Global,
        t: &Task,
        rules: &mut Rules,
        places: &[Place],
    ) -> Result<bool, NoMemory>
        requires { AreOver (length t.now.atoms) rules.old }
        ensures { OnOk result (AreOver (length t.now.atoms) rules.new) }
    {
        let mut rest = places;
        for _ in 0..places.len() {
            let (group, later) = rest.split_at(of_first_rank(rest));
            if !self.make_rank(alloc, t, rules, group)? {
                return Ok(false);
            }
            rest = later;
        }
        Ok(true)
    }

    /// Puts the won states to which an action leads from a state into the queue, unless they were in it. Returns whether none is lost.
    fn follow(
        &mut self,
        state: u32,
        act: u32,
        seen: &mut [bool],
        queue: &mut Vec<u32>,
    ) -> Result<bool, NoMemory> {
        for outcome in 0..self.board.moves.outcomes(act) {
            self.step(state, PlanStep { act, outcome });
            match self.board.side(&self.next) {
                Side::Goal => {}
                Side::Won(number) => enter(seen, queue, number)?,
                Side::Lost => return Ok(false),
            }
        }
        Ok(true)
    }

    /// The won states that the policy reaches from one on in which no rule holds, or nothing if it may reach a lost one.
    fn bare(&mut self, alloc: Global, start: u32) -> Result<Option<Vec<Place>>, NoMemory> {
        let mut seen = vec![in alloc; false; self.board.states.len() as usize]?;
        let mut queue = Vec::new(alloc);
        let mut bare = Vec::new(alloc);
        enter(&mut seen, &mut queue, start)?;
        for i in 0..self.board.states.len() {
            if i as usize >= queue.len() {
                break;
            }
            let state = at(&queue, i);
            let rule = self.conditions.first(self.board.states.get(state));
            let mut act = at(&self.acts, rule);
            if rule == NONE {
                act = self.board.act(state);
                let rank = self.board.level(state) as u64;
                let number = state as usize;
                bare.push(Place { rank, number })?;
            }
            if !self.follow(state, act, &mut seen, &mut queue)? {
                return Ok(None);
            }
        }
        bare.sort_by_key(|place| place.rank)?;
        Ok(Some(bare))
    }
}

/// How many of the places have the rank of the first.
fn of_first_rank(places: &[Place]) -> usize
    ensures { result ≤ length places.now }
{
    for (number, place) in places.iter().enumerate() {
        if place.rank != places[0].rank {
            return number;
        }
    }
    places.len()
}

/// Puts a state into the queue, unless it was in it.
fn enter(seen: &mut [bool], queue: &mut Vec<u32>, state: u32) -> Result<(), NoMemory> {
    if let Some(flag) = seen.get_mut(state as usize) {
        if !*flag {
            *flag = true;
            queue.push(state)?;
        }
    }
    Ok(())
}

/// Rules of a policy of least rank from a won state on, or nothing if a rule cannot be made or they may reach a lost state. Takes, for
/// each rule, the time of `lean_condition`, and that of a walk through the states that the policy reaches, once more if the rules reach
/// others than the choices do.
pub(crate) fn rules_from(
    alloc: Global,
    t: &Task,
    board: &Board,
    choices: &Choices,
    start: u32,
    shortens: bool,
) -> Result<Option<Rules>, NoMemory> {
    let mut making = Making::new(alloc, board, choices, shortens)?;
    let mut rules = Rules::new(alloc);
    for _ in 0..u32::MAX {
        let Some(bare) = making.bare(alloc, start)? else {
            return Ok(None);
        };
        if bare.is_empty() {
            return Ok(Some(rules));
        }
        if !making.make_all(alloc, t, &mut rules, &bare)? {
            return Ok(None);
        }
    }
    Ok(None)
}

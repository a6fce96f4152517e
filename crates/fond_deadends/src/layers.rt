//! Layers of several cubes, which are made together and grow only where they have to.
//!
//! A node has a state from which the goal may be out of reach, and a cube around it: some atoms of the state, which are known. At
//! first these are reasons why the goal is false. Then each action is looked at on the cube of each node. It does no harm if its
//! precondition is false there, or if some outcome leads from the cube into one that is dead already, or if all outcomes lead
//! into cubes of nodes; of an unfair action, one such outcome is enough, since an opponent picks it. Otherwise the cube grows by
//! reasons: why the action does not apply in the node's state, or what the cubes ask for in which its next states lie, regressed
//! through its outcomes. A next state in no cube becomes a node, unless it is dead by itself: then that cube comes first.
//!
//! Once no look is left, the cubes of the nodes are a layer. Like a lazy abstraction, it distinguishes states only as far as an
//! action made that necessary, and no state is visited but those of the nodes.

use crate::agenda::{Agenda, Look, low_bits};
use crate::dead::Prover;
use crate::facts::Facts;
use crate::nodes::Nodes;
use crate::states::StateSet;
use fond_heuristic::cost::FAR;
use fond_heuristic::relaxed::Estimate;
use fond_moves::boxes::boxed;
use fond_moves::condition::Mask;
use fond_moves::effect::Effect;
use fond_moves::index::{NONE, copy_words, size, word_at};
use fond_moves::moves::Move;
use fond_moves::part::Part;
use fond_task::form::Kleene;
use fond_text::fault::NoMemory;
use std::alloc::Global;

/// The most nodes of a layer.
const NODES: u32 = 1 << 15;

/// The work of a look beside the words of a state; that of a comparison with the cube of a node is 1.
const LOOK: u64 = 8;

/// What a search for layers may take: how many states it may visit, and how much work it may do.
#[derive(Clone, Copy)]
pub struct Limits {
    pub states: u32,
    pub work: u64,
}

/// How a search for layers goes on.
#[derive(Clone, Copy, PartialEq, Eq)]
pub enum Stage {
    /// There is more to look at.
    Open,
    /// A cube is dead by itself, and belongs into a layer of its own before the search goes on.
    Cube,
    /// The cubes of the nodes are a layer.
    Layer,
    /// There is none, or it takes too long.
    Failed,
}

/// A search for layers around a state. Its buffers serve one search after the other. The large parts are in boxes, since the
/// time that the proof of a body takes grows with the fields of the values that it owns.
#[derive(Drop)]
pub struct LayerSearch {
    nodes: Nodes,
    agenda: Agenda,
    prover: Box<Prover>,
    estimate: Box<Estimate>,
    /// States that are known to be lost, if any are: responses to unfair actions are sought among them.
    lost: Box<StateSet>,
    view: Box<View>,
    /// The node in whose cube each outcome of the action leads, or `NONE`.
    inside: Vec<u32>,
    /// How many nodes there may be, how much work may still be done, and how much was done in all searches.
    most: u32,
    left: u64,
    work: u64,
}

/// What is looked at.
#[derive(Drop)]
struct View {
    /// The cube of the node that is looked at, its state, and an image. All atoms of the state are known.
    part: Part,
    whole: Part,
    image: Part,
    /// A next state, of which all atoms are known too.
    next: Part,
}

impl View {
    /// Nothing is looked at yet, in states of this many atoms and words.
    fn new(alloc: Global, atoms: u32, width: u32) -> Result<Box<View>, NoMemory> {
        let view = View {
            part: Part::new(alloc, width)?,
            whole: Part::new(alloc, width)?,
            image: Part::new(alloc, width)?,
            next: Part::new(alloc, width)?,
        };
        let mut view = boxed(alloc, view)?;
        know_all(&mut view.whole.care, atoms);
        know_all(&mut view.next.care, atoms);
        Ok(view)
    }

    /// Makes the next state the one after an effect in the node's state.
    fn enter(&mut self, effect: &Effect) {
        effect.apply(&self.whole.value, &mut self.next.value);
    }

    /// Makes the image reasons why the next state is no goal.
    fn explain_next(&mut self, facts: &Facts) {
        self.image.clear();
        facts
            .moves
            .goal
            .refute(&self.next, facts.weights, &mut self.image);
    }

    /// Adds what has to be known before an effect, so that these literals hold after it, which they do in the node's state.
    fn regress(&mut self, effect: &Effect, mask: &Mask) {
        let values = word_at(&self.whole.value, mask.word);
        match effect.needed_before(mask) {
            Some(bits) => self.part.put_bits(mask.word, bits, values),
            None => {
                self.part.put_bits(mask.word, mask.care, values);
                effect.mention(&self.whole, &mut self.part);
            }
        }
    }
}

/// Makes all these atoms known.
pub(crate) fn know_all(care: &mut [u64], atoms: u32) {
    for i in 0..care.len() {
        let before = size(i).saturating_mul(64);
        care[i] = low_bits(atoms.saturating_sub(before));
    }
}

impl LayerSearch {
    /// A search that has not begun.
    pub fn new(alloc: Global, facts: &Facts) -> Result<Box<LayerSearch>, NoMemory> {
        let width = facts.moves.width;
        let prover = Prover::new(alloc, width)?;
        let estimate = Estimate::new(alloc, facts.net, facts.moves.steps.len())?;
        let lost = boxed(alloc, StateSet::new(alloc, width)?)?;
        let view = View::new(alloc, facts.moves.atoms, width)?;
        boxed(
            alloc,
            LayerSearch {
                nodes: Nodes::new(alloc, width),
                agenda: Agenda::new(alloc, size(facts.moves.acts.len())),
                prover,
                estimate,
                lost,
                view,
                inside: Vec::new(alloc),
                most: 0,
                left: 0,
                work: 0,
            },
        )
    }

    /// How much was done in all searches: looks at an action for a cube, and comparisons of cubes.
    pub fn work(&self) -> u64 {
        self.work.saturating_add(self.prover.work)
    }

    /// Knows of no lost state any more.
    pub fn forget_lost(&mut self) -> Result<(), NoMemory> {
        self.lost.clear()
    }

    /// From now on, the state is known to be lost.
    pub fn add_lost(&mut self, state: &[u64]) -> Result<(), NoMemory> {
        self.lost.add(state)?;
        Ok(())
    }

    /// Counts work.
    fn spend(&mut self, amount: u64) {
        self.left = self.left.saturating_sub(amount);
        self.work = self.work.saturating_add(amount);
    }

    /// Adds a node for the next state, with reasons why it is no goal.
    fn add_node(&mut self, facts: &Facts) -> Result<u32, NoMemory> {
        self.view.explain_next(facts);
        self.agenda.add_node()?;
        self.nodes.add(&self.view.next.value, &self.view.image.care)
    }

    /// Begins with a state, and lets the search take this much.
    pub fn begin(&mut self, facts: &Facts, state: &[u64], limits: Limits) -> Result<(), NoMemory> {
        self.nodes.clear();
        self.agenda.clear();
        self.most = limits.states.min(NODES);
        self.left = limits.work;
        copy_words(&mut self.view.next.value, state);
        if facts.moves.goal.holds(&self.view.next.value) {
            self.left = 0;
            return Ok(());
        }
        self.add_node(facts)?;
        Ok(())
    }

    /// Whether the work that was allowed ran out, so that the search can go on if it is allowed more.
    pub fn is_spent(&self) -> bool {
        self.left == 0 && self.nodes.len() > 0
    }

    /// Goes on with a search whose work ran out, and lets it take this much more.
    pub fn go_on(&mut self, limits: Limits) {
        self.most = limits.states.min(NODES);
        self.left = limits.work;
    }

    /// Lets the search take this much more.
    pub fn allow(&mut self, work: u64) {
        self.left = self.left.saturating_add(work);
    }

    /// The node in whose cube the image lies: the one that is looked at, or else the first one, if the others are asked.
    fn node_around(&mut self, node: u32, others: bool) -> u32 {
        if self.nodes.covers(node, &self.view.image) {
            return node;
        }
        if !others {
            return NONE;
        }
        let count = self.nodes.len() as u64;
        self.spend(count);
        self.nodes.first_covering(&self.view.image).unwrap_or(NONE)
    }

    /// Finds the nodes in whose cubes the outcomes lead. Returns whether one of them leads into a dead cube.
    fn follow(
        &mut self,
        facts: &Facts,
        one: &Move,
        node: u32,
        others: bool,
    ) -> Result<bool, NoMemory> {
        self.inside.clear();
        for effect in one.effects.iter() {
            let view = &mut *self.view;
            effect.image(&view.part, &mut view.image);
            if facts.dead.cover(&self.view.image).is_some() {
                return Ok(true);
            }
            let around = self.node_around(node, others);
            self.inside.push(around)?;
        }
        Ok(false)
    }

    /// A look leans on the cubes into which the outcomes lead. Returns false if it has no such cube for one of them.
    fn lean_on_all(&mut self, look: Look) -> Result<bool, NoMemory> {
        for node in &self.inside {
            if *node == NONE {
                return Ok(false);
            }
        }
        for node in &self.inside {
            self.agenda.lean(*node, look)?;
        }
        Ok(true)
    }

    /// A look leans on the first cube into which an outcome leads. Returns false if there is none.
    fn lean_on_one(&mut self, look: Look) -> Result<bool, NoMemory> {
        for node in &self.inside {
            if *node != NONE {
                self.agenda.lean(*node, look)?;
                return Ok(true);
            }
        }
        Ok(false)
    }

    /// Whether the action does no harm on the cube that is looked at.
    fn is_harmless(&mut self, facts: &Facts, one: &Move, look: Look) -> Result<bool, NoMemory> {
        let applies = one.needs.holds(&self.view.whole.value);
        if self.follow(facts, one, look.node, applies)? {
            return Ok(true);
        }
        if one.unfair {
            self.lean_on_one(look)
        } else {
            self.lean_on_all(look)
        }
    }

    /// The cube of a node becomes what is known now.
    fn keep(&mut self, node: u32) -> Result<(), NoMemory> {
        if self.nodes.know(node, &self.view.part.care) {
            self.agenda.wake_leaning(node)?;
        }
        Ok(())
    }

    /// The first outcome that leads from the node's state into a dead cube, and that cube.
    fn first_dead(&mut self, facts: &Facts, one: &Move) -> Option<(usize, u32)> {
        if facts.dead.is_empty() {
            return None;
        }
        let effects = one.effects.as_slice();
        for i in 0..effects.len() {
            self.view.enter(&effects[i]);
            let cube = facts.dead.first(&self.view.next.value);
            if cube != NONE {
                return Some((i, cube));
            }
        }
        None
    }

    /// Adds what a dead cube asks for, before an effect that leads into it.
    fn regress_dead(&mut self, facts: &Facts, effect: &Effect, cube: u32) {
        for mask in facts.dead.masks(cube) {
            self.view.regress(effect, mask);
        }
    }

    /// Adds what the cube of a node asks for, before an effect that leads into it.
    fn regress_node(&mut self, effect: &Effect, node: u32) {
        for word in 0..self.nodes.width() {
            let mask = self.nodes.mask(node, word);
            if mask.care != 0 {
                self.view.regress(effect, &mask);
            }
        }
    }

    /// The node whose cube holds in the next state: the one that is looked at, or else the first one.
    fn node_of_next(&mut self, node: u32) -> u32 {
        if self.nodes.holds(node, &self.view.next.value) {
            return node;
        }
        let count = self.nodes.len() as u64;
        self.spend(count);
        self.nodes
            .first_holding(&self.view.next.value)
            .unwrap_or(NONE)
    }

    /// Whether the next state, which lies in no cube, can be a node: it is no goal, and there is room. If it is dead by itself, its
    /// cube comes first.
    fn judge_next(&mut self, facts: &Facts) -> Result<Stage, NoMemory> {
        if facts.moves.goal.holds(&self.view.next.value) || self.nodes.len() >= self.most {
            return Ok(Stage::Failed);
        }
        let before = self.prover.work;
        let is_dead = self.prover.find(facts, &self.view.next.value)?;
        let looks = self.prover.work.saturating_sub(before);
        let cost = 1 + facts.moves.width as u64 / 8;
        self.left = self.left.saturating_sub(looks.saturating_mul(cost));
        Ok(if is_dead { Stage::Cube } else { Stage::Open })
    }

    /// Goes into the next state by an effect: what the cube of its node asks for has to be known before.
    fn enter(&mut self, facts: &Facts, effect: &Effect, look: Look) -> Result<Stage, NoMemory> {
        self.view.enter(effect);
        let mut node = self.node_of_next(look.node);
        if node == NONE {
            let stage = self.judge_next(facts)?;
            if stage != Stage::Open {
                return Ok(stage);
            }
            node = self.add_node(facts)?;
        }
        self.regress_node(effect, node);
        self.agenda.lean(node, look)?;
        Ok(Stage::Open)
    }

    /// Goes into the next states by all outcomes.
    fn enter_all(&mut self, facts: &Facts, one: &Move, look: Look) -> Result<Stage, NoMemory> {
        for effect in one.effects.iter() {
            let stage = self.enter(facts, effect, look)?;
            if stage != Stage::Open {
                return Ok(stage);
            }
        }
        Ok(Stage::Open)
    }

    /// How much the opponent likes the next state as a response: most of all to stay in the cube, then to go into another one, then
    /// to be far from the goal. 0 if it is a goal, or no lost state though some are known.
    fn like(&mut self, facts: &Facts, node: u32) -> Result<u32, NoMemory> {
        if facts.moves.goal.holds(&self.view.next.value) {
            return Ok(0);
        }
        let around = self.node_of_next(node);
        if around == node {
            return Ok(FAR);
        }
        if around != NONE {
            return Ok(FAR - 1);
        }
        if self.lost.len() > 0 {
            return Ok(self.lost.find(&self.view.next.value).is_some() as u32);
        }
        let distance = self.estimate.of(facts.net, &self.view.next.value)?;
        Ok(distance.min(FAR - 2).max(1))
    }

    /// The opponent's response to an unfair action, as the number of an outcome.
    fn response(
        &mut self,
        facts: &Facts,
        one: &Move,
        node: u32,
    ) -> Result<Option<usize>, NoMemory> {
        let mut best = None;
        let mut most = 0;
        let effects = one.effects.as_slice();
        for i in 0..effects.len() {
            self.view.enter(&effects[i]);
            let liked = self.like(facts, node)?;
            if liked > most {
                best = Some(i);
                most = liked;
            }
        }
        Ok(best)
    }

    /// Goes into the next state by the response to an unfair action.
    fn enter_response(&mut self, facts: &Facts, one: &Move, look: Look) -> Result<Stage, NoMemory> {
        let Some(k) = self.response(facts, one, look.node)? else {
            return Ok(Stage::Failed);
        };
        match one.effects.get(k) {
            Some(effect) => self.enter(facts, effect, look),
            None => Ok(Stage::Failed),
        }
    }

    /// Adds what has to be known for an action to do no harm on the cube that is looked at.
    fn explain(&mut self, facts: &Facts, one: &Move, look: Look) -> Result<Stage, NoMemory> {
        if !one.needs.holds(&self.view.whole.value) {
            let view = &mut *self.view;
            one.needs.refute(&view.whole, facts.weights, &mut view.part);
            return Ok(Stage::Open);
        }
        if let Some((k, cube)) = self.first_dead(facts, one) {
            if let Some(effect) = one.effects.get(k) {
                self.regress_dead(facts, effect, cube);
            }
            return Ok(Stage::Open);
        }
        if one.unfair {
            return self.enter_response(facts, one, look);
        }
        self.enter_all(facts, one, look)
    }

    /// Looks at an action on the cube of a node.
    fn look(&mut self, facts: &Facts, look: Look) -> Result<Stage, NoMemory> {
        self.spend(LOOK.saturating_add(facts.moves.width as u64));
        let Some(one) = facts.moves.acts.get(look.act as usize) else {
            return Ok(Stage::Open);
        };
        self.nodes.load(look.node, &mut self.view.part);
        if one.needs.value(&self.view.part) == Kleene::No {
            return Ok(Stage::Open);
        }
        copy_words(&mut self.view.whole.value, self.nodes.state(look.node));
        if self.is_harmless(facts, one, look)? {
            return Ok(Stage::Open);
        }
        let stage = self.explain(facts, one, look)?;
        self.keep(look.node)?;
        self.agenda.wake(look)?;
        Ok(stage)
    }

    /// Goes on until a cube is dead by itself, or the nodes are a layer, or there is none that is found with the work that is left.
    pub fn run(&mut self, facts: &Facts) -> Result<Stage, NoMemory> {
        for _ in 0..u64::MAX {
            if self.left == 0 {
                return Ok(Stage::Failed);
            }
            let Some(look) = self.agenda.pop() else {
                return Ok(Stage::Layer);
            };
            let stage = self.look(facts, look)?;
            if stage != Stage::Open {
                return Ok(stage);
            }
        }
        Ok(Stage::Failed)
    }

    /// The cube that is dead by itself, once there is one.
    pub fn dead_cube(&self) -> &Part {
        &self.prover.best
    }

    /// The number of nodes.
    pub fn len(&self) -> u32 {
        self.nodes.len()
    }

    /// Makes the partial state the cube of a node. Returns false if it lies in that of another one.
    pub fn load(&self, node: u32, part: &mut Part) -> bool {
        self.nodes.load(node, part);
        !self.nodes.is_needless(node)
    }
}

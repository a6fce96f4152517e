//! Sketches of covers.
//!
//! A node has a state that the rules reach, and a cube around it: some atoms of the state, which are known. The cube asks for
//! what the node's rule needs to be the first that holds, and for what the node's edges need. An edge is an outcome of the
//! rule's action, and leads into a node whose cube holds in the next state. What that cube asks for is regressed through the
//! outcome, and the edge needs it before the outcome.
//!
//! A next state is put under a node of its rule whose cube holds in it, and only without such a node becomes a node of its own.
//! If the cube of a node grows, each edge into it is looked at again, and may have to lead elsewhere. Once no edge waits, the
//! cubes are sure, and no state was visited but those of the nodes.

use crate::choices::Choices;
use crate::edges::Edges;
use crate::nodes::{GOAL, Nodes};
use crate::reason::{explain, is_true};
use crate::regress::regress;
use fond_moves::index::{NONE, copy_words, has, link_at, put, put_bit, size};
use fond_moves::moves::Moves;
use fond_policy::item::{Item, ItemNumbers, Way};
use fond_policy::items::Items;
use fond_state::cube::Cube;
use fond_state::state::State;
use fond_task::plan_step::PlanStep;
use fond_task::shared::Shared;
use fond_task::task::{Outcome, Task};
use fond_text::fault::NoMemory;
use fond_text::list::List;
use std::alloc::Global;

/// The most nodes, and the most words that they take.
const NODES: u32 = 1 << 20;

const WORDS: usize = 1 << 25;

/// The most conditions, nodes and words of edges that are looked at, and the most rules: with more, finding those that a node has to
/// contradict takes longer than listing all states.
const WORK: u64 = 1 << 30;

const RULES: u32 = 1 << 14;

/// With more outcomes of an action than this on average, states are far more than rules, and a sketch is worth some times as many
/// rules and as much work.
const MANY_OUTCOMES: u64 = 4;

/// An edge: an outcome of the action of a node's rule.
#[derive(Clone, Copy)]
pub struct Edge {
    pub number: u32,
    pub node: u32,
    pub outcome: u32,
}

/// The most rules of a sketch, and the most that it looks at.
#[derive(Clone, Copy)]
struct Limits {
    rules: u32,
    work: u64,
}

/// What came of an edge that was looked at.
#[derive(Clone, Copy)]
pub enum Looked {
    /// The edge leads into a node.
    Done,
    /// The next state is no goal, and no rule holds in it.
    Open,
    /// There was too much to do.
    Spent,
}

/// Words that a step overwrites.
#[derive(Drop)]
struct Scratch {
    /// The state of a node, and the next one.
    state: Vec<u64>,
    next: Vec<u64>,
    /// What is known of a node's state, and what its child asks for.
    known: Vec<u64>,
    asked: Vec<u64>,
    /// No atom, but while an edge is looked at.
    touched: Vec<u64>,
}

/// A cover that is being made, for rules in order.
#[derive(Drop)]
pub struct Sketch {
    moves: Shared<Moves>,
    choices: Choices,
    nodes: Nodes,
    edges: Edges,
    scratch: Scratch,
    limits: Limits,
    work: u64,
}

/// Makes the words those of a state.
pub fn read(words: &mut [u64], state: &State) {
    for word in words.iter_mut() {
        *word = 0;
    }
    for atom in 0..state.len() as u32 {
        if state.get(atom) {
            put_bit(words, atom, true);
        }
    }
}

/// The limits of a sketch for a task with these moves.
fn limits_of(moves: &Moves) -> Limits {
    let outcomes = moves.steps.len() as u64;
    if outcomes / MANY_OUTCOMES <= moves.acts.len() as u64 {
        return Limits {
            rules: RULES,
            work: WORK,
        };
    }
    Limits {
        rules: 8 * RULES,
        work: 16 * WORK,
    }
}

/// The outcome of a step, if the task has it.
pub fn outcome_of(t: &Task, step: PlanStep) -> Option<&Outcome> {
    let act = t.acts.as_slice().get(step.act as usize)?;
    act.outcomes.as_slice().get(step.outcome as usize)
}

/// The cube of the known atoms of a state.
pub fn cube_of(alloc: Global, state: &[u64], known: &[u64], atoms: u32) -> Result<Cube, NoMemory> {
    let mut cube = Cube::new(alloc, atoms)?;
    for atom in 0..atoms {
        if has(known, atom) && (atom as usize) < cube.len() {
            cube.put_literal(atom, has(state, atom));
        }
    }
    Ok(cube)
}

impl Scratch {
    /// Words for states of this width.
    fn new(alloc: Global, width: u32) -> Result<Scratch, NoMemory> {
        let state = vec![in alloc; 0; width as usize]?;
        let next = vec![in alloc; 0; width as usize]?;
        let known = vec![in alloc; 0; width as usize]?;
        let asked = vec![in alloc; 0; width as usize]?;
        let touched = vec![in alloc; 0; width as usize]?;
        Ok(Scratch {
            state,
            next,
            known,
            asked,
            touched,
        })
    }

    /// Forgets what is known.
    fn forget(&mut self) {
        for word in self.known.iter_mut() {
            *word = 0;
        }
    }
}

impl Sketch {
    /// A sketch without rules and nodes, for a task with these moves. Takes time and memory in the number of atoms.
    pub fn new(alloc: Global, moves: Shared<Moves>) -> Result<Box<Sketch>, NoMemory> {
        let choices = Choices::new(alloc, moves.atoms, moves.width)?;
        let scratch = Scratch::new(alloc, moves.width)?;
        let nodes = Nodes::new(alloc, moves.width);
        let limits = limits_of(&moves);
        let sketch = Sketch {
            moves,
            choices,
            nodes,
            edges: Edges::new(alloc),
            scratch,
            limits,
            work: 0,
        };
        Ok(Box::new(alloc, sketch)?)
    }

    /// Adds a rule after the others.
    pub fn add_rule(&mut self, cond: &Cube, act: u32) -> Result<(), NoMemory> {
        self.choices.add(cond, act)?;
        self.nodes.add_rule()
    }

    /// The number of rules.
    pub fn rules(&self) -> u32 {
        self.choices.len()
    }

    /// The number of nodes. The first one has the initial state, once the sketch has begun.
    pub fn len(&self) -> u32 {
        self.nodes.len()
    }

    /// Whether there was too much to do.
    fn is_spent(&self) -> bool {
        let looked = self.choices.work().saturating_add(self.nodes.work());
        self.choices.len() > self.limits.rules
            || self.nodes.len() > NODES
            || self.nodes.size() > WORDS
            || self.work.saturating_add(looked) > self.limits.work
    }

    /// The rule of the next state, `GOAL` if it is a goal, or `NONE` if it has none.
    fn rule_of_next(&self, t: &Task) -> u32 {
        if is_true(&t.goal, &self.scratch.next) {
            return GOAL;
        }
        self.choices.first(&self.scratch.next)
    }

    /// Makes known what the rule needs to be the first that holds in the next state, or why that is a goal.
    fn know(&mut self, t: &Task, rule: u32) -> Result<(), NoMemory> {
        let Scratch { next, known, .. } = &mut self.scratch;
        if rule == GOAL {
            explain(&t.goal, true, next, known);
            return Ok(());
        }
        self.choices.know_first(rule, next, known)
    }

    /// Adds a node of this rule for the next state.
    fn add_node(&mut self, t: &Task, rule: u32) -> Result<u32, NoMemory> {
        self.scratch.forget();
        self.know(t, rule)?;
        let first = self.edges.len();
        let node = self
            .nodes
            .add(rule, first, &self.scratch.next, &self.scratch.known)?;
        let count = self.outcomes(rule);
        self.edges.add(node, count)?;
        Ok(node)
    }

    /// How many outcomes the action of a rule has. Goals have none.
    fn outcomes(&self, rule: u32) -> u32 {
        if rule == GOAL {
            return 0;
        }
        self.moves.outcomes(self.choices.act(rule))
    }

    /// A node whose cube has the next state, or `NONE` if the state is no goal and no rule holds in it.
    fn node_of_next(&mut self, t: &Task) -> Result<u32, NoMemory> {
        let rule = self.rule_of_next(t);
        if rule == NONE {
            return Ok(NONE);
        }
        let node = self.nodes.find(rule, &self.scratch.next);
        if node != NONE {
            return Ok(node);
        }
        self.add_node(t, rule)
    }

    /// Makes a node of the initial state the first one. Returns false if it is no goal and no rule holds in it.
    pub fn begin(&mut self, t: &Task) -> Result<bool, NoMemory> {
        read(&mut self.scratch.next, &t.init);
        Ok(self.node_of_next(t)? != NONE)
    }

    /// The next edge to look at, if one waits.
    pub fn next(&mut self) -> Option<Edge> {
        let number = self.edges.next()?;
        let node = self.edges.owner(number);
        let outcome = number.saturating_sub(self.nodes.first_edge(node));
        Some(Edge {
            number,
            node,
            outcome,
        })
    }

    /// The step of an edge.
    fn step(&self, edge: Edge) -> PlanStep {
        PlanStep {
            act: self.choices.act(self.nodes.rule(edge.node)),
            outcome: edge.outcome,
        }
    }

    /// The node into which the edge leads, which has the next state; if need be, it leads into another one from now on.
    fn child_of(&mut self, t: &Task, edge: u32) -> Result<u32, NoMemory> {
        let child = self.edges.child(edge);
        if child != NONE && self.nodes.holds(child, &self.scratch.next) {
            return Ok(child);
        }
        let node = self.node_of_next(t)?;
        if node != NONE {
            self.edges.link(edge, node)?;
        }
        Ok(node)
    }

    /// Adds to the cube of a node what an outcome needs so that it leads into the cube of the child. If the cube grew, the edges
    /// into the node wait.
    fn ask(&mut self, outcome: &Outcome, node: u32, child: u32) -> Result<(), NoMemory> {
        let Scratch {
            state,
            next,
            known,
            asked,
            touched,
        } = &mut self.scratch;
        copy_words(known, self.nodes.known(node));
        copy_words(asked, self.nodes.known(child));
        regress(outcome, state, next, asked, touched, known);
        if self.nodes.set_known(node, known) {
            self.edges.wake(node, &self.nodes)?;
        }
        Ok(())
    }

    /// Looks at an edge: it leads into a node whose cube has the next state, and the cube that it comes from asks for what it
    /// needs.
    pub fn look(&mut self, t: &Task, edge: Edge) -> Result<Looked, NoMemory> {
        self.work = self.work.saturating_add(self.moves.width as u64);
        if self.is_spent() {
            return Ok(Looked::Spent);
        }
        let Edge { number, node, .. } = edge;
        let step = self.step(edge);
        copy_words(&mut self.scratch.state, self.nodes.state(node));
        self.moves
            .apply(step, &self.scratch.state, &mut self.scratch.next);
        let child = self.child_of(t, number)?;
        if child == NONE {
            return Ok(Looked::Open);
        }
        if let Some(outcome) = outcome_of(t, step) {
            self.ask(outcome, node, child)?;
        }
        Ok(Looked::Done)
    }

    /// The numbers of the nodes that are reached from the first one, breadth first and by outcomes. The second vector has
    /// the place of each among these.
    fn order(&self, alloc: Global) -> Result<(Vec<u32>, Vec<u32>), NoMemory> {
        let mut order = Vec::new(alloc);
        let mut places = vec![in alloc; NONE; self.nodes.len() as usize]?;
        order.push(0)?;
        put(&mut places, 0, 0);
        for i in 0..self.nodes.len() as usize {
            let Some(node) = order.get(i).copied() else {
                return Ok((order, places));
            };
            self.add_children(node, &mut order, &mut places)?;
        }
        Ok((order, places))
    }

    /// Adds the nodes into which a node leads to those that are reached.
    fn add_children(
        &self,
        node: u32,
        order: &mut Vec<u32>,
        places: &mut [u32],
    ) -> Result<(), NoMemory> {
        let first = self.nodes.first_edge(node);
        for i in 0..self.outcomes(self.nodes.rule(node)) {
            let child = self.edges.child(first.saturating_add(i));
            if child != NONE && link_at(places, child) == NONE {
                put(places, child, size(order.len()));
                order.push(child)?;
            }
        }
        Ok(())
    }

    /// The numbers of the items into which a node leads.
    fn numbers(&self, alloc: Global, node: u32, places: &[u32]) -> Result<ItemNumbers, NoMemory> {
        let mut numbers = List::new(alloc);
        let first = self.nodes.first_edge(node);
        for i in 0..self.outcomes(self.nodes.rule(node)) {
            let child = self.edges.child(first.saturating_add(i));
            numbers.push(link_at(places, child))?;
        }
        Ok(numbers)
    }

    /// The item of a node.
    fn item(&self, alloc: Global, node: u32, places: &[u32]) -> Result<Item, NoMemory> {
        let state = self.nodes.state(node);
        let cube = cube_of(alloc, state, self.nodes.known(node), self.moves.atoms)?;
        let rule = self.nodes.rule(node);
        if rule == GOAL {
            return Ok(Item {
                cube,
                way: Way::Goal,
            });
        }
        let items = self.numbers(alloc, node, places)?;
        Ok(Item {
            cube,
            way: Way::Rule { rule, items },
        })
    }

    /// The items of the nodes that are reached from the first one, breadth first and by outcomes, or nothing if there are too
    /// many.
    pub fn items(&self, alloc: Global) -> Result<Option<Items>, NoMemory> {
        let (order, places) = self.order(alloc)?;
        let mut items = Items::new(alloc);
        for node in &order {
            if items.len() == u32::MAX {
                return Ok(None);
            }
            items.push(self.item(alloc, *node, &places)?)?;
        }
        Ok(Some(items))
    }
}

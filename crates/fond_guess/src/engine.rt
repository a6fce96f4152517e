//! The engine: what others call.

use crate::aim::Aim;
use crate::begun::Begun;
use crate::known::Known;
use crate::search::{Ended, Limits, Search};
use fond_deadends::cubes::{Masks, masks_of};
use fond_deadends::dead::Prover;
use fond_deadends::layers::{LayerSearch, Limits as LayerLimits, Stage};
use fond_deadends::project::Projector;
use fond_moves::index::{clear_words, copy_words, put_bit, size};
use fond_moves::moves::Moves;
use fond_moves::part::Part;
use fond_state::cube::Cube;
use fond_state::state::State;
use fond_task::hint::{Hint, LayerHint};
use fond_task::plan_step::PlanStep;
use fond_task::shared::Shared;
use fond_task::task::Task;
use fond_text::fault::NoMemory;
use fond_text::list::List;
use std::alloc::Global;

/// The most states of a search with a local aim.
const LOCAL_STATES: u32 = 300;

/// If a search may expand fewer states than this, the projector looks at no more cubes, so that a budget too small stays one.
const FEW_STATES: u32 = 1_000;

/// What a search for layers may do before the projector, and how much more if it goes well.
const FIRST_WORK: u64 = 500_000;

const LONG_WORK: u64 = 20_000_000;

/// A search for layers goes well if it found so many cubes already, or if it spent its work on so few.
const SEVERAL: u32 = 4;

const FEW_CUBES: u32 = 2;

/// The most states that a search for layers visits, and the most of one that may do more work than this.
const LAYER_STATES: u32 = 4_000;

const MANY_LAYER_STATES: u32 = 1 << 15;

const MUCH_WORK: u64 = 1_000_000_000;

/// What the projector may do whatever else was done.
const BANK: u64 = 8_000_000;

/// A searching engine.
#[derive(Drop)]
pub struct Engine {
    known: Box<Known>,
    search: Box<Search>,
    prover: Box<Prover>,
    layers: Box<LayerSearch>,
    projector: Box<Projector>,
    aim: Box<Aim>,
    /// The search for a plan and the one for layers that can go on.
    sought: Begun,
    layered: Begun,
    /// What the projector may do for the state around which layers are sought, and how many cubes it may look at.
    share: u64,
    most: u32,
    /// What the search for layers may do after the projector, and how many cubes it found.
    rest: u64,
    found: u32,
    /// Whether the last projection found nothing.
    is_fruitless: bool,
    /// What searches for layers may do beyond what they are allowed.
    spare: u64,
    /// The state and the cube that were read last.
    start: Vec<u64>,
    cube: Part,
}

/// Makes the partial state that of a cube.
fn read_cube(part: &mut Part, cube: &Cube) {
    part.clear();
    for atom in 0..size(cube.len()) {
        part.set(atom, cube.literal(atom));
    }
}

/// Makes the words those of a state.
fn read(words: &mut [u64], state: &State) {
    clear_words(words);
    for atom in 0..state.len() as u32 {
        if state.get(atom) {
            put_bit(words, atom, true);
        }
    }
}

/// The cube of a partial state over this many atoms.
fn cube_of(alloc: Global, part: &Part, atoms: u32) -> Result<Cube, NoMemory> {
    let mut cube = Cube::new(alloc, atoms)?;
    for atom in 0..atoms {
        if let Some(sign) = part.literal(atom) {
            if (atom as usize) < cube.len() {
                cube.put_literal(atom, sign);
            }
        }
    }
    Ok(cube)
}

impl Engine {
    /// An engine for a task with these moves. Takes time and memory in the size of the task.
    pub fn new(alloc: Global, t: &Task, moves: Shared<Moves>) -> Result<Engine, NoMemory> {
        let known = Known::new(alloc, t, moves)?;
        let width = known.moves.width;
        let search = Search::new(alloc, &known)?;
        let prover = Prover::new(alloc, width)?;
        let layers = LayerSearch::new(alloc, &known.facts())?;
        let projector = Projector::new(alloc, known.moves.atoms, width)?;
        let aim = Aim::new(alloc, width)?;
        let sought = Begun::new(alloc, width)?;
        let layered = Begun::new(alloc, width)?;
        let start = vec![in alloc; 0; width as usize]?;
        let cube = Part::new(alloc, width)?;
        Ok(Engine {
            known,
            search,
            prover,
            layers,
            projector,
            aim,
            sought,
            layered,
            share: 0,
            most: 0,
            rest: 0,
            found: 0,
            is_fruitless: false,
            spare: LONG_WORK,
            start,
            cube,
        })
    }

    /// The literals of a cube.
    fn masks(&mut self, cube: &Cube) -> Result<Masks, NoMemory> {
        read_cube(&mut self.cube, cube);
        masks_of(*self.start.allocator(), &self.cube)
    }

    /// Drops all rules and pairs, and the aim. Dead cubes and responses stay.
    pub fn forget_rules(&mut self) {
        self.sought.close();
        self.known.forget_rules();
        self.aim.forget();
    }

    /// A rule with this condition holds from now on.
    pub fn add_rule(&mut self, cond: &Cube) -> Result<(), NoMemory> {
        let masks = self.masks(cond)?;
        self.sought.close();
        self.known.add_rule(masks)
    }

    /// The rule that was added last has the one of this number as a target.
    pub fn add_target(&mut self, rule: u32) -> Result<(), NoMemory> {
        self.known.add_target(rule)
    }

    /// An action leads from the state to the one from which the next search begins: searches from there aim at the first rule
    /// that holds in the state, and at its targets, before they aim at the goal.
    pub fn leave(&mut self, state: &State) {
        read(&mut self.start, state);
        self.aim.leave(&self.start);
    }

    /// The action is barred from now on in the states of the cube.
    pub fn add_pair(&mut self, act: u32, cond: &Cube) -> Result<(), NoMemory> {
        let masks = self.masks(cond)?;
        self.sought.close();
        self.known.bars.add(act, masks)
    }

    /// The states of the cube are dead from now on.
    pub fn add_dead(&mut self, cube: &Cube) -> Result<(), NoMemory> {
        let masks = self.masks(cube)?;
        self.sought.close();
        self.known.kill(masks)
    }

    /// From now on, searches go on in this outcome of the unfair action in the state.
    pub fn respond(&mut self, state: &State, act: u32, outcome: u32) -> Result<(), NoMemory> {
        read(&mut self.start, state);
        self.sought.close();
        self.known.responses.set(act, &self.start, outcome)
    }

    /// The work done by all searches so far: updates of the relaxation, entries of the queues, and looks at actions for dead cubes.
    pub fn work(&self) -> u64 {
        self.search
            .work()
            .saturating_add(self.prover.work)
            .saturating_add(self.layers.work())
            .saturating_add(self.projector.work())
    }

    /// What the projector may do, of this work: a part of it, and not much more than it may have done by now.
    fn share_of(&self, work: u64) -> u64 {
        let done = self.projector.work();
        let others = self.work().saturating_sub(done);
        let bank = BANK.saturating_add(others / 2).saturating_sub(done);
        (work / 4).min(bank / 2)
    }

    /// The limits of a search for layers at first: it stops early for the projector.
    fn limits_of(&mut self, states: u32, work: u64) -> LayerLimits {
        let first = work.min(FIRST_WORK);
        self.share = self.share_of(work);
        self.most = if states < FEW_STATES {
            states
        } else {
            u32::MAX
        };
        self.rest = work.saturating_sub(first);
        let visited = if work > MUCH_WORK {
            MANY_LAYER_STATES
        } else {
            LAYER_STATES
        };
        LayerLimits {
            states: states.min(visited),
            work: first,
        }
    }

    /// Searches with the local aim, if the state has one. Returns whether a plan was found.
    fn run_near(&mut self, states: u32, work: u64) -> Result<bool, NoMemory> {
        if !self.aim.enter(&self.start) || !self.known.aim_around(&self.aim.left)? {
            return Ok(false);
        }
        let limits = Limits {
            states: states.min(LOCAL_STATES),
            work: work / 2,
            counts: false,
        };
        let found = self.search.begin(&self.known, &self.start)?
            || self.search.run(&mut self.known, &self.start, limits)? == Ended::Found;
        self.known.net.drop_aims();
        Ok(found)
    }

    /// Searches with the local aim, and if that finds no plan, begins to search for the goal. Returns whether a plan was found.
    fn begin_all(&mut self, states: u32, work: u64) -> Result<bool, NoMemory> {
        self.sought.close();
        if self.run_near(states, work)? {
            return Ok(true);
        }
        self.search.begin(&self.known, &self.start)
    }

    /// Searches for a plan: goes on with the search from the state that ran out of work, or begins a new one.
    fn run_all(&mut self, states: u32, work: u64) -> Result<Ended, NoMemory> {
        let begun = self.search.work();
        if !self.sought.is_from(&self.start) && self.begin_all(states, work)? {
            return Ok(Ended::Found);
        }
        let done = self.search.work().saturating_sub(begun);
        let limits = Limits {
            states,
            work: work.saturating_sub(done),
            counts: true,
        };
        let ended = self.search.run(&mut self.known, &self.start, limits)?;
        if ended == Ended::Spent {
            self.sought.open(&self.start);
        } else {
            self.sought.close();
        }
        Ok(ended)
    }

    /// The steps of the plan that was found, the first one first.
    fn found_steps(&self, alloc: Global) -> Result<List<PlanStep>, NoMemory> {
        let mut back = self.search.plan(alloc, &self.known)?;
        let mut steps = List::new(alloc);
        for _ in 0..back.len() {
            if let Some(step) = back.pop() {
                steps.push(step)?;
            }
        }
        Ok(steps)
    }

    /// Steps from a state to a goal or to a state in which a rule holds; at an unfair action they go on in the response.
    /// Opens at most `states` states, and does not much more than `work` work.
    pub fn plan(
        &mut self,
        alloc: Global,
        from: &State,
        states: u32,
        work: u64,
    ) -> Result<Hint, NoMemory> {
        read(&mut self.start, from);
        match self.run_all(states, work)? {
            Ended::Found => Ok(Hint::Steps(self.found_steps(alloc)?)),
            Ended::Nothing => Ok(Hint::DeadEnd),
            Ended::Spent => Ok(Hint::Spent),
        }
    }

    /// A cube around the state that is dead by the dead cubes so far, if one is found: the goal is false on it, and each
    /// action that may apply on it leads into a dead cube by some outcome; or is fair, and leads back into the cube by all of
    /// them; or is unfair, and leads back into it by some.
    pub fn dead_cube(&mut self, alloc: Global, state: &State) -> Result<Option<Cube>, NoMemory> {
        read(&mut self.start, state);
        if !self.prover.find(&self.known.facts(), &self.start)? {
            return Ok(None);
        }
        Ok(Some(cube_of(alloc, &self.prover.best, self.known.moves.atoms)?))
    }

    /// Begins to look for layers around the state that was read last, or goes on with the search around it that ran out of work.
    fn look_around(&mut self, states: u32, work: u64) -> Result<(), NoMemory> {
        let limits = self.limits_of(states, work);
        if self.layered.is_from(&self.start) && self.layers.is_spent() {
            self.layers.go_on(limits);
            return Ok(());
        }
        self.layered.open(&self.start);
        self.found = 0;
        self.layers.begin(&self.known.facts(), &self.start, limits)
    }

    /// Begins to look for layers around a state. Visits at most `states` states, and does not much more than `work` work.
    pub fn begin_layers(&mut self, state: &State, states: u32, work: u64) -> Result<(), NoMemory> {
        read(&mut self.start, state);
        self.look_around(states, work)
    }

    /// Begins to look for layers around the state of a full cube, with these limits.
    pub fn begin_layers_in(&mut self, cube: &Cube, states: u32, work: u64) -> Result<(), NoMemory> {
        read_cube(&mut self.cube, cube);
        copy_words(&mut self.start, &self.cube.value);
        self.look_around(states, work)
    }

    /// Knows of no lost state any more.
    pub fn forget_lost(&mut self) -> Result<(), NoMemory> {
        self.layered.close();
        self.layers.forget_lost()
    }

    /// The state of a full cube is known to be lost. If any are, the opponent's responses are sought among these states.
    pub fn add_lost(&mut self, cube: &Cube) -> Result<(), NoMemory> {
        read_cube(&mut self.cube, cube);
        self.layered.close();
        self.layers.add_lost(&self.cube.value)
    }

    /// The next layer, given the dead cubes so far: cubes that no action surely leaves. The last one has the state around which it
    /// was to be. A short search for layers comes first, which finds small ones, and a longer one if it goes well; then a projection, and
    /// then the rest of the search.
    pub fn next_layer(&mut self, alloc: Global) -> Result<LayerHint, NoMemory> {
        if self.known.dead.holds(&self.start) {
            return Ok(LayerHint::Found);
        }
        let mut stage = self.search_layers()?;
        if stage == Stage::Failed {
            match self.project_if_due(alloc)? {
                Stage::Cube => return self.hint_of_part(alloc, &self.prover.best),
                Stage::Layer => return self.hint_of_projection(alloc),
                Stage::Open | Stage::Failed => {}
            }
            stage = self.run_layers(self.rest)?;
            self.rest = 0;
        }
        match stage {
            Stage::Cube => self.hint_of_part(alloc, self.layers.dead_cube()),
            Stage::Layer => self.hint_of_nodes(alloc),
            Stage::Open | Stage::Failed => Ok(LayerHint::Nothing),
        }
    }

    /// Goes on with the search for layers, which may do this much more.
    fn run_layers(&mut self, work: u64) -> Result<Stage, NoMemory> {
        self.layers.allow(work);
        let stage = self.layers.run(&self.known.facts())?;
        if stage == Stage::Cube {
            self.found = self.found.saturating_add(1);
        }
        Ok(stage)
    }

    /// Whether the cubes of a search may become as large as they get before much work is done: a cube grows by an atom at a time,
    /// and then each action is looked at again.
    fn may_grow(&self) -> bool {
        let looks = self.known.moves.acts.len() as u64;
        looks.saturating_mul(self.known.moves.atoms as u64) <= LONG_WORK / 8
    }

    /// What a search for layers that ran out of work may do more before the projector: nothing, unless it goes well.
    fn long_work(&mut self) -> u64 {
        let is_slow = self.layers.len() <= FEW_CUBES && self.may_grow();
        if !self.layers.is_spent() || !(is_slow || self.found >= SEVERAL) {
            return 0;
        }
        let spare = self.spare;
        self.spare = 0;
        spare.max(self.rest.min(LONG_WORK))
    }

    /// Searches for layers before the projector does.
    fn search_layers(&mut self) -> Result<Stage, NoMemory> {
        let stage = self.run_layers(0)?;
        if stage != Stage::Failed {
            return Ok(stage);
        }
        let work = self.long_work();
        if work == 0 {
            return Ok(Stage::Failed);
        }
        self.rest = self.rest.saturating_sub(work);
        self.run_layers(work)
    }

    /// Looks for a layer over few atoms, unless that found nothing the last time and the search for layers goes well.
    fn project_if_due(&mut self, alloc: Global) -> Result<Stage, NoMemory> {
        let goes_well = self.found >= SEVERAL && self.layers.is_spent();
        if self.is_fruitless && goes_well && self.rest < MUCH_WORK {
            return Ok(Stage::Failed);
        }
        self.project(alloc)
    }

    /// Looks for a layer over few atoms.
    fn project(&mut self, alloc: Global) -> Result<Stage, NoMemory> {
        if self.share == 0 {
            return Ok(Stage::Failed);
        }
        let before = self.work();
        let stage = self.projector.find(
            alloc,
            &self.known.facts(),
            &mut self.prover,
            &self.start,
            self.most,
            self.share,
        )?;
        let done = self.work().saturating_sub(before);
        self.share = if stage == Stage::Cube {
            self.share.saturating_sub(done)
        } else {
            0
        };
        self.is_fruitless = stage != Stage::Cube && stage != Stage::Layer;
        if !self.is_fruitless {
            self.layered.close();
        }
        Ok(stage)
    }

    /// The cubes over few atoms.
    fn hint_of_projection(&mut self, alloc: Global) -> Result<LayerHint, NoMemory> {
        let mut layer = List::new(alloc);
        self.cube.clear();
        for number in 0..self.projector.len() {
            self.projector.load(number, &mut self.cube);
            layer.push(cube_of(alloc, &self.cube, self.known.moves.atoms)?)?;
        }
        Ok(LayerHint::Layer(layer))
    }

    /// A cube that is dead by itself, as a layer.
    fn hint_of_part(&self, alloc: Global, part: &Part) -> Result<LayerHint, NoMemory> {
        let mut layer = List::new(alloc);
        layer.push(cube_of(alloc, part, self.known.moves.atoms)?)?;
        Ok(LayerHint::Layer(layer))
    }

    /// The cubes of the nodes, but for those that lie in others.
    fn hint_of_nodes(&mut self, alloc: Global) -> Result<LayerHint, NoMemory> {
        let mut layer = List::new(alloc);
        for node in 0..self.layers.len() {
            if self.layers.load(node, &mut self.cube) {
                layer.push(cube_of(alloc, &self.cube, self.known.moves.atoms)?)?;
            }
        }
        Ok(LayerHint::Layer(layer))
    }
}

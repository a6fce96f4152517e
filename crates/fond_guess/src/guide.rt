//! The searching engine as a source of hints: it is told what is new in a draft before it is asked.

use crate::engine::Engine;
use fond_draft::draft::Draft;
use fond_draft::source::{Effort, Source};
use fond_layers::layers::{Layer, Layers};
use fond_moves::moves::Moves;
use fond_state::cube::Cube;
use fond_state::state::State;
use fond_task::hint::{Hint, LayerHint};
use fond_task::rule::{Target, Targets};
use fond_task::shared::Shared;
use fond_task::task::Task;
use fond_text::fault::NoMemory;
use std::alloc::Global;

/// How many of a draft's rules, pairs and layers the engine was told.
#[derive(Clone, Copy)]
struct Told {
    rules: u32,
    pairs: u64,
    layers: u32,
}

/// The engine, once it is needed, what it was told, and what its searches may still do.
#[derive(Drop)]
pub struct Guide {
    engine: Option<Engine>,
    told: Told,
    effort: Effort,
}

/// Tells a target of the rule that was told last.
fn tell_target(engine: &mut Engine, target: Target) -> Result<(), NoMemory> {
    match target {
        Target::Goal => Ok(()),
        Target::Rule(number) => engine.add_target(number),
    }
}

/// Tells the targets of the rule that was told last.
fn tell_targets(engine: &mut Engine, targets: &Targets) -> Result<(), NoMemory> {
    match targets {
        Targets::One { outcome: _, target } => tell_target(engine, *target),
        Targets::All(list) => {
            for target in list {
                tell_target(engine, *target)?;
            }
            Ok(())
        }
    }
}

/// Tells the rules from this number on.
fn tell_rules(engine: &mut Engine, draft: &Draft, from: u32) -> Result<(), NoMemory> {
    for number in from..draft.rules.len() {
        let rule = draft.rules.get(number);
        engine.add_rule(&rule.cond)?;
        tell_targets(engine, &rule.targets)?;
    }
    Ok(())
}

/// Tells the pairs from this number on.
fn tell_pairs(engine: &mut Engine, draft: &Draft, from: u64) -> Result<(), NoMemory> {
    for number in from..draft.pairs.len() {
        let pair = draft.pairs.get(number);
        engine.add_pair(pair.act, &pair.cond)?;
    }
    Ok(())
}

/// Tells the cubes of a layer.
fn tell_layer(engine: &mut Engine, layer: &Layer) -> Result<(), NoMemory> {
    for cube in layer {
        engine.add_dead(cube)?;
    }
    Ok(())
}

/// Tells the layers from this number on.
fn tell_layers(engine: &mut Engine, draft: &Draft, from: u32) -> Result<(), NoMemory> {
    for number in from..draft.layers.len() {
        tell_layer(engine, draft.layers.get(number))?;
    }
    Ok(())
}

/// Tells what is new in the draft. Returns what was told by then.
fn tell(engine: &mut Engine, draft: &Draft, told: Told) -> Result<Told, NoMemory> {
    tell_rules(engine, draft, told.rules)?;
    tell_pairs(engine, draft, told.pairs)?;
    tell_layers(engine, draft, told.layers)?;
    Ok(Told {
        rules: draft.rules.len(),
        pairs: draft.pairs.len(),
        layers: draft.layers.len(),
    })
}

/// The states of the full cubes of a layer are known to be lost.
fn add_lost(engine: &mut Engine, layer: &Layer) -> Result<(), NoMemory> {
    for cube in layer {
        engine.add_lost(cube)?;
    }
    Ok(())
}

impl Source for Guide {
    /// A guide without an engine. It takes no memory.
    fn new() -> Guide {
        Guide {
            engine: None,
            told: Told {
                rules: 0,
                pairs: 0,
                layers: 0,
            },
            effort: Effort {
                states: 0,
                work: 0,
                layers: 0,
            },
        }
    }

    /// Makes the engine, if there is none, and lets the next searches do this much.
    fn allow(
        &mut self,
        alloc: Global,
        t: &Task,
        moves: &Shared<Moves>,
        effort: Effort,
    ) -> Result<(), NoMemory> {
        if self.engine.is_none() {
            self.engine = Some(Engine::new(alloc, t, moves.share()?)?);
        }
        self.effort = effort;
        Ok(())
    }

    /// Forgets the rules and the pairs.
    fn forget_rules(&mut self) {
        if let Some(engine) = &mut self.engine {
            engine.forget_rules();
        }
        self.told.rules = 0;
        self.told.pairs = 0;
    }

    /// Steps from the state to a goal or to a state in which a rule of the draft holds, if the engine finds some.
    fn plan(&mut self, alloc: Global, draft: &Draft, from: &State) -> Result<Hint, NoMemory> {
        let Some(engine) = &mut self.engine else {
            return Ok(Hint::Spent);
        };
        self.told = tell(engine, draft, self.told)?;
        let before = engine.work();
        let hint = engine.plan(alloc, from, self.effort.states, self.effort.work)?;
        let done = engine.work().saturating_sub(before);
        self.effort.work = self.effort.work.saturating_sub(done);
        Ok(hint)
    }

    /// An action leads from the state to the one from which the next search begins.
    fn leave(&mut self, state: &State) {
        if let Some(engine) = &mut self.engine {
            engine.leave(state);
        }
    }

    /// Searches go on in this outcome of the unfair action from now on.
    fn respond(&mut self, state: &State, act: u32, outcome: u32) -> Result<(), NoMemory> {
        match &mut self.engine {
            Some(engine) => engine.respond(state, act, outcome),
            None => Ok(()),
        }
    }

    /// A cube around the state from which no goal may be reachable, if the engine finds one.
    fn dead_cube(
        &mut self,
        alloc: Global,
        draft: &Draft,
        state: &State,
    ) -> Result<Option<Cube>, NoMemory> {
        let Some(engine) = &mut self.engine else {
            return Ok(None);
        };
        self.told = tell(engine, draft, self.told)?;
        engine.dead_cube(alloc, state)
    }

    /// Begins to look for layers around a state.
    fn begin_layers(&mut self, draft: &Draft, state: &State) -> Result<(), NoMemory> {
        let Some(engine) = &mut self.engine else {
            return Ok(());
        };
        self.told = tell(engine, draft, self.told)?;
        engine.begin_layers(state, self.effort.states, self.effort.layers)
    }

    /// Begins to look for layers around the state of a full cube.
    fn begin_layers_in(&mut self, draft: &Draft, cube: &Cube) -> Result<(), NoMemory> {
        let Some(engine) = &mut self.engine else {
            return Ok(());
        };
        self.told = tell(engine, draft, self.told)?;
        engine.begin_layers_in(cube, self.effort.states, self.effort.layers)
    }

    /// The next layer, if the engine finds one. What it takes is no more there for further ones.
    fn next_layer(&mut self, alloc: Global, draft: &Draft) -> Result<LayerHint, NoMemory> {
        let Some(engine) = &mut self.engine else {
            return Ok(LayerHint::Nothing);
        };
        self.told = tell(engine, draft, self.told)?;
        let before = engine.work();
        let hint = engine.next_layer(alloc)?;
        let done = engine.work().saturating_sub(before);
        self.effort.layers = self.effort.layers.saturating_sub(done);
        Ok(hint)
    }

    /// The states of the full cubes of these layers are known to be lost, and no others.
    fn know_lost(&mut self, layers: &Layers) -> Result<(), NoMemory> {
        let Some(engine) = &mut self.engine else {
            return Ok(());
        };
        engine.forget_lost()?;
        for number in 0..layers.len() {
            add_lost(engine, layers.get(number))?;
        }
        Ok(())
    }

    /// No state is known to be lost any more.
    fn forget_lost(&mut self) -> Result<(), NoMemory> {
        match &mut self.engine {
            Some(engine) => engine.forget_lost(),
            None => Ok(()),
        }
    }
}

//! The cubes of far lists that are needed for the sake of one state, from the last list to the first. A cube needs cubes of the list
//! before it, into which actions lead. Where several would do, it is one that another cube needs already, or else the widest one, with the
//! fewest literals, which is the likeliest to serve others as well.

use crate::board::Board;
use crate::pad::Pad;
use crate::pile::Pile;
use fond_deadends::cubes::CubeSet;
use fond_moves::effect::Effect;
use fond_moves::index::{NONE, size};
use fond_moves::moves::Move;
use fond_task::form::Kleene;
use fond_text::fault::NoMemory;
use std::alloc::Global;

/// The task and its layers, by which a cube needs others, and the cube that is looked at.
#[derive(Drop)]
pub(crate) struct Needed<'a> {
    board: &'a Board,
    /// The cubes of the layers.
    dead: &'a CubeSet,
    pad: Box<Pad>,
    /// Whether an action leads from a needed cube into a layer.
    pub(crate) uses_layers: bool,
}

impl<'a> Needed<'a> {
    /// No cube was looked at.
    pub(crate) fn new(
        alloc: Global,
        board: &'a Board,
        dead: &'a CubeSet,
    ) -> Result<Needed<'a>, NoMemory> {
        Ok(Needed {
            board,
            dead,
            pad: Pad::new(alloc, board.moves.atoms, board.moves.width)?,
            uses_layers: false,
        })
    }

    /// Whether an outcome leads from the cube into a layer.
    fn leads_into_layer(&mut self, effects: &[Effect]) -> bool {
        for effect in effects {
            self.pad.enter(effect);
            if self.dead.cover(&self.pad.image).is_some() {
                return true;
            }
        }
        false
    }

    /// Whether an outcome leads from the cube into one of some cubes.
    fn leads_into(&mut self, cubes: &Pile, effects: &[Effect]) -> bool {
        for effect in effects {
            self.pad.enter(effect);
            if cubes.covers(&self.pad.image) {
                return true;
            }
        }
        false
    }

    /// Adds the widest cube into which an outcome leads, unless it leads into one that is there. Returns whether it leads into one.
    fn add_next(
        &mut self,
        alloc: Global,
        effect: &Effect,
        from: &Pile,
        into: &mut Pile,
    ) -> Result<bool, NoMemory> {
        self.pad.enter(effect);
        if into.covers(&self.pad.image) {
            return Ok(true);
        }
        let cube = from.first_cover(&self.pad.image);
        if cube == NONE {
            return Ok(false);
        }
        let moves = &self.board.moves;
        from.add_copy(alloc, moves.atoms, moves.width, cube, into)?;
        Ok(true)
    }

    /// Adds cubes into which each outcome of an action leads, or one of them if an opponent picks.
    fn add_nexts(
        &mut self,
        alloc: Global,
        act: &Move,
        from: &Pile,
        into: &mut Pile,
    ) -> Result<(), NoMemory> {
        if act.unfair && self.leads_into(into, act.effects.as_slice()) {
            return Ok(());
        }
        for effect in act.effects.iter() {
            if self.add_next(alloc, effect, from, into)? && act.unfair {
                return Ok(());
            }
        }
        Ok(())
    }

    /// Adds what the cube needs for an action to do no harm on it: nothing if the action is not applicable or leads into a layer.
    fn add_for(
        &mut self,
        alloc: Global,
        act: &Move,
        from: &Pile,
        into: &mut Pile,
    ) -> Result<(), NoMemory> {
        if matches!(act.needs.value(&self.pad.part), Kleene::No) {
            return Ok(());
        }
        if self.leads_into_layer(act.effects.as_slice()) {
            self.uses_layers = true;
            return Ok(());
        }
        self.add_nexts(alloc, act, from, into)
    }

    /// Adds the cubes of a list that a cube of the list after it needs.
    fn add_all(
        &mut self,
        alloc: Global,
        cube: u32,
        list: &Pile,
        from: &Pile,
        into: &mut Pile,
    ) -> Result<(), NoMemory> {
        let board = self.board;
        self.pad.begin(&[], list.masks(cube));
        for act in &board.moves.acts {
            self.add_for(alloc, act, from, into)?;
        }
        Ok(())
    }

    /// The cubes of the list `before` that the cubes of the list after it need.
    fn before(&mut self, alloc: Global, list: &Pile, before: &Pile) -> Result<Pile, NoMemory> {
        let moves = &self.board.moves;
        let from = before.widest_first(alloc, moves.atoms, moves.width)?;
        let mut into = Pile::new(alloc);
        for cube in 0..list.len() {
            self.add_all(alloc, cube, list, &from, &mut into)?;
        }
        Ok(into)
    }

    /// The widest cube of a list in which a state lies.
    fn last(&self, alloc: Global, list: &Pile, state: &[u64]) -> Result<Pile, NoMemory> {
        let moves = &self.board.moves;
        let from = list.widest_first(alloc, moves.atoms, moves.width)?;
        let mut into = Pile::new(alloc);
        from.add_copy(alloc, moves.atoms, moves.width, from.find(state), &mut into)?;
        Ok(into)
    }

    /// The needed cubes of lists in whose last one a state lies, from that one to the first. A list is dropped once it was looked at.
    pub(crate) fn of(
        &mut self,
        alloc: Global,
        mut lists: Vec<Pile>,
        state: &[u64],
    ) -> Result<Vec<Pile>, NoMemory> {
        let mut needed: Vec<Pile> = Vec::new(alloc);
        for _ in 0..lists.len() {
            let Some(list) = lists.pop() else {
                return Ok(needed);
            };
            let next = match needed.last() {
                None => self.last(alloc, &list, state)?,
                Some(after) => self.before(alloc, after, &list)?,
            };
            needed.push(next)?;
        }
        Ok(needed)
    }
}

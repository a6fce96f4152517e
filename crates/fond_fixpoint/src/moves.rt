//! The moves of a graph, in flat lists.

ghost use Rattle.fond_fixpoint.specs.Moves.{Move, IsLike, move_at};
ghost use Rattle.std.specs.Bool.{Decides};
ghost use Rattle.std.specs.Prelude.{◌≡◌, ◌<◌, ◌^◌, List, [], ◌∷◌, ◌++◌, length, OnOk};

use fond_text::fault::NoMemory;
use std::alloc::Global;
use std::marker::Model;

/// The most moves, and the most targets of all moves. More count as memory that ran out.
const MOST: usize = 4_294_967_295;

/// A move without its targets, which are a range of the list of all targets.
#[derive(Clone, Copy)]
pub(crate) struct Head {
    pub(crate) source: u32,
    pub(crate) act: u32,
    pub(crate) begin: u32,
    pub(crate) end: u32,
    pub(crate) unfair: bool,
}

/// Fewer than 2^32 moves, each with an action that is taken in a node and the nodes to which its outcomes lead. A move
/// takes 20 bytes, and each target 4. Contracts see the list of the moves.
#[derive(Drop)]
pub struct Moves {
    heads: Vec<Head>,
    targets: Vec<u32>,
}

impl Model for Moves {
    ghost use Rattle.std.specs.Prelude.{List, map, ◌<◌, ◌^◌, All, length};
    ghost use Rattle.fond_fixpoint.specs.Moves.{Move};
    ghost use Rattle.fond_fixpoint.specs.Heads.{move_of, IsHead};

    ghost Value = { List Move };

    ghost view = { λ m. map (move_of m.targets.items) m.heads.items };

    ghost invariant = { λ m. (length m.heads.items < 2 ^ 32) × (length m.targets.items < 2 ^ 32) × All (IsHead (length m.targets.items)) m.heads.items };
}

impl Moves {
    /// No moves. It takes no memory until a move is added.
    pub fn new(alloc: Global) -> Moves
        ensures { result ≡ [] }
    {
        Moves {
            heads: Vec::new(alloc),
            targets: Vec::new(alloc),
        }
    }

    /// The number of moves.
    pub fn len(&self) -> u32
        ensures { result ≡ length self.now }
    {
        self.heads.len() as u32
    }

    /// The node in which the action of the move is taken.
    pub fn source(&self, number: u32) -> u32
        requires { number < length self.now }
        ensures { result ≡ (move_at self.now number).source }
    {
        self.heads[number as usize].source
    }

    /// The number of the move's action.
    pub fn act(&self, number: u32) -> u32
        requires { number < length self.now }
        ensures { result ≡ (move_at self.now number).act }
    {
        self.heads[number as usize].act
    }

    /// Whether an opponent picks the outcome of the move's action.
    pub fn is_unfair(&self, number: u32) -> bool
        requires { number < length self.now }
        ensures { result ≡ (move_at self.now number).unfair }
    {
        self.heads[number as usize].unfair
    }

    /// The nodes to which the outcomes of the move's action lead.
    pub fn targets(&self, number: u32) -> &[u32]
        requires { number < length self.now }
        ensures { result.now ≡ (move_at self.now number).targets }
    {
        let head = self.heads[number as usize];
        &self.targets[head.begin as usize..head.end as usize]
    }

    /// Whether there is a move of this number with this source, this fairness and these targets, whatever its action is.
    pub fn is_like(&self, number: u32, source: u32, unfair: bool, targets: &[u32]) -> bool
        ensures { Decides result (IsLike self.now number source unfair targets.now) }
    {
        number < self.len()
            && self.source(number) == source
            && self.is_unfair(number) == unfair
            && self.targets(number) == targets
    }

    /// Adds a move at the end.
    pub fn push(
        &mut self,
        source: u32,
        act: u32,
        unfair: bool,
        targets: &[u32],
    ) -> Result<(), NoMemory>
        ensures { OnOk result (self.new ≡ self.old ++ record { source = source; act = act; unfair = unfair; targets = targets.now } ∷ []) }
    {
        let begin = self.targets.len();
        if self.heads.len() >= MOST || targets.len() > MOST - begin {
            return Err(NoMemory);
        }
        self.targets.extend_from_slice(targets)?;
        self.heads.push(Head {
            source,
            act,
            begin: begin as u32,
            end: self.targets.len() as u32,
            unfair,
        })?;
        Ok(())
    }
}

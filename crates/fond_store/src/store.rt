//! Distinct states with numbers, found by a hash.

ghost use Rattle.fond_store.specs.Stores.{Adds};
ghost use Rattle.fond_text.specs.Lists.{AreDistinct};
ghost use Rattle.std.specs.Prelude.{◌≡◌, ◌<◌, ◌-◌, ◌^◌, [], length, slice_get, Some, Contains, IfOk, OnErr, MatchOption};

use fond_state::state::State;
use fond_text::fault::NoMemory;
use indexmap::IndexMap;
use std::alloc::Global;
use std::marker::Model;

/// Fewer than 2^32 distinct states, in the order in which they were added. Contracts see a store as the list of them.
#[derive(Drop)]
pub struct Store {
    states: IndexMap<State, ()>,
}

impl Model for Store {
    ghost use Rattle.std.specs.Prelude.{List, Bool, ◌<◌, ◌^◌, length};
    ghost use Rattle.indexmap.specs.IndexMap.{keys};

    ghost Value = { List (List Bool) };

    ghost view = { λ s. keys s.states };

    ghost invariant = { λ s. length s.states.entries < 2 ^ 32 };
}

impl Store {
    /// A store of no states. It takes no memory until a state is added.
    pub fn new(alloc: Global) -> Store
        ensures { result ≡ [] }
    {
        Store {
            states: IndexMap::new(alloc),
        }
    }

    /// Adds the state at the end, unless it is kept already, and returns its number. Takes time in the number of atoms.
    pub fn add(&mut self, s: State) -> Result<u32, NoMemory>
        requires { length self.old < 2 ^ 32 - 1 }
        ensures ok { IfOk result (λ n. Adds self.old s n self.new) }
        ensures err { OnErr result (self.new ≡ self.old) }
    {
        let (number, _) = self.states.insert_full(s, ())?;
        Ok(number as u32)
    }

    /// The number of the state, if it is kept. Takes time in the number of atoms.
    pub fn find(&self, s: &State) -> Option<u32>
        ensures { MatchOption result (¬ Contains self.now s.now) (λ n. slice_get self.now n ≡ Some s.now) }
    {
        Some(self.states.get_index_of(s)? as u32)
    }

    /// The state of this number.
    pub fn get(&self, i: u32) -> &State
        requires { i < length self.now }
        ensures { slice_get self.now i ≡ Some result.now }
    {
        let (state, _) = self.states.get_index(i as usize).unwrap();
        state
    }

    /// The number of states.
    pub fn len(&self) -> u32
        ensures counted { result ≡ length self.now }
        ensures distinct { AreDistinct self.now }
    {
        self.states.len() as u32
    }
}

//! Cubes in lists by actions.

ghost use Rattle.fond_rules.specs.Groups.{AreApart, cubes_of};
ghost use Rattle.std.specs.HashMap.{get};
ghost use Rattle.std.specs.Prelude.{◌≡◌, ℕ, Some, [], ◌∷◌, ◌++◌, nat_eq, if◌then◌else◌, MatchOption, IfOk, OnOk, OnErr};

use crate::ordered::Ordered;
use fond_state::cube::Cube;
use fond_text::fault::NoMemory;
use std::alloc::Global;
use std::collections::HashMap;

/// Cubes in lists by actions, each list with an index. A hash gives the number of the list of an action.
#[derive(Drop)]
pub(crate) struct Groups {
    lists: Vec<Ordered<Cube>>,
    numbers: HashMap<u32, usize>,
}

/// Adds the cube at the end of the list. A list of 2^32 - 1 cubes counts as one for which there is no memory.
fn put(list: &mut Ordered<Cube>, cube: Cube) -> Result<(), NoMemory>
    ensures ok { OnOk result (list.new ≡ list.old ++ cube ∷ []) }
    ensures err { OnErr result (list.new ≡ list.old) }
{
    if list.len() == u32::MAX {
        return Err(NoMemory);
    }
    list.push(cube)
}

impl Groups {
    /// No cubes, of any action. It takes no memory.
    pub(crate) fn new(alloc: Global) -> Groups
        ensures apart { AreApart result }
        ensures none { (act : ℕ) → cubes_of result act ≡ [] }
    {
        Groups {
            lists: Vec::new(alloc),
            numbers: HashMap::new(alloc),
        }
    }

    /// The list of the action, if it has one.
    pub(crate) fn list(&self, act: u32) -> Option<&Ordered<Cube>>
        requires { AreApart self.now }
        ensures { MatchOption result (cubes_of self.now act ≡ []) (λ list. list.now ≡ cubes_of self.now act) }
    {
        let number = self.numbers.get(&act).copied()?;
        Some(&self.lists[number])
    }

    /// The number of the action's list, which is made if there is none.
    fn number_of(&mut self, act: u32) -> Result<usize, NoMemory>
        requires { AreApart self.old }
        ensures apart { AreApart self.new }
        ensures same { (other : ℕ) → cubes_of self.new other ≡ cubes_of self.old other }
        ensures number { IfOk result (λ number. get nat_eq self.new.numbers act ≡ Some number) }
    {
        if let Some(number) = self.numbers.get(&act).copied() {
            return Ok(number);
        }
        let number = self.lists.len();
        self.lists.push(Ordered::new(*self.lists.allocator()))?;
        self.numbers.insert(act, number)?;
        Ok(number)
    }

    /// Adds a cube at the end of the list of the action.
    pub(crate) fn add(&mut self, act: u32, cube: Cube) -> Result<(), NoMemory>
        requires { AreApart self.old }
        ensures apart { AreApart self.new }
        ensures ok { OnOk result ((other : ℕ) → cubes_of self.new other ≡ (if nat_eq act other then cubes_of self.old other ++ cube ∷ [] else cubes_of self.old other)) }
        ensures err { OnErr result ((other : ℕ) → cubes_of self.new other ≡ cubes_of self.old other) }
    {
        let number = self.number_of(act)?;
        put(&mut self.lists[number], cube)
    }
}

//! Lists of forbidden pairs.

ghost use Rattle.fond_task.specs.declared.rule.Pair.{Pair};
ghost use Rattle.fond_rules.specs.Belongs.{ArePairsOver};
ghost use Rattle.fond_rules.specs.Targets.{AllContradict};
ghost use Rattle.std.specs.Prelude.{◌≡◌, ◌<◌, [], ◌∷◌, ◌++◌, length, slice_get, Some, Decides, OnOk, OnErr};

use crate::groups::Groups;
use fond_state::cube::Cube;
use fond_task::rule::Pair;
use fond_text::fault::NoMemory;
use std::alloc::Global;
use std::marker::Model;

/// Forbidden pairs, in order. The conditions of the pairs of one action are found without the others, by an index of copies
/// of them.
#[derive(Drop)]
pub struct Pairs {
    items: Vec<Pair>,
    groups: Groups,
}

impl Model for Pairs {
    ghost use Rattle.fond_task.specs.declared.rule.Pair.{Pair};
    ghost use Rattle.fond_rules.specs.Groups.{AreGrouped};
    ghost use Rattle.std.specs.Prelude.{List};

    ghost Value = { List Pair };

    ghost view = { λ x. x.items.items };

    ghost invariant = { λ x. AreGrouped x.items.items x.groups };
}

impl Pairs {
    /// A list of no pairs. It takes no memory until a pair is added.
    pub fn new(alloc: Global) -> Pairs
        ensures { result ≡ [] }
    {
        Pairs {
            items: Vec::new(alloc),
            groups: Groups::new(alloc),
        }
    }

    /// Adds a pair at the end.
    pub fn push(&mut self, p: Pair) -> Result<(), NoMemory>
        ensures ok { OnOk result (self.new ≡ self.old ++ p ∷ []) }
        ensures err { OnErr result (self.new ≡ self.old) }
    {
        // with room for the pair, the last step cannot fail, and a failure before it changes nothing
        self.items.reserve(1)?;
        let cond = p.cond.copy(*self.items.allocator())?;
        self.groups.add(p.act, cond)?;
        self.items.push(p)?;
        Ok(())
    }

    /// The number of pairs.
    pub fn len(&self) -> u64
        ensures { result ≡ length self.now }
    {
        self.items.len() as u64
    }

    /// The pair at this index.
    pub fn get(&self, i: u64) -> &Pair
        requires { i < length self.now }
        ensures { slice_get self.now i ≡ Some result.now }
    {
        &self.items[i as usize]
    }

    /// Whether the conditions of all pairs are over this many atoms. Takes time in the number of pairs.
    pub fn are_over(&self, atoms: usize) -> bool
        ensures { Decides result (ArePairsOver atoms self.now) }
    {
        for pair in self.items.as_slice() {
            if pair.cond.len() != atoms {
                return false;
            }
        }
        true
    }

    /// Whether the cube contradicts the condition of each pair of the action. Takes time in the number of
    /// branches of their index whose literals the cube does not oppose, and in that of the atoms for each condition there,
    /// however many other pairs there are.
    pub fn all_contradict(&self, act: u32, cond: &Cube) -> bool
        requires { ArePairsOver (length cond.now) self.now }
        ensures { Decides result (AllContradict self.now act cond.now) }
    {
        match self.groups.list(act) {
            Some(list) => list.first_beside(cond).is_none(),
            None => true,
        }
    }
}

//! Lists of items.

ghost use Rattle.fond_policy.specs.Items.{AreItemsOver, dropped};
ghost use Rattle.fond_policy.specs.declared.item.Item.{Item};
ghost use Rattle.std.specs.Prelude.{◌≡◌, ◌<◌, ◌-◌, ◌^◌, [], ◌∷◌, ◌++◌, length, slice_get, Some, Decides, OnOk, OnErr};

use crate::item::Item;
use fond_text::fault::NoMemory;
use std::alloc::Global;
use std::marker::Model;

/// Fewer than 2^32 items, in order.
#[derive(Drop)]
pub struct Items {
    items: Vec<Item>,
}

impl Model for Items {
    ghost use Rattle.std.specs.Prelude.{List, ◌<◌, ◌^◌, length};
    ghost use Rattle.fond_policy.specs.declared.item.Item.{Item};

    ghost Value = { List Item };

    ghost view = { λ l. l.items.items };

    ghost invariant = { λ l. length l.items.items < 2 ^ 32 };
}

impl Items {
    /// A list of no items. It takes no memory until an item is added.
    pub fn new(alloc: Global) -> Items
        ensures { result ≡ [] }
    {
        Items {
            items: Vec::new(alloc),
        }
    }

    /// Adds an item at the end, or leaves the list as it was if memory runs out.
    pub fn push(&mut self, i: Item) -> Result<(), NoMemory>
        requires { length self.old < 2 ^ 32 - 1 }
        ensures ok { OnOk result (self.new ≡ self.old ++ i ∷ []) }
        ensures err { OnErr result (self.new ≡ self.old) }
    {
        self.items.push(i)?;
        Ok(())
    }

    /// The number of items.
    pub fn len(&self) -> u32
        ensures { result ≡ length self.now }
    {
        self.items.len() as u32
    }

    /// The item of this number.
    pub fn get(&self, i: u32) -> &Item
        requires { i < length self.now }
        ensures { slice_get self.now i ≡ Some result.now }
    {
        &self.items[i as usize]
    }

    /// Whether the cubes of all items are over this many atoms. Takes time in the number of items.
    pub fn are_over(&self, atoms: usize) -> bool
        ensures { Decides result (AreItemsOver atoms self.now) }
    {
        for i in 0..self.len() {
            if self.get(i).cube.len() != atoms {
                return false;
            }
        }
        true
    }

    /// Drops the literal that the item of this number has of the atom, if it has one.
    pub(crate) fn drop_literal(&mut self, at: u32, atom: u32)
        requires { at < length self.old }
        ensures { (item : Item) → slice_get self.old at ≡ Some item → self.new ≡ dropped self.old at item atom }
    {
        self.items[at as usize].cube.drop_literal(atom);
    }
}

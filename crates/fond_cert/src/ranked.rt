//! Items with their ranks.

ghost use Rattle.fond_policy.specs.declared.item.Item.{Item as ItemView};
ghost use Rattle.std.specs.Prelude.{◌≡◌, ◌<◌, ◌-◌, ◌^◌, ℕ, [], ◌∷◌, ◌++◌, length, map, OnOk};

use fond_policy::best::Ranks;
use fond_policy::item::Item;
use fond_policy::items::Items;
use fond_text::fault::NoMemory;
use fond_text::list::List;
use std::alloc::Global;
use std::marker::Model;

/// Fewer than 2^32 items with a rank each, in order. Contracts see it as the list of the items with their ranks.
#[derive(Drop)]
pub struct RankedItems {
    items: Items,
    ranks: Vec<u64>,
}

impl Model for RankedItems {
    ghost use Rattle.fond_policy.specs.declared.item.Item.{Item};
    ghost use Rattle.std.specs.List.{zip};
    ghost use Rattle.std.specs.Prelude.{◌≡◌, List, ℕ, length};

    ghost Value = { List (Item × ℕ) };

    ghost view = { λ l. zip l.items l.ranks.items };

    ghost invariant = { λ l. length l.ranks.items ≡ length l.items };
}

impl RankedItems {
    /// A list of no items. It takes no memory until an item is added.
    pub fn new(alloc: Global) -> RankedItems
        ensures { result ≡ [] }
    {
        RankedItems {
            items: Items::new(alloc),
            ranks: Vec::new(alloc),
        }
    }

    /// Adds an item with its rank at the end.
    pub fn push(&mut self, item: Item, rank: u64) -> Result<(), NoMemory>
        requires { length self.old < 2 ^ 32 - 1 }
        ensures { OnOk result (self.new ≡ self.old ++ (item, rank) ∷ []) }
    {
        self.ranks.push(rank)?;
        if let Err(fault) = self.items.push(item) {
            self.ranks.pop();
            return Err(fault);
        }
        Ok(())
    }

    /// The items, and their ranks.
    pub fn split(self) -> (Items, Ranks)
        ensures items { result.0 ≡ map (λ (entry : ItemView × ℕ). entry.0) self }
        ensures ranks { result.1 ≡ map (λ (entry : ItemView × ℕ). entry.1) self }
    {
        (self.items, List::of(self.ranks))
    }
}

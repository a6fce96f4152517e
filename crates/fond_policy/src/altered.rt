//! Items of which one has another cube.

ghost use Rattle.fond_policy.specs.Items.{AreItemsOver, LiesInItem};
ghost use Rattle.std.specs.Prelude.{◌≡◌, length, Decides};

use crate::items::Items;
use fond_state::cube::Cube;
use std::marker::Model;

/// Items, of which the one at `at` has this cube in place of its own. Contracts see the list of these items.
#[derive(Drop)]
pub(crate) struct Altered<'a> {
    pub(crate) items: &'a Items,
    pub(crate) at: u32,
    pub(crate) cube: &'a Cube,
}

impl<'a> Model for Altered<'a> {
    ghost use Rattle.std.specs.Prelude.{List};
    ghost use Rattle.fond_policy.specs.declared.item.Item.{Item};
    ghost use Rattle.fond_policy.specs.Altered.{altered};

    ghost Value = { List Item };

    ghost view = { λ a. altered a.items.now a.at a.cube.now };
}

impl<'a> Altered<'a> {
    /// Whether the cube lies in the cube of the item of this number.
    pub(crate) fn has_around(&self, cube: &Cube, number: u32) -> bool
        requires { AreItemsOver (length cube.now) self.now }
        ensures { Decides result (LiesInItem self.now cube.now number) }
    {
        if number >= self.items.len() {
            return false;
        }
        if number == self.at {
            return self.cube.covers(cube);
        }
        self.items.get(number).cube.covers(cube)
    }
}

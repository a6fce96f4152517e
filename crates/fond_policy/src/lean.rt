//! Whether items are lean.

ghost use Rattle.fond_policy.specs.Items.{AreItemsOver, Belong, IsLeanItem, IsSpare, NeedsLiteral};
ghost use Rattle.fond_policy.specs.declared.item.Item.{Item};
ghost use Rattle.std.specs.Prelude.{◌≡◌, ◌<◌, ℕ, true, false, Some, length, slice_get, Decides};

use crate::firsts::Firsts;
use crate::item::Way;
use crate::items::Items;
use crate::pad::{CoverPad, Scratch};
use crate::sure::{is_sure_beside, sure_item};
use fond_task::task::Task;

/// Notes rivals for the literals of the item of this number, and forgets the earlier ones. Takes the time of `Firsts::find_rivals`.
pub(crate) fn find_rivals<R: Firsts>(rules: &R, items: &Items, at: u32, rivals: &mut [u32])
    requires { at < length items.now }
{
    for slot in rivals.iter_mut() {
        *slot = u32::MAX;
    }
    let item = items.get(at);
    if let Way::Rule { rule, .. } = &item.way {
        rules.find_rivals(*rule, &item.cube, rivals);
    }
}

/// The number that is noted for the literal of this atom, or `u32::MAX`.
pub(crate) fn rival_of(rivals: &[u32], atom: u32) -> u32 {
    rivals.get(atom as usize).copied().unwrap_or(u32::MAX)
}

/// Whether the item of this number needs its literal of the atom, if it has one. The scratch cube is the item's cube, and is
/// again afterwards. A literal of the condition of the item's rule, and one of which the rival tells that it is needed, take two
/// comparisons of cubes at most, and another one the time of `sure_item`.
pub(crate) fn needs<R: Firsts>(
    t: &Task,
    rules: &R,
    items: &Items,
    at: u32,
    atom: u32,
    rival: u32,
    scratch: &mut Scratch,
) -> bool
    requires there { at < length items.now }
    requires belong { Belong t.now (R.firsts rules.now) }
    requires over { AreItemsOver (length t.now.atoms) items.now }
    requires same { (item : Item) → slice_get items.now at ≡ Some item → scratch.old.cube ≡ item.cube }
    requires long { length scratch.old.image ≡ length t.now.atoms }
    ensures same_cube { scratch.new.cube ≡ scratch.old.cube }
    ensures same_length { length scratch.new.image ≡ length scratch.old.image }
    ensures needed { result ≡ true → (item : Item) → slice_get items.now at ≡ Some item → NeedsLiteral t.now (R.firsts rules.now) items.now at item atom }
    ensures spare { result ≡ false → (item : Item) → slice_get items.now at ≡ Some item → IsSpare t.now (R.firsts rules.now) items.now at item atom }
{
    let Some(sign) = scratch.cube.literal(atom) else {
        return true;
    };
    scratch.cube.drop_literal(atom);
    let is_sure = is_sure_beside(t, rules, items, at, rival, scratch);
    scratch.cube.put_literal(atom, sign);
    !is_sure
}

/// Whether the item of this number needs each of its literals. The scratch cube is the item's cube.
fn needs_each<R: Firsts>(
    t: &Task,
    rules: &R,
    items: &Items,
    at: u32,
    rivals: &[u32],
    scratch: &mut Scratch,
) -> bool
    requires there { at < length items.now }
    requires belong { Belong t.now (R.firsts rules.now) }
    requires over { AreItemsOver (length t.now.atoms) items.now }
    requires same { (item : Item) → slice_get items.now at ≡ Some item → scratch.old.cube ≡ item.cube }
    requires long { length scratch.old.image ≡ length t.now.atoms }
    ensures same_cube { scratch.new.cube ≡ scratch.old.cube }
    ensures same_length { length scratch.new.image ≡ length scratch.old.image }
    ensures decides { (item : Item) → slice_get items.now at ≡ Some item → Decides result ((atom : ℕ) → NeedsLiteral t.now (R.firsts rules.now) items.now at item atom) }
{
    for atom in 0..t.atoms.len() as u32 {
        if !needs(t, rules, items, at, atom, rival_of(rivals, atom), scratch) {
            return false;
        }
    }
    true
}

/// Whether the item of this number needs each of its literals. Finds rivals first.
fn needs_all<R: Firsts>(t: &Task, rules: &R, items: &Items, at: u32, pad: &mut CoverPad) -> bool
    requires there { at < length items.now }
    requires belong { Belong t.now (R.firsts rules.now) }
    requires over { AreItemsOver (length t.now.atoms) items.now }
    requires pad { pad.old ≡ length t.now.atoms }
    ensures same_pad { pad.new ≡ pad.old }
    ensures decides { (item : Item) → slice_get items.now at ≡ Some item → Decides result ((atom : ℕ) → NeedsLiteral t.now (R.firsts rules.now) items.now at item atom) }
{
    find_rivals(rules, items, at, &mut pad.rivals);
    pad.scratch.cube.copy_from(&items.get(at).cube);
    needs_each(t, rules, items, at, &pad.rivals, &mut pad.scratch)
}

/// Whether the item of this number is lean. Takes the time of `sure_item`, that of `Firsts::find_rivals`, and the time of
/// `sure_item` once more for each literal that no single earlier rule and no literal of the item's own rule shows to be needed.
pub fn lean_item<R: Firsts>(t: &Task, rules: &R, items: &Items, at: u32, pad: &mut CoverPad) -> bool
    requires there { at < length items.now }
    requires belong { Belong t.now (R.firsts rules.now) }
    requires over { AreItemsOver (length t.now.atoms) items.now }
    requires pad { pad.old ≡ length t.now.atoms }
    ensures same_pad { pad.new ≡ pad.old }
    ensures decides { (item : Item) → slice_get items.now at ≡ Some item → Decides result (IsLeanItem t.now (R.firsts rules.now) items.now at item) }
{
    if !sure_item(t, rules, items, at, pad) {
        return false;
    }
    needs_all(t, rules, items, at, pad)
}

//! Items are widened: they lose each literal that they do not need.

ghost use Rattle.fond_policy.specs.Items.{AreItemsOver, AreLeanItems, AreSureItems, Belong, NeedsLiteral};
ghost use Rattle.fond_policy.specs.Wider.{AreWider, HaveWidened};
ghost use Rattle.fond_policy.specs.declared.item.Item.{Item};
ghost use Rattle.std.specs.Prelude.{◌≡◌, ◌<◌, ℕ, Bool, false, Some, length, slice_get, OnOk, OnErr};

use crate::firsts::Firsts;
use crate::item::Way;
use crate::items::Items;
use crate::lean::{find_rivals, needs, rival_of};
use crate::pad::{CoverPad, Scratch};
use fond_task::task::Task;
use fond_text::fault::NoMemory;
use std::alloc::Global;

/// When each item last lost a literal, by rounds, each of which goes from the last item to the first, since a way mostly leads into
/// later items. It tells which items to ask again; what they need does not rest on it.
#[derive(Drop)]
struct Rounds {
    lost: Vec<u32>,
    now: u32,
}

impl Rounds {
    /// Whether an item that the way of this one leads into lost a literal since this one was widened last.
    fn is_due(&self, at: u32, way: &Way) -> bool {
        let Way::Rule { items, .. } = way else {
            return false;
        };
        for item in items.as_slice() {
            let last = self.lost.get(*item as usize).copied().unwrap_or(0);
            if last == self.now || (last.saturating_add(1) == self.now && *item <= at) {
                return true;
            }
        }
        false
    }

    /// Notes that an item lost a literal in this round.
    fn note(&mut self, at: u32) {
        if let Some(last) = self.lost.get_mut(at as usize) {
            *last = self.now;
        }
    }

    /// Begins the next round.
    fn turn(&mut self) {
        self.now = self.now.saturating_add(1);
    }
}

/// Drops the item's literal of the atom, if it has one and does not need it. Returns whether it was dropped. The scratch cube is
/// the item's cube, before and afterwards.
fn drop_one<R: Firsts>(
    t: &Task,
    rules: &R,
    items: &mut Items,
    at: u32,
    atom: u32,
    rival: u32,
    scratch: &mut Scratch,
) -> bool
    requires there { at < length items.old }
    requires belong { Belong t.now (R.firsts rules.now) }
    requires over { AreItemsOver (length t.now.atoms) items.old }
    requires sure { AreSureItems t.now (R.firsts rules.now) items.old }
    requires same { (item : Item) → slice_get items.old at ≡ Some item → scratch.old.cube ≡ item.cube }
    requires long { length scratch.old.image ≡ length t.now.atoms }
    ensures same_cube { (item : Item) → slice_get items.new at ≡ Some item → scratch.new.cube ≡ item.cube }
    ensures same_length { length scratch.new.image ≡ length scratch.old.image }
    ensures widened { HaveWidened t.now (R.firsts rules.now) items.old items.new result }
    ensures needed { result ≡ false → (item : Item) → slice_get items.new at ≡ Some item → NeedsLiteral t.now (R.firsts rules.now) items.new at item atom }
{
    if needs(t, rules, items, at, atom, rival, scratch) {
        return false;
    }
    items.drop_literal(at, atom);
    scratch.cube.drop_literal(atom);
    true
}

/// Drops the literals of an item that it does not need, atom by atom. Returns whether any was dropped. The scratch cube is the
/// item's cube, before and afterwards.
fn drop_each<R: Firsts>(
    t: &Task,
    rules: &R,
    items: &mut Items,
    at: u32,
    rivals: &[u32],
    scratch: &mut Scratch,
) -> bool
    requires there { at < length items.old }
    requires belong { Belong t.now (R.firsts rules.now) }
    requires over { AreItemsOver (length t.now.atoms) items.old }
    requires sure { AreSureItems t.now (R.firsts rules.now) items.old }
    requires same { (item : Item) → slice_get items.old at ≡ Some item → scratch.old.cube ≡ item.cube }
    requires long { length scratch.old.image ≡ length t.now.atoms }
    ensures same_cube { length scratch.new.cube ≡ length scratch.old.cube }
    ensures same_length { length scratch.new.image ≡ length scratch.old.image }
    ensures widened { HaveWidened t.now (R.firsts rules.now) items.old items.new result }
    ensures needed { result ≡ false → (atom : ℕ) (item : Item) → slice_get items.new at ≡ Some item → NeedsLiteral t.now (R.firsts rules.now) items.new at item atom }
{
    let mut changed = false;
    for atom in 0..t.atoms.len() as u32 {
        let dropped = drop_one(t, rules, items, at, atom, rival_of(rivals, atom), scratch);
        changed = changed || dropped;
    }
    changed
}

/// Widens the item of this number. Returns whether it lost a literal.
fn widen_item<R: Firsts>(
    t: &Task,
    rules: &R,
    items: &mut Items,
    at: u32,
    pad: &mut CoverPad,
    rounds: &mut Rounds,
) -> bool
    requires there { at < length items.old }
    requires belong { Belong t.now (R.firsts rules.now) }
    requires over { AreItemsOver (length t.now.atoms) items.old }
    requires sure { AreSureItems t.now (R.firsts rules.now) items.old }
    requires pad { pad.old ≡ length t.now.atoms }
    ensures same_pad { pad.new ≡ pad.old }
    ensures widened { HaveWidened t.now (R.firsts rules.now) items.old items.new result }
    ensures needed { result ≡ false → (atom : ℕ) (item : Item) → slice_get items.new at ≡ Some item → NeedsLiteral t.now (R.firsts rules.now) items.new at item atom }
{
    find_rivals(rules, items, at, &mut pad.rivals);
    pad.scratch.cube.copy_from(&items.get(at).cube);
    let dropped = drop_each(t, rules, items, at, &pad.rivals, &mut pad.scratch);
    if dropped {
        rounds.note(at);
    }
    dropped
}

/// Widens the items, from the last to the first. An item may need fewer literals once an earlier one is wider, so the items are lean if
/// none lost a literal. Returns whether one did.
fn pass<R: Firsts>(
    t: &Task,
    rules: &R,
    items: &mut Items,
    pad: &mut CoverPad,
    rounds: &mut Rounds,
) -> bool
    requires belong { Belong t.now (R.firsts rules.now) }
    requires over { AreItemsOver (length t.now.atoms) items.old }
    requires sure { AreSureItems t.now (R.firsts rules.now) items.old }
    requires pad { pad.old ≡ length t.now.atoms }
    ensures same_pad { pad.new ≡ pad.old }
    ensures widened { HaveWidened t.now (R.firsts rules.now) items.old items.new result }
    ensures lean { result ≡ false → AreLeanItems t.now (R.firsts rules.now) items.new }
{
    let mut changed = false;
    for done in 0..items.len() {
        let at = items.len() - 1 - done;
        let dropped = widen_item(t, rules, items, at, pad, rounds);
        changed = changed || dropped;
    }
    changed
}

/// Widens the items that lead into one which lost a literal since they were widened, from the last to the first. Returns whether one
/// of them did.
fn sweep<R: Firsts>(
    t: &Task,
    rules: &R,
    items: &mut Items,
    pad: &mut CoverPad,
    rounds: &mut Rounds,
) -> bool
    requires belong { Belong t.now (R.firsts rules.now) }
    requires over { AreItemsOver (length t.now.atoms) items.old }
    requires sure { AreSureItems t.now (R.firsts rules.now) items.old }
    requires pad { pad.old ≡ length t.now.atoms }
    ensures same_pad { pad.new ≡ pad.old }
    ensures widened { HaveWidened t.now (R.firsts rules.now) items.old items.new result }
{
    let mut changed = false;
    for done in 0..items.len() {
        let at = items.len() - 1 - done;
        if rounds.is_due(at, &items.get(at).way) {
            let dropped = widen_item(t, rules, items, at, pad, rounds);
            changed = changed || dropped;
        }
    }
    changed
}

/// Widens items in rounds, each time those that lead into one which lost a literal, until none of them loses one.
fn catch_up<R: Firsts>(
    t: &Task,
    rules: &R,
    items: &mut Items,
    pad: &mut CoverPad,
    rounds: &mut Rounds,
)
    requires belong { Belong t.now (R.firsts rules.now) }
    requires over { AreItemsOver (length t.now.atoms) items.old }
    requires sure { AreSureItems t.now (R.firsts rules.now) items.old }
    requires pad { pad.old ≡ length t.now.atoms }
    ensures same_pad { pad.new ≡ pad.old }
    ensures widened { (changed : Bool) × HaveWidened t.now (R.firsts rules.now) items.old items.new changed }
{
    let mut open = true;
    while open {
        rounds.turn();
        open = sweep(t, rules, items, pad, rounds);
    }
}

/// Passes over the items until they are lean. After a pass in which an item lost a literal, those that lead into it catch up, so that
/// mostly the second pass is the last one.
fn settle<R: Firsts>(
    t: &Task,
    rules: &R,
    items: &mut Items,
    pad: &mut CoverPad,
    rounds: &mut Rounds,
)
    requires belong { Belong t.now (R.firsts rules.now) }
    requires over { AreItemsOver (length t.now.atoms) items.old }
    requires sure { AreSureItems t.now (R.firsts rules.now) items.old }
    requires pad { pad.old ≡ length t.now.atoms }
    ensures lean { AreLeanItems t.now (R.firsts rules.now) items.new }
    ensures wider { AreWider items.new items.old }
{
    while pass(t, rules, items, pad, rounds) {
        catch_up(t, rules, items, pad, rounds);
    }
}

/// Widens sure items until they are lean. Their ways are kept, and each cube covers the old one. After an error the items are as
/// they were. Passes over the items until none loses a literal, so at most once more than there are literals, and mostly once or
/// twice; a pass takes the time of `lean_item` for each item. In between, only items are asked that lead into one which lost a
/// literal. Takes memory for one pad, and a number for each item.
pub fn widen<R: Firsts>(
    alloc: Global,
    t: &Task,
    rules: &R,
    items: &mut Items,
) -> Result<(), NoMemory>
    requires belong { Belong t.now (R.firsts rules.now) }
    requires over { AreItemsOver (length t.now.atoms) items.old }
    requires sure { AreSureItems t.now (R.firsts rules.now) items.old }
    ensures lean { OnOk result (AreLeanItems t.now (R.firsts rules.now) items.new) }
    ensures wider { OnOk result (AreWider items.new items.old) }
    ensures err { OnErr result (items.new ≡ items.old) }
{
    let mut pad = CoverPad::new(alloc, t.atoms.len() as u32)?;
    let lost = vec![in alloc; 0; items.len() as usize]?;
    let mut rounds = Rounds { lost, now: 1 };
    settle(t, rules, items, &mut pad, &mut rounds);
    Ok(())
}

//! Whether items are sure.

ghost use Rattle.fond_policy.specs.Altered.{altered};
ghost use Rattle.fond_policy.specs.Items.{AreItemsOver, AreSureItems, Belong, GoesOn, IsSureItem, IsSureWay, LeadInto};
ghost use Rattle.fond_policy.specs.declared.item.Item.{Item};
ghost use Rattle.fond_task.specs.Values.{value};
ghost use Rattle.fond_task.specs.Within.{is_act_within, is_form_within};
ghost use Rattle.fond_task.specs.declared.form.Kleene.TheVariants.{Yes};
ghost use Rattle.std.specs.Prelude.{◌≡◌, ◌<◌, List, true, Some, length, slice_get, Decides, IsTrue};

use crate::altered::Altered;
use crate::firsts::Firsts;
use crate::item::{ItemNumbers, Way};
use crate::items::Items;
use crate::pad::{CoverPad, Scratch};
use fond_state::cube::Cube;
use fond_task::form::{Form, Kleene};
use fond_task::image::image_of;
use fond_task::task::{Act, Task};
use fond_task::value::value;

/// Whether there is an item for each outcome of the action, and the outcome's image of the cube lies in its cube.
fn lead_into(
    others: &Altered<'_>,
    act: &Act,
    cube: &Cube,
    numbers: &ItemNumbers,
    image: &mut Cube,
) -> bool
    requires over { AreItemsOver (length cube.now) others.now }
    requires within { IsTrue (is_act_within (length cube.now) act.now) }
    requires long { length image.old ≡ length cube.now }
    ensures same_length { length image.new ≡ length image.old }
    ensures decides { Decides result (LeadInto others.now act.now cube.now numbers.now) }
{
    if numbers.len() != act.outcomes.len() {
        return false;
    }
    for i in 0..numbers.len() {
        image_of(cube, act.outcomes.get(i), image);
        if !others.has_around(image, *numbers.get(i)) {
            return false;
        }
    }
    true
}

/// Whether the rule goes on from the cube to the items of these numbers. Whether it is the first comes last, since it may take longest.
fn goes_on<R: Firsts>(
    t: &Task,
    rules: &R,
    others: &Altered<'_>,
    cube: &Cube,
    rule: u32,
    numbers: &ItemNumbers,
    image: &mut Cube,
) -> bool
    requires belong { Belong t.now (R.firsts rules.now) }
    requires over { AreItemsOver (length t.now.atoms) others.now }
    requires cube_over { length cube.now ≡ length t.now.atoms }
    requires long { length image.old ≡ length t.now.atoms }
    ensures same_length { length image.new ≡ length image.old }
    ensures decides { Decides result (GoesOn t.now (R.firsts rules.now) others.now cube.now rule numbers.now) }
{
    let Some(act) = rules.act(rule) else {
        return false;
    };
    lead_into(others, t.acts.get(act as usize), cube, numbers, image) && rules.first_on(rule, cube)
}

/// Whether the form has the value Yes on the cube.
fn is_yes(form: &Form, cube: &Cube) -> bool
    requires { IsTrue (is_form_within (length cube.now) form.now) }
    ensures { Decides result (value cube.now form.now ≡ Yes) }
{
    matches!(value(form, cube), Kleene::Yes)
}

/// Whether the item of this number is sure with this cube in place of its own, also where its way leads into itself.
fn is_sure_with<R: Firsts>(
    t: &Task,
    rules: &R,
    items: &Items,
    at: u32,
    cube: &Cube,
    image: &mut Cube,
) -> bool
    requires there { at < length items.now }
    requires belong { Belong t.now (R.firsts rules.now) }
    requires over { AreItemsOver (length t.now.atoms) items.now }
    requires cube_over { length cube.now ≡ length t.now.atoms }
    requires long { length image.old ≡ length t.now.atoms }
    ensures same_length { length image.new ≡ length image.old }
    ensures decides { (item : Item) → slice_get items.now at ≡ Some item → Decides result (IsSureWay t.now (R.firsts rules.now) (altered items.now at cube.now) cube.now item.way) }
{
    let others = Altered { items, at, cube };
    match &items.get(at).way {
        Way::Goal => is_yes(&t.goal, cube),
        Way::Rule {
            rule,
            items: numbers,
        } => goes_on(t, rules, &others, cube, *rule, numbers, image),
    }
}

/// Whether the item's rule or the rival shows that the item of this number is not sure with this cube, whatever the items are.
fn is_beaten<R: Firsts>(
    t: &Task,
    rules: &R,
    items: &Items,
    at: u32,
    cube: &Cube,
    rival: u32,
) -> bool
    requires there { at < length items.now }
    requires belong { Belong t.now (R.firsts rules.now) }
    requires cube_over { length cube.now ≡ length t.now.atoms }
    ensures { result ≡ true → (item : Item) (others : List Item) → slice_get items.now at ≡ Some item → ¬ IsSureWay t.now (R.firsts rules.now) others cube.now item.way }
{
    match &items.get(at).way {
        Way::Goal => false,
        Way::Rule { rule, .. } => rules.is_beaten(*rule, cube, rival),
    }
}

/// Whether the item of this number is sure with the scratch cube in place of its own. If the item's rule or the rival shows that it
/// is not, this takes two comparisons of cubes at most.
pub(crate) fn is_sure_beside<R: Firsts>(
    t: &Task,
    rules: &R,
    items: &Items,
    at: u32,
    rival: u32,
    scratch: &mut Scratch,
) -> bool
    requires there { at < length items.now }
    requires belong { Belong t.now (R.firsts rules.now) }
    requires over { AreItemsOver (length t.now.atoms) items.now }
    requires cube_over { length scratch.old.cube ≡ length t.now.atoms }
    requires long { length scratch.old.image ≡ length t.now.atoms }
    ensures same_cube { scratch.new.cube ≡ scratch.old.cube }
    ensures same_length { length scratch.new.image ≡ length scratch.old.image }
    ensures decides { (item : Item) → slice_get items.now at ≡ Some item → Decides result (IsSureWay t.now (R.firsts rules.now) (altered items.now at scratch.old.cube) scratch.old.cube item.way) }
{
    if is_beaten(t, rules, items, at, &scratch.cube, rival) {
        return false;
    }
    is_sure_with(t, rules, items, at, &scratch.cube, &mut scratch.image)
}

/// Whether the item of this number is sure. An item of the way `Goal` takes the time of the goal's value. With a rule it takes
/// time in the number of the earlier rules, and for each outcome in its size, times the number of words of a cube.
pub fn sure_item<R: Firsts>(t: &Task, rules: &R, items: &Items, at: u32, pad: &mut CoverPad) -> bool
    requires there { at < length items.now }
    requires belong { Belong t.now (R.firsts rules.now) }
    requires over { AreItemsOver (length t.now.atoms) items.now }
    requires pad { pad.old ≡ length t.now.atoms }
    ensures same_pad { pad.new ≡ pad.old }
    ensures decides { (item : Item) → slice_get items.now at ≡ Some item → Decides result (IsSureItem t.now (R.firsts rules.now) items.now item) }
{
    let cube = &items.get(at).cube;
    is_sure_with(t, rules, items, at, cube, &mut pad.scratch.image)
}

/// Whether each item is sure. Takes the time of `sure_item` for each.
pub fn are_sure<R: Firsts>(t: &Task, rules: &R, items: &Items, pad: &mut CoverPad) -> bool
    requires belong { Belong t.now (R.firsts rules.now) }
    requires over { AreItemsOver (length t.now.atoms) items.now }
    requires pad { pad.old ≡ length t.now.atoms }
    ensures same_pad { pad.new ≡ pad.old }
    ensures decides { Decides result (AreSureItems t.now (R.firsts rules.now) items.now) }
{
    for at in 0..items.len() {
        if !sure_item(t, rules, items, at, pad) {
            return false;
        }
    }
    true
}

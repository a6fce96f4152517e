//! Whether an action leads from a cube into a layer or an earlier one.

ghost use Rattle.fond_task.specs.Layers.{CubeView, LiesInLayer, SomeLeads, Forces};
ghost use Rattle.fond_layers.specs.Over.{IsOver, AreOver};
ghost use Rattle.fond_layers.specs.Leads.{LiesInSome};
ghost use Rattle.fond_task.specs.Within.{is_act_within};
ghost use Rattle.std.specs.Prelude.{◌≡◌, List, [], length, Contains, Decides, IsTrue};

use crate::indexed::Indexed;
use fond_state::cube::Cube;
use fond_task::image::image_of;
use fond_task::task::Act;

/// Whether the cube lies in a cube of one of the layers.
pub(crate) fn lies_in_some(cube: &Cube, layers: &[Indexed]) -> bool
    requires { AreOver (length cube.now) layers.now }
    ensures { Decides result (LiesInSome cube.now layers.now) }
{
    for layer in layers {
        if layer.has_around(cube) {
            return true;
        }
    }
    false
}

/// Whether taking the action in the cube may lead into the layer again. Computes the image under each outcome once, in
/// `image`.
fn leads_again(layer: &Indexed, cube: &Cube, act: &Act, image: &mut Cube) -> bool
    requires within { IsTrue (is_act_within (length cube.now) act.now) }
    requires layer_over { IsOver (length cube.now) layer.now }
    requires long { length image.old ≡ length cube.now }
    ensures same_length { length image.new ≡ length image.old }
    ensures decides { Decides result (Forces [] layer.now cube.now act.now) }
{
    let mut some_leads = false;
    let mut each_leads = true;
    for outcome in act.outcomes.as_slice() {
        image_of(cube, outcome, image);
        let leads = layer.has_around(image);
        some_leads |= leads;
        each_leads &= leads;
    }
    if act.unfair { some_leads } else { each_leads }
}

/// Whether some outcome of the action leads from the cube into one of the layers. Computes the image under each outcome
/// at most once, in `image`.
fn leads_earlier(earlier: &[Indexed], cube: &Cube, act: &Act, image: &mut Cube) -> bool
    requires within { IsTrue (is_act_within (length cube.now) act.now) }
    requires earlier_over { AreOver (length cube.now) earlier.now }
    requires long { length image.old ≡ length cube.now }
    ensures same_length { length image.new ≡ length image.old }
    ensures decides { Decides result ((before : List CubeView) × Contains earlier.now before × SomeLeads cube.now act.now before) }
{
    for outcome in act.outcomes.as_slice() {
        image_of(cube, outcome, image);
        if lies_in_some(image, earlier) {
            return true;
        }
    }
    false
}

/// Whether taking the action in the cube may lead into the layer again or into an earlier one. The earlier ones may be
/// many, so they are asked last. `image` is overwritten.
pub(crate) fn forces(
    earlier: &[Indexed],
    layer: &Indexed,
    cube: &Cube,
    act: &Act,
    image: &mut Cube,
) -> bool
    requires within { IsTrue (is_act_within (length cube.now) act.now) }
    requires earlier_over { AreOver (length cube.now) earlier.now }
    requires layer_over { IsOver (length cube.now) layer.now }
    requires long { length image.old ≡ length cube.now }
    ensures same_length { length image.new ≡ length image.old }
    ensures decides { Decides result (Forces earlier.now layer.now cube.now act.now) }
{
    if leads_again(layer, cube, act, image) {
        return true;
    }
    leads_earlier(earlier, cube, act, image)
}

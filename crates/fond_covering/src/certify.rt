//! The test of a proposed cover.

ghost use Rattle.fond_covering.specs.Coverings.{IsSureCovering};
ghost use Rattle.fond_rules.specs.Belongs.{BelongTo};
ghost use Rattle.std.specs.Prelude.{Decides, IfOk};

use fond_policy::conditions::Conditions;
use fond_policy::items::Items;
use fond_policy::pad::CoverPad;
use fond_policy::sure::are_sure;
use fond_rules::rules::Rules;
use fond_task::task::Task;
use fond_text::fault::NoMemory;
use std::alloc::Global;

/// Whether the items are sure and the initial state lies in the cube of the start item. Takes the time of `are_sure`.
pub(crate) fn passes(
    alloc: Global,
    t: &Task,
    rules: &Rules,
    items: &Items,
    start: u32,
) -> Result<bool, NoMemory>
    requires belong { BelongTo t.now rules.now }
    ensures { IfOk result (λ yes. Decides yes (IsSureCovering t.now rules.now items.now start)) }
{
    if start >= items.len() {
        return Ok(false);
    }
    if !items.are_over(t.atoms.len()) {
        return Ok(false);
    }
    if !items.get(start).cube.holds(&t.init) {
        return Ok(false);
    }
    let mut pad = CoverPad::new(alloc, t.atoms.len() as u32)?;
    let conditions = Conditions::new(alloc, rules)?;
    Ok(are_sure(t, &conditions, items, &mut pad))
}

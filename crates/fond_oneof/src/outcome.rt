//! Counting and listing the outcomes of a ground effect.

ghost use Rattle.fond_oneof.specs.Counts.{IsTooMany, OneofFails};
ghost use Rattle.fond_oneof.specs.Outcomes.{outcome_lists, AreOutcomesOf};
ghost use Rattle.fond_oneof.specs.Within.{has_members, is_effect_over};
ghost use Rattle.fond_task.specs.Within.{is_entry_within};
ghost use Rattle.fond_text.specs.declared.code.TheConstants.{MOST_OUTCOMES};
ghost use Rattle.std.specs.List.{list_all};
ghost use Rattle.std.specs.Prelude.{ℕ, ◌<◌, ◌≤◌, IsTrue, length, IfOk, IfErr};

use crate::count::count;
use crate::effect::GroundEffect;
use crate::list::list;
use fond_task::task::Outcomes;
use fond_text::code::MOST_OUTCOMES;
use fond_text::fault::NoMemory;
use fond_text::list::List;
use std::alloc::Global;

/// Why the outcomes of an effect are not listed: there are too many of them, and this is their number, or 1,000,000 if
/// there are more; or memory ran out.
#[derive(Drop)]
pub enum OneofFault {
    TooMany(u64),
    NoMemory,
}

impl From<NoMemory> for OneofFault {
    ghost use Rattle.fond_oneof.specs.declared.outcome.OneofFault.TheVariants.{NoMemory};
    ghost use Rattle.std.specs.Prelude.{◌≡◌};

    ghost from_gives = { λ _ e. e ≡ NoMemory };

    fn from(_: NoMemory) -> OneofFault {
        OneofFault::NoMemory
    }
}

/// The outcomes of an effect, in order: the last part of a conjunction varies fastest, and a choice lists those of its
/// members.
pub fn outcomes(alloc: Global, effect: &GroundEffect) -> Result<Outcomes, OneofFault>
    ensures listed { IfOk result (AreOutcomesOf (outcome_lists effect.now)) }
    ensures few { IfOk result (λ all. length all ≤ MOST_OUTCOMES) }
    ensures some { IsTrue (has_members effect.now) → IfOk result (λ all. 0 < length all) }
    ensures within { (atoms : ℕ) → IsTrue (is_effect_over atoms effect.now) → IfOk result (λ all. IsTrue (list_all (list_all (is_entry_within atoms)) all)) }
    ensures many { IfErr result (OneofFails (IsTooMany effect.now)) }
{
    let number = count(effect);
    if number > MOST_OUTCOMES as u64 {
        return Err(OneofFault::TooMany(number));
    }
    Ok(List::of(list(alloc, effect)?))
}

//! The number of the outcomes of an effect, without listing them.

ghost use Rattle.fond_oneof.specs.Outcomes.{outcome_lists};
ghost use Rattle.std.specs.Prelude.{◌≡◌, length, min};

use crate::effect::GroundEffect;

/// The greatest number that is counted.
pub(crate) const MOST_COUNTED: u64 = 1_000_000;

/// The number of outcomes of an effect, or [`MOST_COUNTED`] if there are more. Takes time in the size of the effect, and
/// no memory.
pub(crate) fn count(effect: &GroundEffect) -> u64
    ensures { result ≡ min (length (outcome_lists effect.now)) 1000000 }
{
    match effect {
        GroundEffect::Literal(_, _) => 1,
        GroundEffect::And(parts) => {
            let mut all = 1;
            for part in parts {
                all = (all * count(part)).min(MOST_COUNTED);
            }
            all
        }
        GroundEffect::OneOf(parts) => {
            let mut all = 0;
            for part in parts {
                all = (all + count(part)).min(MOST_COUNTED);
            }
            all
        }
        GroundEffect::When(_, part) => count(part),
    }
}

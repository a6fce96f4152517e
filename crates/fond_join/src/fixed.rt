//! The value that a condition has by its form, whatever the objects of the variables around it are. Quantifiers are not
//! written out for it.

ghost use Rattle.fond_ast.specs.Ranges.{objects_of};
ghost use Rattle.fond_join.specs.Fixed.{are_filled, fixed_value as fixed, over};
ghost use Rattle.fond_task.specs.Junctions.{joined_all};
ghost use Rattle.fond_task.specs.declared.form.Kleene.TheVariants.{No, Unknown};
ghost use Rattle.std.specs.Prelude.{◌≡◌, false, map, slice_index_or, if◌then◌else◌};

use fond_ast::form::{LCond, Range};
use fond_task::form::{Junction, Kleene};

/// Whether each range has an object.
fn are_filled(ranges: &[Range]) -> bool
    ensures { result ≡ are_filled (objects_of ranges.now) }
{
    for range in ranges {
        if range.len() == 0 {
            return false;
        }
    }
    true
}

/// The value of a quantifier, if that of its part is the same for all objects.
pub fn over(ranges: &[Range], junction: Junction, value: Kleene) -> Kleene
    ensures { result ≡ over (objects_of ranges.now) junction value }
{
    if are_filled(ranges) {
        value
    } else {
        junction.neutral()
    }
}

/// The value of an atom, which is No if its predicate is one of which no atom is true.
fn predicate_value(bare: &[bool], predicate: u32) -> Kleene
    ensures { result ≡ (if slice_index_or bare.now predicate false then No else Unknown) }
{
    match bare.get(predicate as usize) {
        Some(true) => Kleene::No,
        _ => Kleene::Unknown,
    }
}

/// The value of a condition if no atom of the predicates with a true test is true, and Unknown if it depends on other atoms
/// or on objects. Takes time in the size of the condition, and no memory.
#[cycle(fixing)]
pub fn fixed_value(bare: &[bool], condition: &LCond) -> Kleene
    ensures { result ≡ fixed bare.now condition.now }
{
    match condition {
        LCond::Truth => Kleene::Yes,
        LCond::Holds(atom) => predicate_value(bare, atom.predicate),
        LCond::Equal(_, _) => Kleene::Unknown,
        LCond::And(parts) => members_value(bare, parts, Junction::All),
        LCond::Or(parts) => members_value(bare, parts, Junction::Any),
        LCond::Not(part) => fixed_value(bare, part).opposite(),
        LCond::Imply(part, other) => {
            let first = fixed_value(bare, part).opposite();
            first.greater(fixed_value(bare, other))
        }
        LCond::Forall(ranges, part) => {
            over(ranges.as_slice(), Junction::All, fixed_value(bare, part))
        }
        LCond::Exists(ranges, part) => {
            over(ranges.as_slice(), Junction::Any, fixed_value(bare, part))
        }
    }
}

/// The value of the junction of some conditions.
#[cycle(fixing)]
fn members_value(bare: &[bool], parts: &[LCond], junction: Junction) -> Kleene
    ensures { result ≡ joined_all junction (map (fixed bare.now) parts.now) }
{
    let mut all = junction.neutral();
    for part in parts {
        all = junction.joined(all, fixed_value(bare, part));
    }
    all
}

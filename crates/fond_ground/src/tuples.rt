//! The lists of one object of each of some ranges, one after the other. Like an odometer, they take memory for one list
//! only, and no stack, however many ranges there are.

ghost use Rattle.fond_ast.specs.Ranges.{objects_of};
ghost use Rattle.fond_ast.specs.Conditions.{tuples};
ghost use Rattle.fond_ground.specs.Places.{have_objects, objects_at, tuples_after, tuples_from, TakesFirst};
ghost use Rattle.std.specs.Prelude.{◌≡◌, ◌++◌, [], ◌≢◌, true, false, not, length, slice_index_or, IfOk, OnOk};

use fond_ast::form::Range;
use fond_text::fault::NoMemory;
use std::alloc::Global;
use std::marker::Model;

/// The lists of one object of each range that are still to come, in order, the first object varying slowest. Contracts see
/// it as these lists.
#[derive(Drop)]
pub(crate) struct Tuples<'a> {
    ranges: &'a [Range],
    places: Vec<usize>,
    is_done: bool,
}

impl<'a> Model for Tuples<'a> {
    ghost use Rattle.std.specs.Prelude.{◌≡◌, List, ℕ, length, false, true};
    ghost use Rattle.fond_ast.specs.Ranges.{objects_of};
    ghost use Rattle.fond_ground.specs.Places.{have_objects, tuples_from};

    ghost Value = { List (List ℕ) };

    ghost view = { λ t. tuples_from t.is_done (objects_of t.ranges.now) t.places.items };

    ghost invariant = { λ t. (length t.places.items ≡ length t.ranges.now) × (t.is_done ≡ false → have_objects (objects_of t.ranges.now) ≡ true) };
}

/// Whether some range has no object.
fn has_empty(ranges: &[Range]) -> bool
    ensures { result ≡ not (have_objects (objects_of ranges.now)) }
{
    for range in ranges {
        if range.len() == 0 {
            return true;
        }
    }
    false
}

/// The object at a place of a range, or 0 past its end.
fn object_at(range: &Range, place: usize) -> u32
    ensures { result ≡ slice_index_or range.now.value place 0 }
{
    match range.as_slice().get(place) {
        Some(object) => *object,
        None => 0,
    }
}

/// Appends the objects at these places.
fn put_objects(ranges: &[Range], places: &[usize], env: &mut Vec<u32>) -> Result<(), NoMemory>
    requires { length places.now ≡ length ranges.now }
    ensures { OnOk result (env.new.items ≡ env.old.items ++ objects_at (objects_of ranges.now) places.now) }
{
    for (i, range) in ranges.iter().enumerate() {
        env.push(object_at(range, places[i]))?;
    }
    Ok(())
}

/// Moves to the places of the next list, if there is one: the last place that is not at the end of its range moves on by
/// one, and the places after it go back to the start.
fn advance(ranges: &[Range], places: &mut Vec<usize>) -> bool
    requires long { length places.old.items ≡ length ranges.now }
    requires some { have_objects (objects_of ranges.now) ≡ true }
    ensures long { length places.new.items ≡ length ranges.now }
    ensures next { tuples_after (objects_of ranges.now) places.old.items ≡ tuples_from (not result) (objects_of ranges.now) places.new.items }
{
    let mut at = ranges.len();
    while at > 0 {
        at -= 1;
        if places[at] < ranges[at].len() - 1 {
            places[at] += 1;
            return true;
        }
        places[at] = 0;
    }
    false
}

impl<'a> Tuples<'a> {
    /// All lists of one object of each range.
    pub(crate) fn of(alloc: Global, ranges: &'a [Range]) -> Result<Tuples<'a>, NoMemory>
        ensures { IfOk result (λ all. all ≡ tuples (objects_of ranges.now)) }
    {
        Ok(Tuples {
            ranges,
            places: vec![in alloc; 0; ranges.len()]?,
            is_done: has_empty(ranges),
        })
    }

    /// Whether no list is left.
    pub(crate) fn is_done(&self) -> bool
        ensures done { result ≡ true → self.now ≡ [] }
        ensures more { result ≡ false → self.now ≢ [] }
    {
        self.is_done
    }

    /// Appends the next list to some objects, and leaves the lists after it.
    pub(crate) fn put_next(&mut self, env: &mut Vec<u32>) -> Result<(), NoMemory>
        requires { self.old ≢ [] }
        ensures { OnOk result (TakesFirst self.old self.new env.old.items env.new.items) }
    {
        put_objects(self.ranges, &self.places, env)?;
        self.is_done = !advance(self.ranges, &mut self.places);
        Ok(())
    }
}

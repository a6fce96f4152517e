//! Lean conditions: those that pass a test, and would not without any one of their literals. The test may be any that a condition
//! still passes with more literals. The calls tell whether a condition is lean, and drop literals until it is. Which conditions pass
//! is left to the crates above.

ghost use Rattle.fond_rules.specs.Leans.{IsLean, NeedsLiteral};
ghost use Rattle.fond_state.specs.Cubes.{CubeLiesIn, without_literal};
ghost use Rattle.std.specs.Prelude.{◌≡◌, ℕ, false, length, Decides};

use fond_state::cube::Cube;

/// A test of conditions over some atoms that a condition still passes with more literals.
pub trait Test {
    ghost use Rattle.fond_state.specs.Cubes.{CubeLiesIn};
    ghost use Rattle.std.specs.Prelude.{◌≡◌, ℕ, List, Bool, Option, length, Decides};

    /// The number of atoms.
    ghost width: { Self → ℕ };

    /// The conditions that pass.
    ghost passes: { Self → List (Option Bool) → Type 0 };

    /// Whether the condition passes. Overwrites `image`.
    fn passes(&self, cond: &Cube, image: &mut Cube) -> bool
        requires cond_long { length cond.now ≡ width self.now }
        requires image_long { length image.old ≡ width self.now }
        ensures same_length { length image.new ≡ length image.old }
        ensures decides { Decides result (passes self.now cond.now) };

    /// What passes also passes with more literals.
    ghost grows: { (test : Self) (cond more : List (Option Bool)) → length more ≡ length cond → CubeLiesIn more cond → passes test cond → passes test more };
}

/// Whether the condition needs its literal of the atom, if it has one. `cond` is the same afterwards.
fn needs<T: Test>(test: &T, atom: u32, cond: &mut Cube, image: &mut Cube) -> bool
    requires cond_long { length cond.old ≡ T.width test.now }
    requires image_long { length image.old ≡ T.width test.now }
    ensures kept { cond.new ≡ cond.old }
    ensures same_length { length image.new ≡ length image.old }
    ensures decides { Decides result (NeedsLiteral (T.passes test.now) cond.old atom) }
    ensures spare { result ≡ false → T.passes test.now (without_literal cond.old atom) }
{
    let Some(sign) = cond.literal(atom) else {
        return true;
    };
    cond.drop_literal(atom);
    let passes = test.passes(cond, image);
    cond.put_literal(atom, sign);
    !passes
}

/// Whether the condition needs each of its literals. `cond` is the same afterwards.
fn needs_each<T: Test>(test: &T, cond: &mut Cube, image: &mut Cube) -> bool
    requires cond_long { length cond.old ≡ T.width test.now }
    requires image_long { length image.old ≡ T.width test.now }
    ensures kept { cond.new ≡ cond.old }
    ensures same_length { length image.new ≡ length image.old }
    ensures decides { Decides result ((atom : ℕ) → NeedsLiteral (T.passes test.now) cond.old atom) }
{
    for atom in 0..cond.len() as u32 {
        if !needs(test, atom, cond, image) {
            return false;
        }
    }
    true
}

/// Whether the condition passes the test and needs each of its literals. `cond` is the same afterwards. Takes the time of one
/// test, and of one more for each literal.
pub fn is_lean<T: Test>(test: &T, cond: &mut Cube, image: &mut Cube) -> bool
    requires cond_long { length cond.old ≡ T.width test.now }
    requires image_long { length image.old ≡ T.width test.now }
    ensures kept { cond.new ≡ cond.old }
    ensures same_length { length image.new ≡ length image.old }
    ensures decides { Decides result (IsLean (T.passes test.now) cond.old) }
{
    if !test.passes(cond, image) {
        return false;
    }
    needs_each(test, cond, image)
}

/// Drops the literal of the atom, unless the condition needs it.
fn drop_spare<T: Test>(test: &T, atom: u32, cond: &mut Cube, image: &mut Cube)
    requires cond_long { length cond.old ≡ T.width test.now }
    requires image_long { length image.old ≡ T.width test.now }
    requires passes { T.passes test.now cond.old }
    ensures long { length cond.new ≡ length cond.old }
    ensures same_length { length image.new ≡ length image.old }
    ensures lies { CubeLiesIn cond.old cond.new }
    ensures passes { T.passes test.now cond.new }
    ensures needed { NeedsLiteral (T.passes test.now) cond.new atom }
{
    if needs(test, atom, cond, image) {
        return;
    }
    cond.drop_literal(atom);
}

/// Drops literals until the condition needs each that is left. One pass over the atoms is enough, since what passes also passes
/// with more literals: a literal that was needed beside more literals is needed beside fewer. Takes the time of one test for each
/// literal.
fn shorten<T: Test>(test: &T, cond: &mut Cube, image: &mut Cube)
    requires cond_long { length cond.old ≡ T.width test.now }
    requires image_long { length image.old ≡ T.width test.now }
    requires passes { T.passes test.now cond.old }
    ensures long { length cond.new ≡ length cond.old }
    ensures same_length { length image.new ≡ length image.old }
    ensures lies { CubeLiesIn cond.old cond.new }
    ensures lean { IsLean (T.passes test.now) cond.new }
{
    for atom in 0..cond.len() as u32 {
        drop_spare(test, atom, cond, image);
    }
}

/// Takes the full condition if the condition does not pass.
fn take_passing<T: Test>(test: &T, full: &Cube, cond: &mut Cube, image: &mut Cube)
    requires full_long { length full.now ≡ T.width test.now }
    requires cond_long { length cond.old ≡ T.width test.now }
    requires image_long { length image.old ≡ T.width test.now }
    requires lies { CubeLiesIn full.now cond.old }
    requires passes { T.passes test.now full.now }
    ensures long { length cond.new ≡ length cond.old }
    ensures same_length { length image.new ≡ length image.old }
    ensures lies { CubeLiesIn full.now cond.new }
    ensures passes { T.passes test.now cond.new }
{
    if test.passes(cond, image) {
        return;
    }
    cond.copy_from(full);
}

/// Makes the condition lean, with literals of `full` alone, which passes. Starts with the condition, or with `full` if the condition
/// does not pass, and drops literals. Takes the time of one test for each literal of the start and one more.
pub fn shorten_from<T: Test>(test: &T, full: &Cube, cond: &mut Cube, image: &mut Cube)
    requires full_long { length full.now ≡ T.width test.now }
    requires cond_long { length cond.old ≡ T.width test.now }
    requires image_long { length image.old ≡ T.width test.now }
    requires lies { CubeLiesIn full.now cond.old }
    requires passes { T.passes test.now full.now }
    ensures long { length cond.new ≡ length cond.old }
    ensures same_length { length image.new ≡ length image.old }
    ensures lies { CubeLiesIn full.now cond.new }
    ensures lean { IsLean (T.passes test.now) cond.new }
{
    take_passing(test, full, cond, image);
    shorten(test, cond, image);
}

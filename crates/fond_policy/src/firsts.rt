//! Ordered conditions with the actions that they choose.

use fond_state::cube::Cube;

/// Conditions in order, each with an action. If several hold in a state, the first one counts.
pub trait Firsts {
    ghost use Rattle.std.specs.Prelude.{◌≡◌, List, true, Some, length, slice_get, option_map, Decides};
    ghost use Rattle.fond_policy.specs.Items.{First, AreFirstsOver, IsFirstOn};

    ghost firsts: { Self → List First };

    /// The action of the condition of this number, if there is one.
    fn act(&self, rule: u32) -> Option<u32>
        ensures { result ≡ option_map (λ first. first.act) (slice_get (firsts self.now) rule) };

    /// Whether the condition of this number exists and is the first that holds in each state of the cube: the cube lies in it,
    /// and contradicts each condition before it.
    fn first_on(&self, rule: u32, c: &Cube) -> bool
        requires { AreFirstsOver (length c.now) (firsts self.now) }
        ensures { Decides result (IsFirstOn (firsts self.now) rule c.now) };

    /// Whether two comparisons of cubes show that the condition of the number `rule` is not the first on the cube: the cube does not
    /// lie in it, or does not contradict the condition of the number `rival`, which is before it. False is always a correct answer.
    fn is_beaten(&self, rule: u32, c: &Cube, rival: u32) -> bool
        requires { AreFirstsOver (length c.now) (firsts self.now) }
        ensures { result ≡ true → ¬ IsFirstOn (firsts self.now) rule c.now }
    {
        false
    }

    /// Notes for the atom of each literal of the cube the number of a condition before that of this number which the cube
    /// contradicts by this literal alone. Nothing is claimed of what is noted, and noting nothing is always correct.
    fn find_rivals(&self, rule: u32, c: &Cube, rivals: &mut [u32]) {}
}

//! The laws of policies that are finite maps, as the contract of a function that does nothing.

ghost use Rattle.fond_laws.specs.PolicyLaws.{GroundMapsAreCharacterized, MapsAreCharacterized};

/// A finite map of a task is no solution if and only if it is stuck or has a lasso. If it acts everywhere, a ranking makes it a
/// solution, and each solution has a least ranking. Where no action is unfair, the solutions are the strong cyclic ones: those that
/// act everywhere and keep goals in reach. Where every action is unfair, they are the strong ones, whose walks are bounded.
pub fn policies_are_characterized()
    ensures ground { GroundMapsAreCharacterized }
    ensures lifted { MapsAreCharacterized }
{}

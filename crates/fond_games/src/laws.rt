//! The laws, each the contract of a function with an empty body. They are generic in the states and the actions.

ghost use Rattle.fond_games.specs.Laws.{LassosRefute, LassosAreFound, FairSolutions, UnfairSolutions, RankingsDecide, ToursExist, KeptGraphsGoOn, KeptToursAreLassos};

/// A policy that is stuck, or that has a lasso, is no solution: the states of the closed walk are a trap. Conversely, a
/// policy that reaches finitely many states and is no solution is stuck or has a lasso: a tour of the edges that a trap
/// keeps, all of a fair choice and one of an unfair one.
pub fn lassos_decide<S, A>()
    ensures refute { LassosRefute S A }
    ensures found { LassosAreFound S A }
{}

/// Without unfair actions, a solution is a strong cyclic one (Cimatti et al. 2003).
pub fn fair_solutions_are_strong_cyclic<S, A>()
    ensures { FairSolutions S A }
{}

/// With unfair actions only, a solution is a strong one (Cimatti et al. 2003).
pub fn unfair_solutions_are_strong<S, A>()
    ensures { UnfairSolutions S A }
{}

/// A policy that acts everywhere and reaches finitely many states is a solution if and only if it has a ranking, and then one of its
/// rankings is the least.
pub fn rankings_decide<S, A>()
    ensures { RankingsDecide S A }
{}

/// In a flat graph in which each node in reach has a successor, some node in reach has a tour.
pub fn tours_exist()
    ensures { ToursExist }
{}

/// A tour of a flat graph of kept edges is the closed walk of a lasso.
pub fn kept_tours_are_lassos<S, A>()
    ensures goes_on { KeptGraphsGoOn S A }
    ensures lasso { KeptToursAreLassos S A }
{}

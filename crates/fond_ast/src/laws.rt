//! The laws of the meaning of tasks, each as the contract of a function that does nothing.

ghost use Rattle.fond_ast.specs.Laws.{OutcomesComeNext, StatesAreTheirAtoms, SuccessorsAreOutcomes, TruthIsLocal, TruthIsTested, TuplesLieInRanges};

/// The truth of a condition depends only on the variables and the predicates that occur in it.
pub fn truth_is_local()
    ensures { TruthIsLocal }
{}

/// States with the same atoms are equal.
pub fn states_are_their_atoms()
    ensures { StatesAreTheirAtoms }
{}

/// The lists of one object of each range are those whose objects lie in the ranges, place by place.
pub fn tuples_lie_in_ranges()
    ensures { TuplesLieInRanges }
{}

/// A condition holds if and only if the test says so.
pub fn truth_is_tested()
    ensures { TruthIsTested }
{}

/// The states to which the outcomes of an applicable action lead are those that may come next.
pub fn outcomes_come_next()
    ensures { OutcomesComeNext }
{}

/// The successors of a state are the states to which the outcomes of an effect lead, each once.
pub fn successors_are_outcomes()
    ensures { SuccessorsAreOutcomes }
{}

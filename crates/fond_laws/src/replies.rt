//! The laws of replies, each the contract of a function with an empty body.

ghost use Rattle.fond_laws.specs.Replies.{CorrectAreAccepted, CorrectPoliciesNeverStick, DemosAreAccepted, DuelsReachGoals, HopelessTasksAreRefused, MigratedAreAccepted, PlannedAreAccepted, ShortestAreRated, SmallTasksAreDecided, SolutionsNeverStick};

/// `check` accepts the text of each correct certificate of the task that its files describe.
pub fn correct_are_accepted()
    ensures { CorrectAreAccepted }
{}

/// `check` accepts each certificate that `plan` prints for the same files, and each such policy as lean.
pub fn planned_are_accepted()
    ensures { PlannedAreAccepted }
{}

/// `rate` accepts each certificate of least rank that `best` prints for the same files.
pub fn shortest_are_rated()
    ensures { ShortestAreRated }
{}

/// `plan` decides each task of which no more states than its budget are reachable: it prints a policy if and only if the task is
/// solvable.
pub fn small_tasks_are_decided()
    ensures { SmallTasksAreDecided }
{}

/// `plan` refuses each task whose initial state is hopeless, whatever its budget is.
pub fn hopeless_tasks_are_refused()
    ensures { HopelessTasksAreRefused }
{}

/// `check` accepts each certificate that `migrate` writes for the same files.
pub fn migrated_are_accepted()
    ensures { MigratedAreAccepted }
{}

/// `run` never prints `stuck` for rules that are a solution. Those of a policy that `check` accepts are one.
pub fn solutions_never_stick()
    ensures { SolutionsNeverStick }
{}

/// `run` never prints `stuck` for the rules of a correct policy, whoever picks the outcomes.
pub fn correct_policies_never_stick()
    ensures { CorrectPoliciesNeverStick }
{}

/// `duel` ends at a goal for each correct policy that has at most as many rules as there are steps.
pub fn duels_reach_goals()
    ensures { DuelsReachGoals }
{}

/// `check` accepts each certificate that `demo` prints for its task, as lean.
pub fn demos_are_accepted()
    ensures { DemosAreAccepted }
{}

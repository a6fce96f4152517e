//! The laws of the game, each the contract of a function with an empty body.

ghost use Rattle.fond_task.specs.GameLaws.{RanksExcludeTraps, LayersForce, RefusalsHold};

/// The rules of a correct policy certificate are a solution. Otherwise a trap would have a state whose selected rule
/// has the least number, and some outcome for which this rule has a target would lead to a state of the trap that
/// selects a smaller number.
pub fn ranks_exclude_traps()
    ensures { RanksExcludeTraps }
{}

/// A policy that reaches a state of one of the sure layers is no solution. Otherwise the states that it reaches in the
/// first layer that it meets would be a trap.
pub fn layers_force()
    ensures { LayersForce }
{}

/// A task with a correct refusal certificate is not solvable: no finite map is a solution.
pub fn refusals_hold()
    ensures { RefusalsHold }
{}

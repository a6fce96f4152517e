//! The laws of lucky steps, and of the steps that an opponent picks.

ghost use Rattle.fond_exec.specs.Duels.{DuelsEnd};
ghost use Rattle.fond_exec.specs.Lucky.{LuckyStepsDescend, LuckyStepsEnd};

/// A lucky step by sure rules leads to a goal, or to a state in which an earlier rule is the first that holds. A step is lucky
/// if an opponent picks the outcome, or if it is the one that the rule names.
pub fn lucky_steps_descend()
    ensures { LuckyStepsDescend }
{}

/// No more lucky steps come one after the other than there are sure rules, and a trace that begins with so many, and at least one, ends
/// at a goal.
pub fn lucky_steps_end()
    ensures { LuckyStepsEnd }
{}

/// If rules are sure and a solution, a run over at least as many picks of an opponent as there are rules ends at a goal: in each
/// state, the opponent picks a worst outcome of an unfair action, and chance the one that the rule names.
pub fn duels_end()
    ensures { DuelsEnd }
{}

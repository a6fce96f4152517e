//! The laws between a task and its ground task, each as the contract of a function that does nothing.

ghost use Rattle.fond_succ.specs.Laws.{GroundTasksAgree, GroundTasksPlay, OutcomesLeadAlike, StandsIsInjective, TextsAgree, TracesStand};

/// The ground task of a task plays its game.
pub fn ground_tasks_play()
    ensures { GroundTasksPlay }
{}

/// The ground task of a task agrees with it on solutions, reached states and their number, stuck runs, lassos and rankings.
pub fn ground_tasks_agree()
    ensures { GroundTasksAgree }
{}

/// The outcomes of an action lead to states that stand for those to which the outcomes of its effect lead, one by one.
pub fn outcomes_lead_alike()
    ensures { OutcomesLeadAlike }
{}

/// A state of the ground task and the one for which it stands have the same text.
pub fn texts_agree()
    ensures { TextsAgree }
{}

/// Different states stand for different ones.
pub fn stands_is_injective()
    ensures { StandsIsInjective }
{}

/// A trace of the ground task stands for one of the task, with the same lines.
pub fn traces_stand()
    ensures { TracesStand }
{}

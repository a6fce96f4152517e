//! The laws of what is the same, each as the contract of a function that does nothing.

ghost use Rattle.fond_laws.specs.Same.{GroundTasksAreAlike, TextsHaveOneTask};

/// Three texts are read as at most one task, up to addresses and capacities.
pub fn texts_have_one_task()
    ensures { TextsHaveOneTask }
{}

/// The ground tasks of a task are the same to certificates.
pub fn ground_tasks_are_alike()
    ensures { GroundTasksAreAlike }
{}

//! What holds of runs with a task loop: each law is the contract of a function without a body.

ghost use Rattle.p10_task.specs.Laws.{TasksStayAsClaimed};

/// Wherever a run comes to its task loop, for the first time and after each turn, the variables of `main` lie in the ranges that are
/// claimed of them there.
pub fn tasks_stay_as_claimed()
    ensures { TasksStayAsClaimed }
{}

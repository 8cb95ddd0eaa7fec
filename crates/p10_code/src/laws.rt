//! What holds of the code. Nothing runs here: each function stands for the laws that its contract states.

ghost use Rattle.p10_code.specs.Examples.{CodeAgrees};
ghost use Rattle.p10_code.specs.ConstantCode.{ConstantIsExact};
ghost use Rattle.p10_code.specs.Law.{CodeIsExact, RunsFollow};
ghost use Rattle.p10_code.specs.TaskCode.{FirstPartIsExact, TurnIsExact};

/// The code of small programs does what they mean, with enough steps and with too few.
pub fn code_agrees()
    ensures { CodeAgrees }
{}

/// The code of each program does what its `main` means, with each budget.
pub fn code_is_exact()
    ensures { CodeIsExact }
{}

/// The code of a program with a task loop does what the part of `main` before the loop means, and what a turn of the loop means, with
/// each budget. Where the machine rests at the loop, the frame is one in which a turn may begin.
pub fn task_code_is_exact()
    ensures first { FirstPartIsExact }
    ensures turn { TurnIsExact }
{}

/// The code of a constant expression outside functions gives what the expression means, with each budget.
pub fn constant_code_is_exact()
    ensures { ConstantIsExact }
{}

/// What a run comes to comes after the state in which it begins: no output is taken back, and no step is given back.
pub fn runs_follow()
    ensures { RunsFollow }
{}

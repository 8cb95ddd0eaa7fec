//! What holds of turns of the task loop: each law is the contract of a function without a body.

ghost use Rattle.p10_task_laws.specs.Turns.{TurnsGoOn, KeptRuleGoesOn, RunsGoOnTurning};
ghost use Rattle.p10_task_laws.specs.Answers.{CertifiedTurnsAnswer, TurnsCertifiedByRangesAnswer};
ghost use Rattle.p10_task_laws.specs.Samples.{SmallProgramsTurn};

/// In a whole program in which no statement leaves the task loop, no turn of it ends by `break` or `return`: one that doesn't end the run
/// comes to the next turn, with each budget, in every frame and state. So a program that violates row 2.2 of the rules nowhere is never
/// left by a turn, and a run that came to its task loop makes all the turns that are asked for, or ends on the way.
pub fn turns_go_on()
    ensures list { TurnsGoOn }
    ensures rule { KeptRuleGoesOn }
    ensures runs { RunsGoOnTurning }
{}

/// Within a certificate that is accepted for a whole program each turn of the task loop to which a run comes is done, fails an
/// assertion or comes to an undefined operation, and nothing else: in every world, with the budgets of the certificate's total.
pub fn certified_turns_answer()
    ensures lawful { CertifiedTurnsAnswer }
    ensures ranges { TurnsCertifiedByRangesAnswer }
{}

/// What leaves the task loops of small programs, and how their runs end, by hand. Two that aren't whole are left though no
/// statement is listed: so the laws ask for whole programs.
pub fn small_programs_turn()
    ensures { SmallProgramsTurn }
{}

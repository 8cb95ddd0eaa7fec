//! What holds of the answers: each function does nothing, and its contract is the law.

ghost use Rattle.p10_gen_command.specs.Laws.{GenHasFewStatuses, GenSaysOneThing, SuccessIsTold};

use p10_finder::laws::one_derivation;
use p10_front::laws::one_reading;
use p10_judge::laws::one_judgement;

/// Only one thing is right to say to `gen`, unless memory runs out.
pub fn one_answer_is_right()
    ensures { GenSaysOneThing }
{
    one_reading();
    one_derivation();
    one_judgement();
}

/// No other status than 0, 1, 7 and 8 is right; and 1 is right for no program but one that fails at a stage.
pub fn few_statuses_are_right()
    ensures { GenHasFewStatuses }
{}

/// With status 0 the program has a certificate that is derived and accepted, and what is reported is its total and the value that a
/// run within it has returned.
pub fn success_is_told()
    ensures { SuccessIsTold }
{}

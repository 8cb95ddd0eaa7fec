//! What holds of reports and answers: each function does nothing, and its contract is the law.

ghost use Rattle.p10_check_command.specs.Laws.{CheckSaysOneThing, OneReport};

use p10_front::laws::one_reading;

/// Gathered files have one report at most.
pub fn one_report()
    ensures { OneReport }
{
    one_reading();
}

/// Where files are told, only one thing is right to say to `check`, unless a read fails or memory runs out.
pub fn one_answer_is_right()
    ensures { CheckSaysOneThing }
{
    one_reading();
}

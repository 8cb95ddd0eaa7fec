//! What holds of the answers: the function does nothing, and its contract is the law.

ghost use Rattle.p10_verify_command.specs.Laws.{VerifySaysOneThing};

use p10_cert::laws::a_text_tells_its_statement;
use p10_front::laws::one_reading;
use p10_judge::laws::one_judgement;

/// Where files are told, only one thing is right to say to `verify`, unless a read fails or memory runs out.
pub fn one_answer_is_right()
    ensures { VerifySaysOneThing }
{
    one_reading();
    a_text_tells_its_statement();
    one_judgement();
}

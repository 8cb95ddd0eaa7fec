//! What holds of the answers: the function does nothing, and its contract is the law.

ghost use Rattle.p10_recheck_command.specs.Laws.{RecheckSaysOneThing};

use p10_cert::laws::a_text_tells_its_statement;
use p10_diff_evidence::laws::{
    a_ranked_certificate_has_no_bad_line, one_bad_line, one_list_of_ranks,
};
use p10_front::laws::one_reading;

/// Where files are told, only one thing is right to say to `recheck`, unless a read fails or memory runs out.
pub fn one_answer_is_right()
    ensures { RecheckSaysOneThing }
{
    one_reading();
    a_text_tells_its_statement();
    one_bad_line();
    a_ranked_certificate_has_no_bad_line();
    one_list_of_ranks();
}

//! What holds of judgements: the function does nothing, and its contract is the law.

ghost use Rattle.p10_judge.specs.Laws.{OneJudgement};

use p10_cert::laws::a_text_tells_its_statement;
use p10_check::laws::one_verdict;
use p10_diff_evidence::laws::{
    a_ranked_certificate_has_no_bad_line, one_bad_line, one_list_of_ranks,
};

/// The bytes of a certificate come to one thing, for a program.
pub fn one_judgement()
    ensures { OneJudgement }
{
    a_text_tells_its_statement();
    one_bad_line();
    a_ranked_certificate_has_no_bad_line();
    one_list_of_ranks();
    one_verdict();
}

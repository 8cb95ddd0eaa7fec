//! The law: its contract is that of a function which only calls other laws.

ghost use Rattle.p10_recheck_laws.specs.Laws.{RecheckTellsAsVerify};

use p10_cert::laws::a_text_tells_its_statement;
use p10_equal_words::laws::comparable_files_recheck_by_sections;

/// Where the certificate from before an edit was accepted, `recheck` tells the judgement that `verify` tells.
pub fn recheck_tells_as_verify()
    ensures { RecheckTellsAsVerify }
{
    a_text_tells_its_statement();
    comparable_files_recheck_by_sections();
}

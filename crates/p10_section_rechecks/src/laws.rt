//! The laws: each function does nothing but to call on other laws, and its contract is the law.

ghost use Rattle.p10_section_rechecks.specs.Laws.{SectionsRecheckAsWhole};

use p10_diff_evidence::laws::one_list_of_ranks;

/// The verdict after an edit is that on the whole certificate, each certificate with the evidence of its own section.
pub fn sections_recheck_as_whole()
    ensures { SectionsRecheckAsWhole }
{
    one_list_of_ranks();
}

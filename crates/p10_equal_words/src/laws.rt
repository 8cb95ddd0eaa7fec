//! The laws: each function does nothing but to call on other laws, and its contract is the law.

ghost use Rattle.p10_equal_words.specs.Completed.{WidthsMayDiffer};
ghost use Rattle.p10_equal_words.specs.Laws.{EqualWordsHaveEqualViews, ComparableFilesRecheckAsWhole, ComparableFilesRecheckBySections};

use p10_section_rechecks::laws::sections_recheck_as_whole;

/// In the same words outside of bodies and in a function two programs have one view of it.
pub fn equal_words_give_equal_views()
    ensures { EqualWordsHaveEqualViews }
{}

/// So the verdict after an edit of files is that on the whole certificate.
pub fn comparable_files_recheck_as_whole()
    ensures { ComparableFilesRecheckAsWhole }
{}

/// So it is with the evidence of the certificates' own sections.
pub fn comparable_files_recheck_by_sections()
    ensures { ComparableFilesRecheckBySections }
{
    sections_recheck_as_whole();
}

/// Why views have the scalars of own structures: those of the structures that stand for them may differ.
pub fn widths_may_differ()
    ensures { WidthsMayDiffer }
{}

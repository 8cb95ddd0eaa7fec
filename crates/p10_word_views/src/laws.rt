//! The laws: each function does nothing, and its contract is the law.

ghost use Rattle.p10_word_views.specs.Laws.{ReadingsKeepViews, FilesRecheckAsWhole};

/// Views stay where digests do, if functions of equal words have equal views.
pub fn readings_keep_views()
    ensures { ReadingsKeepViews }
{}

/// So the verdict after an edit of files is that on the whole certificate, with the evidence of ranges.
pub fn files_recheck_as_whole()
    ensures { FilesRecheckAsWhole }
{}

//! The laws: each function does nothing, and its contract is the law.

ghost use Rattle.p10_renaming.specs.Laws.{RenamedHaveOneView};
ghost use Rattle.p10_renaming.specs.SmallRenamings.{RenamingsCompared};

/// Functions that are the same but for places and numbers have one view.
pub fn renamed_have_one_view()
    ensures { RenamedHaveOneView }
{}

/// Small functions that are the same but for these.
pub fn renamings_compared()
    ensures { RenamingsCompared }
{}

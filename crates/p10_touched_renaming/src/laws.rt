//! The law: the function does nothing, and its contract is the law.

ghost use Rattle.p10_touched_renaming.specs.Laws.{TouchedRenamed};

/// Bodies that differ leave what is known outside of them the same.
pub fn touched_renamed()
    ensures { TouchedRenamed }
{}

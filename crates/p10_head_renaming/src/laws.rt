//! The laws: each function does nothing, and its contract is the law.

ghost use Rattle.p10_head_renaming.specs.Laws.{FunctionsKeepNumbers, NamesAscend, RootsTogether, TaskStays};

/// Counterparts are the same roots in both programs.
pub fn roots_together()
    ensures { RootsTogether }
{}

/// The names that trees declare outside of functions stand one after the other.
pub fn names_ascend()
    ensures { NamesAscend }
{}

/// Functions have the same numbers in both programs.
pub fn functions_keep_numbers()
    ensures { FunctionsKeepNumbers }
{}

/// The task loop of a function that is the same stands at the same place.
pub fn task_stays()
    ensures { TaskStays }
{}

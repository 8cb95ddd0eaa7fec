//! The law: the function does nothing, and its contract is the law.

ghost use Rattle.p10_root_steps.specs.Laws.{RootsTakeSteps};

/// Declarations and functions of roots, and whole roots, change what stands by such steps alone.
pub fn roots_take_steps()
    ensures { RootsTakeSteps }
{}

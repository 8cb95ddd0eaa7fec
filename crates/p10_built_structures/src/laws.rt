//! The laws: each function does nothing, and its contract is the law.

ghost use Rattle.p10_built_structures.specs.Laws.{ExternalsStayBuilt};

/// Structures that are built stay so over declarations and functions outside of functions.
pub fn externals_stay_built()
    ensures { ExternalsStayBuilt }
{}

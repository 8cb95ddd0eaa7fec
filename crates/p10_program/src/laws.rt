//! What holds of uses that nothing defines: each law is the contract of a function without a body.

ghost use Rattle.p10_program.specs.Laws.{EachUseIsTold};

/// Of the uses among nodes of what isn't defined none is left out.
pub fn each_use_is_told()
    ensures { EachUseIsTold }
{}

//! The law: the function does nothing, and its contract is the law.

ghost use Rattle.p10_block_structures.specs.Laws.{BodiesLeaveStructures};

/// Whatever is declared in a body, the structures before it are as they were.
pub fn bodies_leave_structures()
    ensures { BodiesLeaveStructures }
{}

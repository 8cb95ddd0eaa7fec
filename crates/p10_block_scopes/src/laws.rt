//! The law: the function does nothing, and its contract is the law.

ghost use Rattle.p10_block_scopes.specs.Laws.{BodiesLeaveScopes};

/// Whatever is declared in a body, the names round it stand again after it.
pub fn bodies_leave_scopes()
    ensures { BodiesLeaveScopes }
{}

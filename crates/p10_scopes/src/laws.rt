//! What is known where, exactly: each law is the contract of a function without a body.

ghost use Rattle.p10_scopes.specs.Laws.{FunctionsBeginWithParameters, PassesKnowTheirScope};

/// Where a function begins exactly its integer frame parameters are known. Where exactly the integer frame variables in scope are
/// known before a whole statement, they are at each of its ends, with its own declaration after its normal end.
pub fn scopes_are_known()
    ensures begins { FunctionsBeginWithParameters }
    ensures passes { PassesKnowTheirScope }
{}

//! What holds of executions: each law is the contract of a function without a body.

ghost use Rattle.p10_execution.specs.Laws.{StatementsLeaveWhatIsSaid, StatementsKeepTheirClaims};

/// What the pass says of a statement describes every frame that its execution leaves, for each way in which it ends, and holds of what
/// is returned. The premises are that of the calls: on arguments in the claimed ranges they give results in the claimed ranges; that
/// none of K3, K5, K6 and K7 fails in the pass; and that no variable which the statement declares is known before it. While
/// loops are tried, nothing is said of a `return`.
pub fn statements_leave_what_is_said()
    ensures { StatementsLeaveWhatIsSaid }
{}

/// An execution of a statement comes only to calls that claims cover, and enters the body of each loop at most as often as is claimed,
/// where the pass finds that the loop's rank stands or something else bounds it. The premises are those above, and that none of
/// the loops is the task loop.
pub fn statements_keep_their_claims()
    ensures { StatementsKeepTheirClaims }
{}

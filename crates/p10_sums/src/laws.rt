//! What holds of the sums: each law is the contract of a function without a body.

ghost use Rattle.p10_sums.specs.Worked.{WorkedSums};
ghost use Rattle.p10_sums.specs.CallLaws.{CallsKeepTheirClaims};
ghost use Rattle.p10_sums.specs.Laws.{ValuesTakeWhatTheyCost, StatementsTakeWhatTheyCost, CallsTakeWhatTheyCost, FirstPartsTakeWhatTheyCost, TurnsTakeWhatTheyCost};

/// What small programs cost, row by row of the table of steps, by hand.
pub fn small_programs_cost()
    ensures { WorkedSums }
{}

/// As long as each call that an execution comes to keeps what is claimed of its function, and each loop enters its body at
/// most as often as is claimed, a value, a statement and a call of a function take at most the steps that they cost, in
/// every state and with every budget: they run out of steps only where fewer were left. Calls nest at most as deep as
/// the sums say, and memory is allocated or freed only where the effect says so.
pub fn executions_take_what_they_cost()
    ensures values { ValuesTakeWhatTheyCost }
    ensures statements { StatementsTakeWhatTheyCost }
    ensures calls { CallsTakeWhatTheyCost }
{}

/// The same for `main` with a task loop: of the part up to that loop's statement step, and of each turn.
pub fn turns_take_what_they_cost()
    ensures first { FirstPartsTakeWhatTheyCost }
    ensures turns { TurnsTakeWhatTheyCost }
{}

/// A call keeps what is claimed of its function, where that is no less than what the function costs, and the calls and loops of
/// its body keep what is claimed of them: by induction on the bound of nested calls, which never counts, every call does.
pub fn calls_keep_their_claims()
    ensures { CallsKeepTheirClaims }
{}

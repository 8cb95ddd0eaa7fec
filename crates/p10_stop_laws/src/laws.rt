//! Laws of stops: each is the contract of a function without a body.

ghost use Rattle.p10_stop_laws.specs.Operators.{OperatorsStopThen, UnaryOperatorsStopThen};
ghost use Rattle.p10_stop_laws.specs.Moves.{MovesStopThen, RelationsStopThen, FreesStopThen};
ghost use Rattle.p10_stop_laws.specs.Access.{ReachesStopThen, AccessesStopThen};
ghost use Rattle.p10_stop_laws.specs.Names.{NumbersNameWhatIsThere};
ghost use Rattle.p10_stop_laws.specs.Causes.{CallsStopWithCause, RunsStopWithCause};

/// An operator on integers ends in a stop exactly where C99 leaves it undefined: a signed result that isn't representable, a divisor
/// of 0, the least value by -1, a wrong count of a shift, a value that can't be shifted to the left.
pub fn operators_stop_then()
    ensures binary { OperatorsStopThen }
    ensures unary { UnaryOperatorsStopThen }
{}

/// A pointer is moved into a stop exactly where it is null, its object is dead or it leaves its array; two pointers are ordered or
/// subtracted into one exactly where one is null, the object of one is dead, or they point into different arrays. `free` stops exactly
/// where it is given neither null nor the first place of a live allocation.
pub fn pointers_stop_then()
    ensures moves { MovesStopThen }
    ensures relations { RelationsStopThen }
    ensures frees { FreesStopThen }
{}

/// An object is reached through a pointer, and the scalar there is read and written, except exactly where that stops: the pointer is null, its object is
/// dead, no scalar stands there, the scalar is unset when it is read, or one of a string literal when it is written. A frame variable is read
/// into a stop exactly where it holds nothing.
pub fn accesses_stop_then()
    ensures reaches { ReachesStopThen }
    ensures accesses { AccessesStopThen }
{}

/// Each stop of a run of a whole program stands at a node of the program of the kind that the table of stops names for it, of operands
/// of the types that it names; so too that of a call in a sound state. The table has no row for a name that stands for nothing, and none for
/// what an initialiser writes.
pub fn stops_have_causes()
    ensures calls { CallsStopWithCause }
    ensures runs { RunsStopWithCause }
{}

/// In a whole program no call is of no function, and no name of no variable, object or string literal.
pub fn numbers_name_what_is_there()
    ensures { NumbersNameWhatIsThere }
{}

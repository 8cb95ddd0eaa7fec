//! Laws of costs: each is the contract of a function without a body.

ghost use Rattle.p10_cost_laws.specs.Exactly.{ValuesTakeTheirCost, StatementsTakeTheirCost};

/// A value and a statement without branches, loops, jumps and calls of defined functions take exactly what they cost, where they end in
/// no stop and no failed `assert`, and have the steps.
pub fn straight_statements_take_their_cost()
    ensures values { ValuesTakeTheirCost }
    ensures statements { StatementsTakeTheirCost }
{}

//! What holds of the definitions of this crate: each function does nothing, and its contract is the
//! law.

ghost use Rattle.p10_graph.specs.Laws.{EdgeIsOnCycle, NodeIsOnCycle};

/// The end of an edge reaches its beginning exactly where both have one number.
pub fn edge_is_on_cycle()
    ensures { EdgeIsOnCycle }
{}

/// A node lies on a cycle exactly where one of its edges leads to its own number.
pub fn node_is_on_cycle()
    ensures { NodeIsOnCycle }
{}

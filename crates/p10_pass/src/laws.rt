//! What holds of the pass. Nothing runs here: each function stands for the laws that its contract states.

ghost use Rattle.p10_pass.specs.SmallPasses.{CallsAtEdges, LoopsAtEdges};

/// Which conditions of calls and returns fail in small functions, and what these return.
pub fn calls_at_edges()
    ensures { CallsAtEdges }
{}

/// Which conditions of loops fail in small functions: at entry, on the way back, and of the rank.
pub fn loops_at_edges()
    ensures { LoopsAtEdges }
{}

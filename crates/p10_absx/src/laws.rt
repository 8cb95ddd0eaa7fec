//! What holds of abstract values and environments. Nothing runs here: each function stands for the laws that its contract
//! states.

ghost use Rattle.p10_absx.specs.Examples.{ValuesAtEdges, OffsetsAtEdges, TestsAtEdges};

/// The rows of values, of offsets and of tests, at small values written out.
pub fn rows_at_edges()
    ensures values { ValuesAtEdges }
    ensures offsets { OffsetsAtEdges }
    ensures tests { TestsAtEdges }
{}

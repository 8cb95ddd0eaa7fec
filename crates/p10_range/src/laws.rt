//! What holds of the rows for all operators, types and ranges. Nothing runs here: each function
//! stands for the law that its contract states.

ghost use Rattle.p10_range.specs.Laws.{
  HoldsResults,
  HoldsUnaryResults,
  HoldsConversions,
  RowsAreMonotone,
  UnaryRowsAreMonotone,
  ConversionRowsAreMonotone,
  RowsAreOfType,
  UnaryRowsAreOfType,
  ConversionRowsAreOfType,
  RowsHavePairs,
  UnaryRowsHaveNumbers,
  HullIsLeast,
  MeetIsCommonPart,
  WithinIsInclusion,
};
ghost use Rattle.p10_range.specs.Edges.{BinaryRowsAtEdges, UnaryRowsAtEdges, ConversionsAtEdges};

/// The range of an operator has every result on numbers of its operands. So where it has none,
/// every pair stops.
pub fn ranges_hold_results()
    ensures binary { HoldsResults }
    ensures unary { HoldsUnaryResults }
{}

/// The range of a conversion has every converted number.
pub fn ranges_hold_conversions()
    ensures { HoldsConversions }
{}

/// Wider operands have wider ranges, and where the narrower ones have a range, so have they.
pub fn ranges_are_monotone()
    ensures binary { RowsAreMonotone }
    ensures unary { UnaryRowsAreMonotone }
    ensures conversion { ConversionRowsAreMonotone }
{}

/// A range of results has a number, and lies in the type.
pub fn ranges_are_of_the_type()
    ensures binary { RowsAreOfType }
    ensures unary { UnaryRowsAreOfType }
    ensures conversion { ConversionRowsAreOfType }
{}

/// Where there is a range, some pair of numbers has a result. The one exception is the least value
/// of a signed type divided by -1, which stops (C99 6.5.5p6).
pub fn ranges_have_pairs()
    ensures binary { RowsHavePairs }
    ensures unary { UnaryRowsHaveNumbers }
{}

/// The hull is the least range over both, the meeting is the common part, and a range lies within
/// another where each of its numbers does.
pub fn ranges_are_sets()
    ensures hull { HullIsLeast }
    ensures meet { MeetIsCommonPart }
    ensures within { WithinIsInclusion }
{}

/// The rows at zero divisors, the ends of each type, and counts off the width, as written out.
pub fn ranges_at_edges()
    ensures binary { BinaryRowsAtEdges }
    ensures unary { UnaryRowsAtEdges }
    ensures conversion { ConversionsAtEdges }
{}

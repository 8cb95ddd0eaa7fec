//! What ranks and evidence are worth: each law is the contract of a function without a body.

ghost use Rattle.p10_turns.specs.Laws.{RanksBoundTurns, RangesAreLawful, LoopsAreNumbered};
ghost use Rattle.p10_turns.specs.SmallEvidence.{EvidenceAtEdges};

/// A loop enters its body at most as often as is claimed, where the claimed ranges hold at its entry and on each way back, and its rank
/// is at least 1 where the body is entered, has fallen on each way back and isn't over the turns at entry: all of this by a pass in
/// which nothing else of the loop fails, and where calls that claims cover give results in the claimed ranges.
pub fn ranks_bound_turns()
    ensures { RanksBoundTurns }
{}

/// Where the evidence of ranges stands for a loop, an entry environment and a claim, the loop enters its body at most as often as is
/// claimed, from each sound state and each frame that the ranges of the entry environment describe.
pub fn ranges_are_lawful()
    ensures { RangesAreLawful }
{}

/// The loop of which the evidence of ranges is asked by a number is the one that has it.
pub fn loops_are_numbered()
    ensures { LoopsAreNumbered }
{}

/// For which claims of loops in small functions the evidence of ranges stands.
pub fn evidence_at_edges()
    ensures { EvidenceAtEdges }
{}

//! What the walk is worth: each law is the contract of a function without a body.

ghost use Rattle.p10_walk.specs.Laws.{RangesAreSound, RangesOfWalksHold, RanksOverRangesBoundTurns};
ghost use Rattle.p10_walk.specs.SmallWalks.{WalksAtEdges};

/// Ranges are a sound domain: what is known of variables after each operation holds in every frame that comes of it.
pub fn ranges_are_sound()
    ensures { RangesAreSound }
{}

/// A statement leaves a frame as the walk over ranges says, for each way in which it ends but for `return`.
pub fn ranges_of_walks_hold()
    ensures { RangesOfWalksHold }
{}

/// A loop enters its body at most as often as a rank says that is at least 1 where the body is entered, and falls on each way back, by
/// the walk over ranges.
pub fn ranks_over_ranges_bound_turns()
    ensures { RanksOverRangesBoundTurns }
{}

/// What the walk over ranges knows at the ends of small statements and loops.
pub fn walks_at_edges()
    ensures { WalksAtEdges }
{}

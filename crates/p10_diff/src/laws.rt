//! What the evidence of differences is worth: each law is the contract of a function without a body.

ghost use Rattle.p10_diff.specs.Laws.{DifferencesAreSound, DifferencesAreLawful};
ghost use Rattle.p10_diff.specs.SmallDifferences.{DifferencesAtEdges};

/// Ranges with bounds of differences are a sound domain: what is known after each operation holds in every frame that comes of it.
pub fn differences_are_sound()
    ensures { DifferencesAreSound }
{}

/// Where the evidence of differences stands for a loop, an entry environment and a claim, the loop enters its body at most as often as
/// is claimed, from each sound state and each frame that the ranges of the entry environment describe.
pub fn differences_are_lawful()
    ensures { DifferencesAreLawful }
{}

/// For which loops in small functions a rank stands.
pub fn differences_at_edges()
    ensures { DifferencesAtEdges }
{}

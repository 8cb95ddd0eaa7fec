//! What is said of small statements and programs. Nothing runs here: each function stands for the law that its contract states.

ghost use Rattle.p10_clean.specs.Examples.{OperatorsAtEdges, PlacesAtEdges, SettingsAsked};
ghost use Rattle.p10_clean.specs.SmallSettings.{BranchesSet, LoopsSet, SwitchesSet};

/// What assignments, declarations and branches set.
pub fn branches_set()
    ensures { BranchesSet }
{}

/// What loops set.
pub fn loops_set()
    ensures { LoopsSet }
{}

/// What a `switch` sets.
pub fn switches_set()
    ensures { SwitchesSet }
{}

/// Which operators are clean, by the ranges of their operands.
pub fn operators_at_edges()
    ensures { OperatorsAtEdges }
{}

/// Which indices, pointers and literals are.
pub fn places_at_edges()
    ensures { PlacesAtEdges }
{}

/// Which reads, declarations and functions are, and which condition is answered first.
pub fn settings_asked()
    ensures { SettingsAsked }
{}

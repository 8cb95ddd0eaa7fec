//! What follows from the definitions.

ghost use Rattle.p10_fit.specs.Laws.{FitSpeaks, SpeakingFits};

/// A certificate that differs from the program at no function has a claim for each function that speaks of it, and no other.
pub fn fit_speaks()
    ensures { FitSpeaks }
{}

/// A certificate with a claim for each function that speaks of it, and no other, differs from the program at no function.
pub fn speaking_fits()
    ensures { SpeakingFits }
{}

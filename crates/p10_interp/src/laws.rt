//! What holds of whole runs. Nothing runs here: the function stands for the law that its contract states.

ghost use Rattle.p10_interp.specs.Stages.{RunsByStages};

/// A run is its first part, which is `main` up to its task loop or all of it, and then one turn after another, each from the
/// state and the frame that the one before left.
pub fn runs_come_in_stages()
    ensures { RunsByStages }
{}

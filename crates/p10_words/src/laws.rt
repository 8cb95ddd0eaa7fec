//! What holds of command lines. Nothing runs here: the function stands for the law that its
//! contract states.

ghost use Rattle.p10_words.specs.Laws.{LinesAreOneCommand};

/// A command line is one command at most.
pub fn lines_are_one_command()
    ensures { LinesAreOneCommand }
{}

//! What holds of the programs. The functions do nothing; their contracts are the laws.

ghost use Rattle.p10_gen.specs.Laws.{ExamplesAreGenerated, HasLines};

/// The programs of no function, of one and of two.
pub fn examples_are_generated()
    ensures { ExamplesAreGenerated }
{}

/// A program has 12 lines for each of its functions, and 5 more.
pub fn a_program_has_lines()
    ensures { HasLines }
{}

//! What holds of the lines and texts. The functions do nothing; their contracts are the laws.

ghost use Rattle.p10_report.specs.Laws.{ExampleIsTold, RefusalLineIsItsText};

/// The line of a refusal is its text and a line end.
pub fn refusal_line_is_its_text()
    ensures { RefusalLineIsItsText }
{}

/// A violation of a small file, as a line and as JSON.
pub fn example_is_told()
    ensures { ExampleIsTold }
{}

//! Laws of the definitions, each the contract of a function that does nothing.

ghost use Rattle.p10_expand.specs.Gathering.{EndsOnce};
ghost use Rattle.p10_expand.specs.Gathered.{RootsAreNamed, FilesAreKnown, HeadersHaveTheirTexts};

/// Where files are told, gathering ends in one way only.
pub fn ends_once()
    ensures { EndsOnce }
{}

/// There is a root for each name, in their order, and its file has that name.
pub fn roots_are_named()
    ensures { RootsAreNamed }
{}

/// Where files are told, each gathered file stands at a place of its own, and is reached by a chain of at most 65
/// includes; the include lines of one that is reached by fewer are linked exactly to the first files that are found for
/// them.
pub fn files_are_known()
    ensures { FilesAreKnown }
{}

/// Where files are told, a built-in header for which an include stands has the text of the one that the include
/// names.
pub fn headers_have_their_texts()
    ensures { HeadersHaveTheirTexts }
{}

//! What holds of the names of programs that are read: each law is the contract of a function without a body.

ghost use Rattle.p10_names.specs.Laws.{DefinitionsHaveNames, ReadingsArePrograms, ProgramsAreNamed, DerivedCertificatesOfFilesHaveText};

/// In trees that spell the words of expanded files each function is defined by a name of C.
pub fn definitions_have_names()
    ensures { DefinitionsHaveNames }
{}

/// What files are read as is a typed program of these files.
pub fn readings_are_programs()
    ensures { ReadingsArePrograms }
{}

/// The functions of a typed program of files have names of C, and the one where it begins is called `main`; so a certificate that is
/// derived of it, where it is whole, has a text.
pub fn programs_are_named()
    ensures named { ProgramsAreNamed }
    ensures texts { DerivedCertificatesOfFilesHaveText }
{}

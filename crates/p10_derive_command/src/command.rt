//! The command.

use p10_base::{ListBuf, TextBuf};

/// `derive [--include DIRECTORIES] [--cert-version 1|2 | --diff] SOURCE..`
#[derive(Drop)]
pub struct DeriveCommand {
    /// The directories in which included files are looked for, in their order.
    pub directories: ListBuf<TextBuf>,
    /// The version of the certificate's text: 2, or else 1.
    pub version: u8,
    /// Whether two variables that approach each other may bound a loop's turns; the version is 2 then.
    pub diff: bool,
    /// The names of the source files.
    pub sources: ListBuf<TextBuf>,
}

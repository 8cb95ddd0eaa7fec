//! The command.

use p10_base::{ListBuf, TextBuf};

/// `check [--include DIRECTORIES] [--format text|json] SOURCE..`
#[derive(Drop)]
pub struct CheckCommand {
    /// The directories in which included files are looked for, in their order.
    pub directories: ListBuf<TextBuf>,
    /// Whether the report is written as JSON, and not as lines.
    pub json: bool,
    /// The names of the source files.
    pub sources: ListBuf<TextBuf>,
}

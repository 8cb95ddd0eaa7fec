//! What comes of one line.

use p10_base::Refusal;

/// What comes of a line of a file.
#[derive(Clone, Copy)]
pub enum Step {
    /// The line after it; whether the condition of this one holds, which counts for nothing where it has none.
    On(bool),
    /// The lines of a file, and then the line after it; `built_in` says whether the file is a built-in header.
    Enter { number: u32, built_in: bool },
    /// Nothing more: the line, or a use of a macro in it, is refused.
    Refused(Refusal),
}

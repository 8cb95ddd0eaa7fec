//! Where an included file is looked for.

use p10_base::{ListBuf, TextBuf};

/// One candidate of an include line, or a gathered file.
#[derive(Drop)]
pub enum Place {
    /// The file with this name.
    File(TextBuf),
    /// The built-in header with this name, which is given without its brackets.
    Header(ListBuf<u8>),
}

/// What an include line names (C99 6.10.2).
#[derive(Drop)]
pub struct Include {
    /// The text between the quotes or the angle brackets.
    pub name: ListBuf<u8>,
    /// Whether the name stands between angle brackets.
    pub angle: bool,
}

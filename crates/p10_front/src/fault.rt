//! Why files aren't read.

use p10_base::Limit;

/// Why the files of a program are read as nothing.
#[derive(Clone, Copy, Debug)]
pub enum FrontFault {
    /// A limit is exceeded before a refusal: M3, M4 or M6 by expansion, M5 by the nesting of a root's words, M8 by something of the
    /// program that is too large.
    Over(Limit),
    /// Out of memory.
    Memory,
}

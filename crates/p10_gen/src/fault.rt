//! Why there is no program.

use p10_base::Limit;

/// Why a program isn't generated.
#[derive(Clone, Copy, Debug, PartialEq, Eq)]
pub enum GenFault {
    /// A limit is exceeded: M1, the bytes of a source file.
    Over(Limit),
    /// Out of memory.
    Memory,
}

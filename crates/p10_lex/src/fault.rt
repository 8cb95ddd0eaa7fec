//! Why a file has no words.

use p10_base::{Limit, Refusal};
use thiserror::Error;

/// Why lexing gives no words.
#[derive(Clone, Copy, Debug, Error)]
pub enum LexFault {
    /// A row of X1 to X6 holds, and no row before it.
    #[error("the source is refused")]
    Refused(Refusal),
    /// The file has too many bytes (M1), or too many words before any refusal (M2).
    #[error("a limit is passed")]
    Over(Limit),
    /// Out of memory.
    #[error("out of memory")]
    Memory,
}

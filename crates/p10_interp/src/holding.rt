//! Where the outside is needed before the next act.

use crate::outside::Outside;
use crate::stacks::Stacks;
use crate::work::{Operation, Work};
use p10_core::Library;

/// How many bytes are taken from a source at most at a time, and how many wait before they are written to a sink.
pub const PIECE: usize = 4096;

/// Whether the outside is needed before the next act: a piece of output waits, or the act takes a byte of input and none is
/// pending. What comes of a run doesn't depend on where it pauses, so no clause says where.
pub fn is_held(stacks: &Stacks<'_>, outside: &Outside) -> bool {
    is_full(outside) || is_starved(stacks, outside)
}

/// Whether a piece of output waits.
pub fn is_full(outside: &Outside) -> bool {
    outside.waiting.len() >= PIECE
}

/// Whether the next act takes a byte of input, and none is pending.
pub fn is_starved(stacks: &Stacks<'_>, outside: &Outside) -> bool {
    outside.pending.is_empty() && takes_byte(stacks.tasks.top())
}

/// Whether a piece of work takes a byte of input.
pub fn takes_byte(work: Option<Work<'_>>) -> bool {
    match work {
        Some(work) => match work {
            Work::Operate(operation) => is_getchar(operation),
            _ => false,
        },
        None => false,
    }
}

/// Whether an operation is a call of `getchar`.
fn is_getchar(operation: Operation<'_>) -> bool {
    match operation {
        Operation::CallLibrary(function, _, _, _) => function == Library::Getchar,
        _ => false,
    }
}

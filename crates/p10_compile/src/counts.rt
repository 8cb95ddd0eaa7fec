//! Numbers of slots, blocks, steps and places. One that doesn't fit its type is more than memory could hold.

ghost use Rattle.std.specs.Prelude.{◌≡◌, ◌+◌, IfOk};

use std::alloc::AllocError;

/// A slot, or a number of blocks, and more after it.
pub fn slot_after(slot: u32, more: u32) -> Result<u32, AllocError>
    ensures { IfOk result (λ n. n ≡ slot + more) }
{
    match slot.checked_add(more) {
        Some(n) => Ok(n),
        None => Err(AllocError),
    }
}

/// One step more.
pub fn step_more(debt: u64) -> Result<u64, AllocError>
    ensures { IfOk result (λ n. n ≡ debt + 1) }
{
    match debt.checked_add(1) {
        Some(n) => Ok(n),
        None => Err(AllocError),
    }
}

/// A place, and more after it.
pub fn place_after(at: usize, more: usize) -> Result<usize, AllocError>
    ensures { IfOk result (λ n. n ≡ at + more) }
{
    match at.checked_add(more) {
        Some(n) => Ok(n),
        None => Err(AllocError),
    }
}

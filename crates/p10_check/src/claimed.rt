//! What is claimed of functions by their numbers; of those that a certificate doesn't have nothing is.

ghost use Rattle.std.specs.Prelude.{◌≡◌, map, option_copied, option_map, slice_get};
ghost use Rattle.p10_core.specs.declared.statements.LoopHead.{LoopHead};
ghost use Rattle.p10_cert.specs.Claims.{func_of, loop_of};
ghost use Rattle.p10_sums.specs.Counting.{loops_claimed, steps_claimed, calls_claimed, bytes_claimed, alloc_claimed, turns_claimed};
ghost use Rattle.p10_check.specs.Shapes.{rank_claimed, turn_claimed};
ghost use Rattle.p10_check.specs.private.ShapesByTurn.{turn_at};

use p10_cert::{FuncClaim, LoopClaim};
use p10_core::LoopHead;

/// The numbers that are claimed of a function.
#[derive(Clone, Copy)]
pub(crate) struct Numbers {
    pub rank: u32,
    pub steps: u64,
    pub calls: u64,
    pub bytes: u64,
    pub alloc: bool,
}

/// The numbers that are claimed of the function with a number.
pub(crate) fn numbers_claimed(functions: &[FuncClaim], number: usize) -> Numbers
    ensures rank { result.rank ≡ rank_claimed (slice_get (map func_of functions.now) number) }
    ensures steps { result.steps ≡ steps_claimed (slice_get (map func_of functions.now) number) }
    ensures calls { result.calls ≡ calls_claimed (slice_get (map func_of functions.now) number) }
    ensures bytes { result.bytes ≡ bytes_claimed (slice_get (map func_of functions.now) number) }
    ensures alloc { result.alloc ≡ alloc_claimed (slice_get (map func_of functions.now) number) }
{
    match claim_at(functions, number) {
        Some(claim) => Numbers {
            rank: claim.rank,
            steps: claim.steps,
            calls: claim.calls,
            bytes: claim.bytes,
            alloc: claim.alloc,
        },
        None => Numbers {
            rank: 0,
            steps: 0,
            calls: 0,
            bytes: 0,
            alloc: false,
        },
    }
}

/// What is claimed of the function with a number.
pub(crate) fn claim_at(functions: &[FuncClaim], number: usize) -> Option<&FuncClaim>
    ensures { option_map func_of (option_copied result) ≡ slice_get (map func_of functions.now) number }
{
    functions.get(number)
}

/// The steps that are claimed of a turn of the task loop of the function with a number; 0 where it has none.
pub(crate) fn turn_claimed(functions: &[FuncClaim], number: usize, head: Option<LoopHead>) -> u64
    ensures { result ≡ turn_claimed (map func_of functions.now) number head }
{
    match head {
        Some(head) => turns_claimed(loops_claimed(functions, number), head.number),
        None => 0,
    }
}

/// The steps that claims on loops give a turn of the task loop; 0 where there is none.
pub(crate) fn turn_at(loops: &[LoopClaim], head: Option<LoopHead>) -> u64
    ensures { result ≡ turn_at (map loop_of loops.now) head }
{
    match head {
        Some(head) => turns_claimed(loops, head.number),
        None => 0,
    }
}

/// What is claimed of the loops of the function with a number.
pub(crate) fn loops_claimed(functions: &[FuncClaim], number: usize) -> &[LoopClaim]
    ensures { map loop_of result.now ≡ loops_claimed (slice_get (map func_of functions.now) number) }
{
    match claim_at(functions, number) {
        Some(claim) => claim.loops.as_slice(),
        None => &[],
    }
}

/// The turns that are claimed of the loop with a number.
fn turns_claimed(loops: &[LoopClaim], number: u32) -> u64
    ensures { result ≡ turns_claimed (slice_get (map loop_of loops.now) number) }
{
    match loop_at(loops, number) {
        Some(claim) => claim.turns,
        None => 0,
    }
}

/// What is claimed of the loop with a number.
pub(crate) fn loop_at(loops: &[LoopClaim], number: u32) -> Option<&LoopClaim>
    ensures { option_map loop_of (option_copied result) ≡ slice_get (map loop_of loops.now) number }
{
    loops.get(number as usize)
}

//! What trees are counted under.

ghost use Rattle.std.specs.Prelude.{◌≡◌, map, option_map, option_copied, slice_get};
ghost use Rattle.p10_core.specs.Views.{plain_variable};
ghost use Rattle.p10_cert.specs.Claims.{func_of, loop_of};
ghost use Rattle.p10_sums.specs.Counting.{turns_claimed};
ghost use Rattle.p10_sums.specs.private.Tallies.{counting_by};

use p10_cert::{FuncClaim, LoopClaim};
use p10_core::{Program, Variable};

/// The program and the variables of a function, and what is claimed of functions and of the function's loops.
#[derive(Clone, Copy)]
pub(crate) struct Basis<'a, 's> {
    pub program: &'a Program<'s>,
    pub variables: &'a [Variable<'s>],
    pub functions: &'a [FuncClaim],
    pub loops: &'a [LoopClaim],
}

/// The variable with a number.
pub(crate) fn variable_at<'a, 's>(
    variables: &'a [Variable<'s>],
    number: u32,
) -> Option<&'a Variable<'s>>
    ensures { option_map plain_variable (option_copied result) ≡ slice_get (map plain_variable variables.now) number }
{
    variables.get(number as usize)
}

/// What is claimed of the function with a number.
pub(crate) fn claim_at(functions: &[FuncClaim], number: usize) -> Option<&FuncClaim>
    ensures { option_map func_of (option_copied result) ≡ slice_get (map func_of functions.now) number }
{
    functions.get(number)
}

/// What is claimed of the loop with a number.
pub(crate) fn loop_at(loops: &[LoopClaim], number: u32) -> Option<&LoopClaim>
    ensures { option_map loop_of (option_copied result) ≡ slice_get (map loop_of loops.now) number }
{
    loops.get(number as usize)
}

/// The turns that are claimed of the loop with a number; none where nothing is claimed.
pub(crate) fn turns_of(basis: &Basis<'_, '_>, number: u32) -> u64
    ensures { result ≡ turns_claimed (slice_get (counting_by basis.now).loops number) }
{
    match loop_at(basis.loops, number) {
        Some(claim) => claim.turns,
        None => 0,
    }
}

//! The evidence of ranges.

ghost use Rattle.std.specs.Prelude.{◌≡◌, slice_get, Some, IfOk};
ghost use Rattle.std.specs.Option.{option_map, option_copied};
ghost use Rattle.p10_core.specs.Views.{plain_function, plain_program};
ghost use Rattle.p10_cert.specs.Claims.{loop_of};
ghost use Rattle.p10_turns.specs.Evidence.{stands_in, stands_by_ranges};

use crate::rounds::loop_stands;
use crate::seeking::loop_among;
use p10_absx::Env;
use p10_cert::LoopClaim;
use p10_check::Evidence;
use p10_core::{Func, Program};
use std::alloc::{AllocError, Global};

/// Stands for the loops whose claims hold by a trial pass (`stands_by_ranges` in `p10_turns`).
#[derive(Clone, Copy, Debug, PartialEq, Eq)]
pub struct RangeEvidence;

impl Evidence for RangeEvidence {
    ghost standing = { λ _. stands_by_ranges };

    fn stands(
        &self,
        alloc: Global,
        p: &Program<'_>,
        f: u32,
        at: u32,
        entry: &Env,
        claim: &LoopClaim,
    ) -> Result<bool, AllocError> {
        stands_in(alloc, function_at(p, f), at, entry, claim)
    }
}

/// The function with a number.
fn function_at<'p, 's>(p: &'p Program<'s>, f: u32) -> Option<&'p Func<'s>>
    ensures { option_map plain_function (option_copied result) ≡ slice_get (plain_program p.now).functions f }
{
    p.functions.as_slice().get(f as usize)
}

/// Whether the evidence stands for the loop with number `at` of a function, if it is there.
fn stands_in(
    alloc: Global,
    function: Option<&Func<'_>>,
    at: u32,
    entry: &Env,
    claim: &LoopClaim,
) -> Result<bool, AllocError>
    ensures { IfOk result (λ b. b ≡ stands_in (option_map plain_function (option_copied function.entry)) at entry.now.values (loop_of claim.now)) }
{
    match function {
        Some(function) => stands_among(alloc, function, at, entry, claim),
        None => Ok(false),
    }
}

/// The same for a function that is there.
fn stands_among(
    alloc: Global,
    function: &Func<'_>,
    at: u32,
    entry: &Env,
    claim: &LoopClaim,
) -> Result<bool, AllocError>
    ensures { IfOk result (λ b. b ≡ stands_in (Some (plain_function function.now)) at entry.now.values (loop_of claim.now)) }
{
    match loop_among(function.body.as_slice(), at) {
        Some(s) => loop_stands(alloc, function.vars.as_slice(), s, entry, claim),
        None => Ok(false),
    }
}

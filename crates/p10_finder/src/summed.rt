//! Claims with sums.

ghost use Rattle.std.specs.Prelude.{◌≡◌, ◌≤◌, ◌++◌, ◌∷◌, [], map, length, IfOk, OnOk};
ghost use Rattle.p10_cert.specs.Claims.{loop_of, func_of};
ghost use Rattle.p10_finder.specs.Functions.{with_turn_steps};
ghost use Rattle.p10_finder.specs.private.Counting.{turns_by, with_sum as claim_with_sum, with_sums as claims_with_sums};

use p10_base::ListBuf;
use p10_cert::{FuncClaim, LoopClaim, Rank};
use p10_sums::FuncSum;
use std::alloc::{AllocError, Global};

/// The claims with these sums, one for each.
pub(crate) fn with_sums(
    alloc: Global,
    claims: &[FuncClaim],
    sums: &[FuncSum],
) -> Result<Vec<FuncClaim>, AllocError>
    requires { length claims.now ≤ length sums.now }
    ensures { IfOk result (λ funcs. map func_of funcs.items ≡ claims_with_sums (map func_of claims.now) sums.now) }
{
    let mut funcs = Vec::with_capacity(alloc, claims.len())?;
    for (n, claim) in claims.iter().enumerate() {
        let summed = with_sum(alloc, claim, sums[n])?;
        funcs.push(summed)?;
    }
    Ok(funcs)
}

/// The claim with this sum.
pub(crate) fn with_sum(
    alloc: Global,
    claim: &FuncClaim,
    sum: FuncSum,
) -> Result<FuncClaim, AllocError>
    ensures { IfOk result (λ summed. func_of summed ≡ claim_with_sum sum (func_of claim.now)) }
{
    let name = Vec::from_slice(alloc, claim.name.as_slice())?;
    let params = Vec::from_slice(alloc, claim.params.as_slice())?;
    let loops = with_turn(alloc, claim.loops.as_slice(), sum.turn)?;
    Ok(FuncClaim {
        name: ListBuf::of(name),
        rank: claim.rank,
        steps: sum.steps,
        calls: sum.calls,
        bytes: sum.bytes,
        alloc: sum.alloc,
        params: ListBuf::of(params),
        result: claim.result,
        loops: ListBuf::of(loops),
    })
}

/// Claims on loops with the steps of a turn of the task.
fn with_turn(alloc: Global, claims: &[LoopClaim], steps: u64) -> Result<Vec<LoopClaim>, AllocError>
    ensures { IfOk result (λ loops. map loop_of loops.items ≡ map (with_turn_steps steps) (map loop_of claims.now)) }
{
    let mut loops = Vec::with_capacity(alloc, claims.len())?;
    for claim in claims {
        push_with_turn(alloc, claim, steps, &mut loops)?;
    }
    Ok(loops)
}

/// Puts a claim on a loop after others, with the steps of a turn if it is the task.
fn push_with_turn(
    alloc: Global,
    claim: &LoopClaim,
    steps: u64,
    loops: &mut Vec<LoopClaim>,
) -> Result<(), AllocError>
    ensures { OnOk result (map loop_of loops.new.items ≡ map loop_of loops.old.items ++ with_turn_steps steps (loop_of claim.now) ∷ []) }
{
    let inv = claim.inv.copy(alloc)?;
    let turns = turns_with(claim.rank, claim.turns, steps);
    loops.push(LoopClaim {
        depth: claim.depth,
        rank: claim.rank,
        turns,
        inv,
    })?;
    Ok(())
}

/// The turns of a loop, or the steps of a turn if it is the task.
fn turns_with(rank: Rank, turns: u64, steps: u64) -> u64
    ensures { result ≡ turns_by rank turns steps }
{
    match rank {
        Rank::Task => steps,
        Rank::Up { .. } | Rank::Down { .. } | Rank::One => turns,
    }
}

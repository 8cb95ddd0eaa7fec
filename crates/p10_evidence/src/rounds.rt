//! A trial round of a loop, and whether a claim holds by it.

ghost use Rattle.std.specs.Prelude.{◌≡◌, map, IfOk};
ghost use Rattle.p10_core.specs.Views.{plain_variable, plain_statement};
ghost use Rattle.p10_cert.specs.Claims.{loop_of};
ghost use Rattle.p10_pass.specs.Claiming.{ranges_hold};
ghost use Rattle.p10_pass.specs.Rounds.{round_by};
ghost use Rattle.p10_turns.specs.Evidence.{loop_stands};
ghost use Rattle.p10_turns.specs.Ranked.{is_ranked};
ghost use Rattle.p10_turns.specs.LoopParts.{parts_of};
ghost use Rattle.p10_evidence.specs.private.Trials.{rank_holds, round_stands};

use p10_absx::Env;
use p10_cert::{LoopClaim, Rank};
use p10_core::{Stmt, Variable};
use p10_pass::{
    Manner, Round, enters_ranked, goes_back_ranked, head_under, is_enough, one_round, ranges_hold,
};
use std::alloc::{AllocError, Global};

/// Whether a claim on a loop holds by a trial round from the head that it gives the loop at an entry; for a statement that is no loop
/// nothing holds.
pub(crate) fn loop_stands(
    alloc: Global,
    variables: &[Variable<'_>],
    s: &Stmt,
    entry: &Env,
    claim: &LoopClaim,
) -> Result<bool, AllocError>
    ensures { IfOk result (λ b. b ≡ loop_stands (map plain_variable variables.now) (parts_of (plain_statement s.now)) entry.now.values (loop_of claim.now)) }
{
    let trial = Manner {
        calls: None,
        loops: None,
        result: None,
        variables,
    };
    let head = head_under(alloc, claim, variables, entry)?;
    match one_round(alloc, &trial, s, head)? {
        Some(round) => {
            let stands = round_stands(alloc, variables, &round, entry, claim)?;
            Ok(stands)
        }
        None => Ok(false),
    }
}

/// Whether a claim holds by a round: its rank, and its ranges at entry and on each way back.
fn round_stands(
    alloc: Global,
    variables: &[Variable<'_>],
    round: &Round,
    entry: &Env,
    claim: &LoopClaim,
) -> Result<bool, AllocError>
    ensures { IfOk result (λ b. b ≡ round_stands (map plain_variable variables.now) (round_by round.now) entry.now.values (loop_of claim.now)) }
{
    if !rank_holds(claim, round, entry) {
        return Ok(false);
    }
    if !holds_at_entry(alloc, variables, entry, claim)? {
        return Ok(false);
    }
    ranges_hold(alloc, claim, variables, &round.back)
}

/// Whether a claim's ranges hold at an entry.
fn holds_at_entry(
    alloc: Global,
    variables: &[Variable<'_>],
    entry: &Env,
    claim: &LoopClaim,
) -> Result<bool, AllocError>
    ensures { IfOk result (λ b. b ≡ ranges_hold (loop_of claim.now) 0 (map plain_variable variables.now) entry.now.values) }
{
    let known = Some(entry.copy(alloc)?);
    let hold = ranges_hold(alloc, claim, variables, &known)?;
    Ok(hold)
}

/// Whether a claim's rank bounds its turns by a round.
fn rank_holds(claim: &LoopClaim, round: &Round, entry: &Env) -> bool
    ensures { result ≡ rank_holds (loop_of claim.now) entry.now.values (round_by round.now) }
{
    is_ranked(claim.rank)
        && enters_ranked(claim.rank, &round.enters)
        && goes_back_ranked(claim.rank, &round.back)
        && is_enough(claim.turns, claim.rank, entry)
}

/// Whether a rank is of a loop that ends.
fn is_ranked(rank: Rank) -> bool
    ensures { result ≡ is_ranked rank }
{
    match rank {
        Rank::Task => false,
        Rank::Up { var: _, bound: _ } => true,
        Rank::Down { var: _, bound: _ } => true,
        Rank::One => true,
    }
}

//! Which candidate's claim stands by itself, and what a loop counts with.

ghost use Rattle.std.specs.Prelude.{◌≡◌, map, IfOk, Some};
ghost use Rattle.std.specs.Option.{option_map};
ghost use Rattle.p10_cert.specs.Claims.{loop_of};
ghost use Rattle.p10_candidates.specs.Offering.{candidate_by, entry_by, rounds_by, loop_found_by};
ghost use Rattle.p10_absx.specs.Branches.{unbranched};
ghost use Rattle.p10_candidates.specs.Candidates.{candidates as candidates_of};
ghost use Rattle.p10_candidates.specs.Trials.{tried_head as tried_of, claim_of as claim_by_trial, stands_alone as stands_of, first_standing as first_of, found_by as found_of, loop_found as loop_found_of, task_found as task_found_of, unreached_found as unreached_of};

use crate::changing::{any_trial, head_after};
use crate::claims::{claim_by, turns_from};
use crate::entry::LoopEntry;
use crate::guard::{Candidate, candidates};
use crate::offers::Approach;
use crate::rounds::Rounds;
use p10_absx::Env;
use p10_base::Span;
use p10_cert::{LoopClaim, Rank, VarRanges};
use p10_pass::{enters_ranked, goes_back_ranked, head_under, ranges_hold};
use std::alloc::{AllocError, Global};

/// What a loop counts with: a claim, the loop's keyword where the claim has no bound of its turns, and where it stands because two
/// variables approach each other, these.
#[derive(Drop)]
pub struct LoopFound {
    pub claim: LoopClaim,
    pub unbounded: Option<Span>,
    pub approach: Option<Approach>,
}

/// The environment at the head of a loop, by one round from a trial environment.
fn tried_head(
    alloc: Global,
    l: &LoopEntry<'_, '_>,
    rounds: &Rounds<'_, '_>,
    trial: &Env,
) -> Result<Env, AllocError>
    ensures { IfOk result (λ env. env ≡ unbranched (tried_of (rounds_by rounds.now) (entry_by l.now) trial.now.values)) }
{
    let copy = trial.copy(alloc)?;
    let turn = rounds.turn(alloc, copy)?;
    head_after(alloc, l, &turn.back)
}

/// The claim of a candidate.
fn claim_of(
    alloc: Global,
    l: &LoopEntry<'_, '_>,
    rounds: &Rounds<'_, '_>,
    depth: u32,
    candidate: &Candidate,
) -> Result<LoopClaim, AllocError>
    ensures { IfOk result (λ claim. loop_of claim ≡ claim_by_trial (rounds_by rounds.now) (entry_by l.now) depth (candidate_by candidate.now)) }
{
    let head = tried_head(alloc, l, rounds, &candidate.trial)?;
    let turns = turns_from(candidate.rank, l.entry);
    claim_by(alloc, l, depth, candidate.rank, turns, &head)
}

/// Whether a claim stands by itself (K6 to K9).
fn stands_alone(
    alloc: Global,
    l: &LoopEntry<'_, '_>,
    rounds: &Rounds<'_, '_>,
    claim: &LoopClaim,
) -> Result<bool, AllocError>
    ensures { IfOk result (λ stands. stands ≡ stands_of (rounds_by rounds.now) (entry_by l.now) (loop_of claim.now)) }
{
    let start = head_under(alloc, claim, l.variables, l.entry)?;
    let turn = rounds.turn(alloc, start)?;
    let entry = Some(l.entry.copy(alloc)?);
    let at_entry = ranges_hold(alloc, claim, l.variables, &entry)?;
    let on_ways_back = ranges_hold(alloc, claim, l.variables, &turn.back)?;
    let ranked = enters_ranked(claim.rank, &turn.enters)
        && goes_back_ranked(claim.rank, &turn.back);
    Ok((at_entry && on_ways_back) && ranked)
}

/// The claim of the first candidate that stands by itself.
fn first_standing(
    alloc: Global,
    l: &LoopEntry<'_, '_>,
    rounds: &Rounds<'_, '_>,
    depth: u32,
    candidates: &[Candidate],
) -> Result<Option<LoopClaim>, AllocError>
    ensures { IfOk result (λ claim. option_map loop_of claim ≡ first_of (rounds_by rounds.now) (entry_by l.now) depth (map candidate_by candidates.now)) }
{
    for candidate in candidates {
        let claim = claim_of(alloc, l, rounds, depth, candidate)?;
        if stands_alone(alloc, l, rounds, &claim)? {
            return Ok(Some(claim));
        }
    }
    Ok(None)
}

/// What a loop counts with by the first claim that stands, if one does.
fn found_by(
    alloc: Global,
    l: &LoopEntry<'_, '_>,
    keyword: Span,
    depth: u32,
    first: Option<LoopClaim>,
) -> Result<LoopFound, AllocError>
    ensures { IfOk result (λ found. loop_found_by found ≡ found_of keyword (entry_by l.now) depth (option_map loop_of first)) }
{
    match first {
        Some(claim) => Ok(LoopFound {
            claim,
            unbounded: None,
            approach: None,
        }),
        None => {
            let head = any_trial(alloc, l)?;
            let claim = claim_by(alloc, l, depth, Rank::One, 0, &head)?;
            Ok(LoopFound {
                claim,
                unbounded: Some(keyword),
                approach: None,
            })
        }
    }
}

/// What a loop that isn't the task counts with.
pub fn loop_found(
    alloc: Global,
    l: &LoopEntry<'_, '_>,
    rounds: &Rounds<'_, '_>,
    keyword: Span,
    depth: u32,
) -> Result<LoopFound, AllocError>
    ensures { IfOk result (λ found. loop_found_by found ≡ loop_found_of keyword (rounds_by rounds.now) (entry_by l.now) depth) }
{
    let tried = candidates(alloc, l)?;
    let first = first_standing(alloc, l, rounds, depth, tried.as_slice())?;
    found_by(alloc, l, keyword, depth, first)
}

/// What the task counts with.
pub fn task_found(
    alloc: Global,
    l: &LoopEntry<'_, '_>,
    rounds: &Rounds<'_, '_>,
    depth: u32,
) -> Result<LoopFound, AllocError>
    ensures { IfOk result (λ found. loop_found_by found ≡ task_found_of (rounds_by rounds.now) (entry_by l.now) depth) }
{
    let trial = any_trial(alloc, l)?;
    let head = tried_head(alloc, l, rounds, &trial)?;
    let claim = claim_by(alloc, l, depth, Rank::Task, 0, &head)?;
    Ok(LoopFound {
        claim,
        unbounded: None,
        approach: None,
    })
}

/// What a loop counts with that no state reaches.
pub fn unreached_found(alloc: Global, depth: u32, rank: Rank) -> LoopFound
    ensures { loop_found_by result ≡ unreached_of depth rank }
{
    LoopFound {
        claim: LoopClaim {
            depth,
            rank,
            turns: 0,
            inv: VarRanges::new(alloc),
        },
        unbounded: None,
        approach: None,
    }
}

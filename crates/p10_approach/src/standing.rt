//! The claim of the first approach whose rank stands.

ghost use Rattle.std.specs.Prelude.{◌≡◌, ◌≤◌, ◌+ℤ◌, ◌-ℤ◌, pos, unsigned_abs, map, true, Some, IfSome, IfOk};
ghost use Rattle.std.specs.Int.{int_max};
ghost use Rattle.std.specs.Option.{option_map};
ghost use Rattle.p10_core.specs.Views.{plain_function, plain_statement};
ghost use Rattle.p10_cert.specs.Claims.{loop_of};
ghost use Rattle.p10_absx.specs.Environments.{known};
ghost use Rattle.p10_diff.specs.Evidence.{loop_stands};
ghost use Rattle.p10_turns.specs.LoopParts.{parts_of};
ghost use Rattle.p10_diff.specs.Ranked.{rank_by};
ghost use Rattle.p10_candidates.specs.Offering.{entry_by, approach_by};
ghost use Rattle.p10_candidates.specs.Trials.{counted};
ghost use Rattle.p10_approach.specs.Approaches.{more_of, turns_by, approach_claim, approach_rank, first_standing, first_approach};
ghost use Rattle.p10_approach.specs.Approaching.{site_by, approached_of};

use p10_absx::Env;
use p10_base::Limit;
use p10_candidates::{Approach, LoopEntry, any_trial, approaches, claim_by};
use p10_cert::{LoopClaim, Rank as RankKind};
use p10_core::{Func, Stmt};
use p10_diff::{Rank, rank_stands};
use std::alloc::{AllocError, Global};

/// Where a loop stands: the numbers of its function and of the loop, and how many loops it stands in.
#[derive(Clone, Copy, Debug, PartialEq, Eq)]
pub struct Site {
    pub function: u32,
    pub at: u32,
    pub depth: u32,
}

/// A claim on a loop, and the approach by whose rank it stands.
#[derive(Drop)]
pub struct Approached {
    pub claim: LoopClaim,
    pub approach: Approach,
}

/// What a loop of a function counts with where it is entered, if its guard offers something that stands. A statement that is no loop
/// counts with nothing.
///
/// # Errors
///
/// Out of memory.
pub fn first_approach(
    alloc: Global,
    function: &Func<'_>,
    s: &Stmt,
    site: Site,
    l: &LoopEntry<'_, '_>,
) -> Result<Option<Approached>, AllocError>
    ensures is { IfOk result (λ r. option_map approached_of r ≡ first_approach (plain_function function.now) (parts_of (plain_statement s.now)) (site_by site) (entry_by l.now)) }
    ensures stands { IfOk result (λ r. IfSome r (λ a. loop_stands (plain_function function.now) (parts_of (plain_statement s.now)) (entry_by l.now).entry (loop_of a.claim) (Some (approach_rank site.function site.at (approach_by a.approach))) ≡ true)) }
{
    let offered = approaches(alloc, l)?;
    first_standing(alloc, function, s, site, l, offered.as_slice())
}

/// The first of these that stands.
fn first_standing(
    alloc: Global,
    function: &Func<'_>,
    s: &Stmt,
    site: Site,
    l: &LoopEntry<'_, '_>,
    offered: &[Approach],
) -> Result<Option<Approached>, AllocError>
    ensures is { IfOk result (λ r. option_map approached_of r ≡ first_standing (plain_function function.now) (parts_of (plain_statement s.now)) (site_by site) (entry_by l.now) (map approach_by offered.now)) }
    ensures stands { IfOk result (λ r. IfSome r (λ a. loop_stands (plain_function function.now) (parts_of (plain_statement s.now)) (entry_by l.now).entry (loop_of a.claim) (Some (approach_rank site.function site.at (approach_by a.approach))) ≡ true)) }
{
    for a in offered {
        let claim = claim_of(alloc, site, l, *a)?;
        let rank = rank_of(alloc, site.function, site.at, *a);
        if rank_stands(alloc, function, s, l.entry, &claim, &rank)? {
            return Ok(Some(Approached {
                claim,
                approach: *a,
            }));
        }
    }
    Ok(None)
}

/// By how much the rank is more than the distance.
fn more_of(a: Approach) -> u64
    ensures is { pos result ≡ more_of (approach_by a) }
    ensures small { result ≤ 1 }
{
    if a.may_equal { 1 } else { 0 }
}

/// A difference and 0 or 1 as a number of turns: 0 where it is negative, and at most one more than the limit M9 allows.
fn turns_between(high: i128, low: i128, more: u64) -> u64
    requires { more ≤ 1 }
    ensures { result ≡ counted (unsigned_abs (int_max ((high -ℤ low) +ℤ pos more) (pos 0))) }
{
    if high < low {
        return 0;
    }
    match high.checked_sub(low) {
        Some(turns) => {
            if turns <= Limit::MOST_SUM as i128 {
                (turns as u64 + more).min(Limit::MOST_SUM + 1)
            } else {
                Limit::MOST_SUM + 1
            }
        }
        None => Limit::MOST_SUM + 1,
    }
}

/// The greatest rank at entry, as a number of turns.
fn turns_at(entry: &Env, a: Approach) -> u64
    ensures { result ≡ turns_by (more_of (approach_by a)) (known entry.now.values a.below) (known entry.now.values a.above) }
{
    match entry.get(a.below) {
        Some(below) => match entry.get(a.above) {
            Some(above) => turns_between(above.range.hi, below.range.lo, more_of(a)),
            None => 0,
        },
        None => 0,
    }
}

/// The claim of an approach: the rank 1, with the least turns that are enough.
fn claim_of(
    alloc: Global,
    site: Site,
    l: &LoopEntry<'_, '_>,
    a: Approach,
) -> Result<LoopClaim, AllocError>
    ensures { IfOk result (λ claim. loop_of claim ≡ approach_claim (site_by site) (entry_by l.now) (approach_by a)) }
{
    let head = any_trial(alloc, l)?;
    let turns = turns_at(l.entry, a);
    claim_by(alloc, l, site.depth, RankKind::One, turns, &head)
}

/// The rank that stands for it, by the numbers of the function and of the loop.
pub fn rank_of(alloc: Global, function: u32, at: u32, a: Approach) -> Rank
    ensures { rank_by result ≡ approach_rank function at (approach_by a) }
{
    Rank {
        function,
        at,
        below: a.below,
        above: a.above,
        more: i128::from(more_of(a)),
        facts: Vec::new(alloc),
    }
}

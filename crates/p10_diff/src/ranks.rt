//! When a rank stands for a loop.

ghost use Rattle.std.specs.Prelude.{◌≡◌, ◌&&◌, ◌-ℤ◌, pos, int_le, map, Some, IfOk, OnOk};
ghost use Rattle.std.specs.Option.{option_map};
ghost use Rattle.p10_core.specs.Views.{plain_function, plain_statement, plain_variable};
ghost use Rattle.p10_cert.specs.Claims.{loop_of};
ghost use Rattle.p10_absx.specs.Environments.{known};
ghost use Rattle.p10_pass.specs.Claiming.{ranges_hold};
ghost use Rattle.p10_turns.specs.LoopParts.{parts_of};
ghost use Rattle.p10_walk.specs.Leaving.{round_by, round_at};
ghost use Rattle.p10_diff.specs.Bounds.{is_at_most};
ghost use Rattle.p10_diff.specs.Differences.{now, bound, learned_bound};
ghost use Rattle.p10_diff.specs.Domain.{differences};
ghost use Rattle.p10_diff.specs.Evidence.{may_be_named, facts_may_be, facts_learned, still, at_head, facts_hold, only_ranges, stays, stay_in_scope, where_coming, is_positive, is_enough, enters_so, comes_back, turns_so, loop_stands};
ghost use Rattle.p10_diff.specs.Knowing.{pair_by, differences_of};
ghost use Rattle.p10_diff.specs.Listed.{bounds_listed};
ghost use Rattle.p10_diff.specs.Ranked.{fact_by, rank_by};
ghost use Rattle.p10_diff.specs.private.Rounds.{round_turns_so};

use crate::known::{Diff, Pair};
use crate::limits::{bottom, is_at_most, plus, top};
use crate::listed::Name;
use crate::naming::may_be_named;
use crate::rules::Differing;
use crate::tables::{Table, learn};
use p10_absx::Env;
use p10_cert::LoopClaim;
use p10_core::{Func, Stmt, Variable};
use p10_pass::{head_under, ranges_hold};
use p10_walk::{Round, one_round};
use std::alloc::{AllocError, Global};

/// Of two variables the first is greater than the second by at most a number.
#[derive(Debug, PartialEq, Eq, Drop)]
pub struct Fact {
    pub greater: u32,
    pub lesser: u32,
    pub by: i128,
}

/// In a function's loop, by their numbers, the distance from one variable up to another, and a number, with facts that hold at
/// each head.
#[derive(Drop)]
pub struct Rank {
    pub function: u32,
    pub at: u32,
    pub below: u32,
    pub above: u32,
    pub more: i128,
    pub facts: Vec<Fact>,
}

/// Whether a rank stands for a loop of a function from an entry, under a claim. It stands for no statement that isn't a loop.
///
/// # Errors
///
/// Out of memory.
pub fn rank_stands(
    alloc: Global,
    function: &Func<'_>,
    s: &Stmt,
    entry: &Env,
    claim: &LoopClaim,
    rank: &Rank,
) -> Result<bool, AllocError>
    ensures { IfOk result (λ b. b ≡ loop_stands (plain_function function.now) (parts_of (plain_statement s.now)) entry.now.values (loop_of claim.now) (Some (rank_by rank.now))) }
{
    let variables = function.vars.as_slice();
    let head = head_under(alloc, claim, variables, entry)?;
    let p = Pair {
        variables,
        below: rank.below,
        above: rank.above,
        head: &head,
    };
    let named = are_named(function, &p, entry, rank);
    let enters = enters_so(alloc, &p, claim, rank, entry)?;
    let turns = round_stands(alloc, &p, s, claim, rank)?;
    Ok(all_hold(named, enters, turns))
}

/// Whether all three hold.
fn all_hold(named: bool, enters: bool, turns: bool) -> bool
    ensures { result ≡ (named && (enters && turns)) }
{
    named && (enters && turns)
}

/// Whether all variables that a rank and its facts name may be named at an entry.
fn are_named(function: &Func<'_>, p: &Pair<'_, '_>, entry: &Env, rank: &Rank) -> bool
    ensures { result ≡ ((may_be_named (plain_function function.now) (pair_by p.now) entry.now.values rank.now.below && may_be_named (plain_function function.now) (pair_by p.now) entry.now.values rank.now.above) && facts_may_be (plain_function function.now) (pair_by p.now) entry.now.values (map fact_by rank.now.facts.items)) }
{
    (may_be_named(function, p, entry, rank.below) && may_be_named(function, p, entry, rank.above))
        && facts_may_be(function, p, entry, rank.facts.as_slice())
}

/// Whether all variables that facts name may be named.
fn facts_may_be(function: &Func<'_>, p: &Pair<'_, '_>, entry: &Env, facts: &[Fact]) -> bool
    ensures { result ≡ facts_may_be (plain_function function.now) (pair_by p.now) entry.now.values (map fact_by facts.now) }
{
    for x in facts {
        if !fact_may_be(function, p, entry, x) {
            return false;
        }
    }
    true
}

/// The same of one fact.
fn fact_may_be(function: &Func<'_>, p: &Pair<'_, '_>, entry: &Env, x: &Fact) -> bool
    ensures { result ≡ (may_be_named (plain_function function.now) (pair_by p.now) entry.now.values x.now.greater && may_be_named (plain_function function.now) (pair_by p.now) entry.now.values x.now.lesser) }
{
    may_be_named(function, p, entry, x.greater) && may_be_named(function, p, entry, x.lesser)
}

/// Learns facts, the last one first.
fn learn_facts(alloc: Global, facts: &[Fact], bounds: &mut Table) -> Result<(), AllocError>
    ensures { OnOk result (bounds_listed bounds.new.items ≡ facts_learned (map fact_by facts.now) (bounds_listed bounds.old.items)) }
{
    let mut left = facts.len();
    while left > 0 {
        left -= 1;
        learn_fact(alloc, &facts[left], bounds)?;
    }
    Ok(())
}

/// Learns a fact.
fn learn_fact(alloc: Global, x: &Fact, bounds: &mut Table) -> Result<(), AllocError>
    ensures { OnOk result (bounds_listed bounds.new.items ≡ learned_bound (now x.now.greater) (now x.now.lesser) x.now.by (bounds_listed bounds.old.items)) }
{
    learn(
        alloc,
        bounds,
        Name::Now(x.greater),
        Name::Now(x.lesser),
        x.by,
    )
}

/// Learns that a variable is what it was.
fn learn_still(alloc: Global, n: u32, bounds: &mut Table) -> Result<(), AllocError>
    ensures { OnOk result (bounds_listed bounds.new.items ≡ still n (bounds_listed bounds.old.items)) }
{
    learn(alloc, bounds, Name::Was(n), Name::Now(n), 0)?;
    learn(alloc, bounds, Name::Now(n), Name::Was(n), 0)
}

/// The bounds at the head: facts, and that the two variables are what they were.
fn head_bounds(alloc: Global, p: &Pair<'_, '_>, facts: &[Fact]) -> Result<Table, AllocError>
    ensures { IfOk result (λ bounds. bounds_listed bounds.items ≡ (at_head (pair_by p.now) (map fact_by facts.now)).bounds) }
{
    let mut bounds = Vec::new(alloc);
    learn_facts(alloc, facts, &mut bounds)?;
    learn_still(alloc, p.above, &mut bounds)?;
    learn_still(alloc, p.below, &mut bounds)?;
    Ok(bounds)
}

/// What is known at the head.
fn at_head(alloc: Global, p: &Pair<'_, '_>, facts: &[Fact]) -> Result<Diff, AllocError>
    ensures { IfOk result (λ e. differences_of e ≡ at_head (pair_by p.now) (map fact_by facts.now)) }
{
    let bounds = head_bounds(alloc, p, facts)?;
    Ok(Diff {
        ranges: p.head.copy(alloc)?,
        bounds,
        fall: None,
    })
}

/// Whether facts hold.
fn facts_hold(p: &Pair<'_, '_>, facts: &[Fact], e: &Diff) -> bool
    ensures { result ≡ facts_hold (pair_by p.now) (map fact_by facts.now) (differences_of e.now) }
{
    for x in facts {
        if !fact_holds(p, x, e) {
            return false;
        }
    }
    true
}

/// Whether a fact holds.
fn fact_holds(p: &Pair<'_, '_>, x: &Fact, e: &Diff) -> bool
    ensures { result ≡ is_at_most (bound (pair_by p.now) (differences_of e.now) (now x.now.greater) (now x.now.lesser)) x.now.by }
{
    is_at_most(p.bound(e, Name::Now(x.greater), Name::Now(x.lesser)), x.by)
}

/// Whether facts hold by ranges alone.
fn facts_hold_by_ranges(
    alloc: Global,
    p: &Pair<'_, '_>,
    facts: &[Fact],
    ranges: &Env,
) -> Result<bool, AllocError>
    ensures { IfOk result (λ b. b ≡ facts_hold (pair_by p.now) (map fact_by facts.now) (only_ranges ranges.now.values)) }
{
    let e = Diff {
        ranges: ranges.copy(alloc)?,
        bounds: Vec::new(alloc),
        fall: None,
    };
    Ok(facts_hold(p, facts, &e))
}

/// Whether the claimed ranges of a loop hold (K6, K7).
fn claim_holds(
    alloc: Global,
    p: &Pair<'_, '_>,
    claim: &LoopClaim,
    ranges: &Env,
) -> Result<bool, AllocError>
    ensures { IfOk result (λ b. b ≡ ranges_hold (loop_of claim.now) 0 (pair_by p.now).variables ranges.now.values) }
{
    let env = Some(ranges.copy(alloc)?);
    ranges_hold(alloc, claim, p.variables, &env)
}

/// Whether the turns are at least the rank at entry (K10).
fn is_enough(p: &Pair<'_, '_>, more: i128, turns: u64, entry: &Env) -> bool
    ensures { result ≡ is_enough (pair_by p.now) more turns entry.now.values }
{
    let above = top(p.range_named(entry, Name::Now(p.above)));
    let below = bottom(p.range_named(entry, Name::Now(p.below)));
    is_at_most(plus(plus(above, below), Some(more)), i128::from(turns))
}

/// Whether at entry the claimed ranges and the facts hold, and the turns are enough.
fn enters_so(
    alloc: Global,
    p: &Pair<'_, '_>,
    claim: &LoopClaim,
    rank: &Rank,
    entry: &Env,
) -> Result<bool, AllocError>
    ensures { IfOk result (λ b. b ≡ enters_so (pair_by p.now) (loop_of claim.now) (rank_by rank.now) entry.now.values) }
{
    let ranges = claim_holds(alloc, p, claim, entry)?;
    let facts = facts_hold_by_ranges(alloc, p, rank.facts.as_slice(), entry)?;
    Ok((ranges && facts) && is_enough(p, rank.more, claim.turns, entry))
}

/// Whether a variable that is in scope in one environment is so in another one.
fn stays(before: &Env, after: &Env, n: u32) -> bool
    ensures { result ≡ stays (known before.now.values n) (known after.now.values n) }
{
    before.get(n).is_none() || after.get(n).is_some()
}

/// The same of each variable. More variables than 32 bits number never fit memory, and are answered as out of memory.
fn stay_in_scope(variables: &[Variable<'_>], before: &Env, after: &Env) -> Result<bool, AllocError>
    ensures { IfOk result (λ b. b ≡ stay_in_scope 0 (map plain_variable variables.now) before.now.values after.now.values) }
{
    if variables.len() > u32::MAX as usize {
        return Err(AllocError);
    }
    for n in 0..variables.len() {
        if !stays(before, after, n as u32) {
            return Ok(false);
        }
    }
    Ok(true)
}

/// Whether a number is at most another one less 1.
#[tactic(auto, using(crate::proofs::Numbers::less_is))]
fn is_below(c: i128, more: i128) -> bool
    ensures { result ≡ int_le c (more -ℤ pos 1) }
{
    c < more
}

/// Whether the rank is at least 1 where the body is entered (K8).
fn is_positive(p: &Pair<'_, '_>, more: i128, e: &Diff) -> bool
    ensures { result ≡ is_positive (pair_by p.now) more (differences_of e.now) }
{
    match p.bound(e, Name::Now(p.below), Name::Now(p.above)) {
        Some(c) => is_below(c, more),
        None => false,
    }
}

/// Whether on a way back the claimed ranges and the facts hold again, and the distance has fallen (K7, K9).
fn comes_back(
    alloc: Global,
    p: &Pair<'_, '_>,
    claim: &LoopClaim,
    facts: &[Fact],
    e: &Diff,
) -> Result<bool, AllocError>
    ensures { IfOk result (λ b. b ≡ comes_back (pair_by p.now) (loop_of claim.now) (map fact_by facts.now) (differences_of e.now)) }
{
    let ranges = claim_holds(alloc, p, claim, &e.ranges)?;
    let scope = stay_in_scope(p.variables, p.head, &e.ranges)?;
    Ok((ranges && scope) && (facts_hold(p, facts, e) && is_at_most(p.fallen(e), -1)))
}

/// Whether the rank is at least 1 where the body is entered, if a state comes there.
fn enters_positive(p: &Pair<'_, '_>, more: i128, e: &Option<Diff>) -> bool
    ensures { result ≡ where_coming (option_map differences_of e.now) (is_positive (pair_by p.now) more) }
{
    match e {
        Some(e) => is_positive(p, more, e),
        None => true,
    }
}

/// The same of the ways back.
fn all_come_back(
    alloc: Global,
    p: &Pair<'_, '_>,
    claim: &LoopClaim,
    facts: &[Fact],
    e: &Option<Diff>,
) -> Result<bool, AllocError>
    ensures { IfOk result (λ b. b ≡ where_coming (option_map differences_of e.now) (comes_back (pair_by p.now) (loop_of claim.now) (map fact_by facts.now))) }
{
    match e {
        Some(e) => comes_back(alloc, p, claim, facts, e),
        None => Ok(true),
    }
}

/// Whether in a round the rank is positive, and falls.
fn turns_so(
    alloc: Global,
    p: &Pair<'_, '_>,
    claim: &LoopClaim,
    rank: &Rank,
    round: &Round<Diff>,
) -> Result<bool, AllocError>
    ensures { IfOk result (λ b. b ≡ turns_so (pair_by p.now) (loop_of claim.now) (rank_by rank.now) (round_by differences_of round.now)) }
{
    let back = all_come_back(alloc, p, claim, rank.facts.as_slice(), &round.back)?;
    Ok(enters_positive(p, rank.more, &round.enters) && back)
}

/// The same of the round of a loop from what is known at its head.
fn round_stands(
    alloc: Global,
    p: &Pair<'_, '_>,
    s: &Stmt,
    claim: &LoopClaim,
    rank: &Rank,
) -> Result<bool, AllocError>
    ensures { IfOk result (λ b. b ≡ round_turns_so (pair_by p.now) (loop_of claim.now) (rank_by rank.now) (round_at (differences (pair_by p.now)) (plain_statement s.now) (at_head (pair_by p.now) (rank_by rank.now).facts))) }
{
    let start = at_head(alloc, p, rank.facts.as_slice())?;
    match one_round(alloc, &Differing { pair: *p }, s, start)? {
        Some(round) => turns_so(alloc, p, claim, rank, &round),
        None => Ok(false),
    }
}

//! What a certificate claims of a loop: the ranges of variables at its head, its rank and its turns.

ghost use Rattle.std.specs.Prelude.{◌≡◌, map, [], slice_set, ◌-ℤ◌, pos, int_le, IfOk};
ghost use Rattle.std.specs.Option.{option_map};
ghost use Rattle.p10_core.specs.Views.{plain_variable};
ghost use Rattle.p10_cert.specs.Claims.{var_of, loop_of};
ghost use Rattle.p10_range.specs.Ranges.{interval_of};
ghost use Rattle.p10_absx.specs.Abstract.{abstract_of};
ghost use Rattle.p10_absx.specs.Trails.{Branching};
ghost use Rattle.p10_absx.specs.Branches.{unbranched};
ghost use Rattle.p10_pass.specs.Claiming.{head_of, ranges_hold, ranges_hold_reached, is_positive, rank_in, enters_ranked, rises, falls, goes_back_ranked, is_enough};
ghost use Rattle.p10_pass.specs.private.Standing.{AreClaimed, with_lines};

use crate::renewal::{Renewal, all_lie, renew_each};
use p10_absx::{Abs, Env, values};
use p10_cert::{LoopClaim, Rank, VarRange};
use p10_core::{Variable, integer_of};
use p10_range::Range;
use std::alloc::{AllocError, Global};

/// The ranges that lines claim of variables, by the variables' numbers.
fn claimed_ranges(
    alloc: Global,
    lines: &[VarRange],
    variables: &[Variable<'_>],
) -> Result<Vec<Range>, AllocError>
    ensures { IfOk result (λ ranges. AreClaimed (map var_of lines.now) (map plain_variable variables.now) (map interval_of ranges.items)) }
{
    let mut ranges = type_ranges(alloc, variables)?;
    put_lines(lines, &mut ranges);
    Ok(ranges)
}

/// The ranges of variables' types, by the variables' numbers.
fn type_ranges(alloc: Global, variables: &[Variable<'_>]) -> Result<Vec<Range>, AllocError>
    ensures { IfOk result (λ ranges. AreClaimed [] (map plain_variable variables.now) (map interval_of ranges.items)) }
{
    let mut ranges = Vec::with_capacity(alloc, variables.len())?;
    for v in variables {
        ranges.push(values(integer_of(&v.ty)))?;
    }
    Ok(ranges)
}

/// Puts the range of each line at its variable's number: of two lines the first one counts.
fn put_lines(lines: &[VarRange], ranges: &mut Vec<Range>)
    ensures { map interval_of ranges.new.items ≡ with_lines (map var_of lines.now) (map interval_of ranges.old.items) }
{
    let mut left = lines.len();
    while left > 0 {
        left -= 1;
        put_range(lines[left], ranges);
    }
}

/// Puts the range of a line at its variable's number.
fn put_range(line: VarRange, ranges: &mut Vec<Range>)
    ensures { map interval_of ranges.new.items ≡ slice_set (map interval_of ranges.old.items) line.var (interval_of line.range) }
{
    let n = line.var as usize;
    if n < ranges.len() {
        ranges[n] = line.range;
    }
}

/// The environment at the head of a loop: each variable in scope has its claimed range, and its own offset.
pub fn head_under(
    alloc: Global,
    claim: &LoopClaim,
    variables: &[Variable<'_>],
    entry: &Env,
) -> Result<Env, AllocError>
    ensures { IfOk result (λ env. env ≡ unbranched (head_of (loop_of claim.now) (map plain_variable variables.now) entry.now.values)) }
{
    let lines = claim.inv.list(alloc)?;
    let ranges = claimed_ranges(alloc, lines.as_slice(), variables)?;
    let mut env = entry.copy(alloc)?;
    renew_each(&mut env, &Renewal::Headed(ranges.as_slice()), variables)?;
    Ok(env)
}

/// Whether the claimed ranges of a loop hold in an environment; where no state comes they hold (K6, K7).
pub fn ranges_hold(
    alloc: Global,
    claim: &LoopClaim,
    variables: &[Variable<'_>],
    env: &Option<Env>,
) -> Result<bool, AllocError>
    ensures { IfOk result (λ b. b ≡ ranges_hold_reached (loop_of claim.now) (map plain_variable variables.now) (option_map (λ (e : Branching). e.values) env.now)) }
{
    match env {
        Some(env) => ranges_hold_in(alloc, claim, variables, env),
        None => Ok(true),
    }
}

/// The same where a state comes.
pub(crate) fn ranges_hold_in(
    alloc: Global,
    claim: &LoopClaim,
    variables: &[Variable<'_>],
    env: &Env,
) -> Result<bool, AllocError>
    ensures { IfOk result (λ b. b ≡ ranges_hold (loop_of claim.now) 0 (map plain_variable variables.now) env.now.values) }
{
    let lines = claim.inv.list(alloc)?;
    let ranges = claimed_ranges(alloc, lines.as_slice(), variables)?;
    all_lie(env, ranges.as_slice(), variables)
}

/// Whether a rank is at least 1 (K8).
fn is_positive(rank: Rank, env: &Env) -> bool
    ensures { result ≡ is_positive (rank_in rank env.now.values) }
{
    match rank {
        Rank::Up { var, bound } => match env.get(var) {
            Some(a) => a.range.hi < bound,
            None => false,
        },
        Rank::Down { var, bound } => match env.get(var) {
            Some(a) => bound < a.range.lo,
            None => false,
        },
        Rank::One => true,
        Rank::Task => false,
    }
}

/// Whether a rank is at least 1 where a loop's body is entered (K8); where no state comes it is.
pub fn enters_ranked(rank: Rank, env: &Option<Env>) -> bool
    ensures { result ≡ enters_ranked rank (option_map (λ (e : Branching). e.values) env.now) }
{
    match env {
        Some(env) => is_positive(rank, env),
        None => true,
    }
}

/// Whether a variable's offset is about itself and at least 1.
fn rises(n: u32, known: Option<Abs>) -> bool
    ensures { result ≡ rises n (option_map abstract_of known) }
{
    match known {
        Some(a) => match a.offset {
            Some((about, by)) => about == n && by.lo >= 1,
            None => false,
        },
        None => false,
    }
}

/// Whether a variable's offset is about itself and at most -1.
fn falls(n: u32, known: Option<Abs>) -> bool
    ensures { result ≡ falls n (option_map abstract_of known) }
{
    match known {
        Some(a) => match a.offset {
            Some((about, by)) => about == n && by.hi <= -1,
            None => false,
        },
        None => false,
    }
}

/// Whether a rank has fallen by at least 1 on a way back, as its offset shows (K9); where no state comes it has.
pub fn goes_back_ranked(rank: Rank, env: &Option<Env>) -> bool
    ensures { result ≡ goes_back_ranked rank (option_map (λ (e : Branching). e.values) env.now) }
{
    match env {
        Some(env) => match rank {
            Rank::Up { var, bound: _ } => rises(var, env.get(var)),
            Rank::Down { var, bound: _ } => falls(var, env.get(var)),
            Rank::One => false,
            Rank::Task => true,
        },
        None => true,
    }
}

/// Whether turns are at least the difference of two numbers.
fn reaches(turns: u64, high: i128, low: i128) -> bool
    ensures { result ≡ int_le (high -ℤ low) (pos turns) }
{
    match low.checked_add(turns as i128) {
        Some(most) => high <= most,
        None => true,
    }
}

/// Whether turns are at least a rank (K10).
pub fn is_enough(turns: u64, rank: Rank, env: &Env) -> bool
    ensures { result ≡ is_enough turns (rank_in rank env.now.values) }
{
    match rank {
        Rank::Up { var, bound } => match env.get(var) {
            Some(a) => reaches(turns, bound, a.range.lo),
            None => false,
        },
        Rank::Down { var, bound } => match env.get(var) {
            Some(a) => reaches(turns, a.range.hi, bound),
            None => false,
        },
        Rank::One => turns >= 1,
        Rank::Task => false,
    }
}

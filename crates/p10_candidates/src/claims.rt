//! The claim of a candidate.

ghost use Rattle.std.specs.Prelude.{◌≡◌, ◌++◌, [], map, IfOk, OnOk, pos, ◌-ℤ◌, unsigned_abs};
ghost use Rattle.std.specs.Int.{int_max};
ghost use Rattle.std.specs.Option.{option_map};
ghost use Rattle.p10_core.specs.Views.{plain_variable};
ghost use Rattle.p10_range.specs.Ranges.{interval_of};
ghost use Rattle.p10_cert.specs.Claims.{loop_of};
ghost use Rattle.p10_absx.specs.Abstract.{abstract_of};
ghost use Rattle.p10_candidates.specs.Offering.{entry_by};
ghost use Rattle.p10_candidates.specs.Trials.{is_whole_range as is_whole_of, line_for as line_of, lines_from, counted, turns_from as turns_of, claim_by as claim_of_head};

use crate::entry::LoopEntry;
use p10_absx::{Abs, Env, values};
use p10_base::Limit;
use p10_cert::{LoopClaim, Rank, VarRange, VarRanges};
use p10_core::{Variable, integer_of};
use p10_int::IntType;
use p10_range::Range;
use std::alloc::{AllocError, Global};

/// Whether a range has all values of a type.
fn is_whole_range(kind: IntType, r: Range) -> bool
    ensures { result ≡ is_whole_of kind (interval_of r) }
{
    let all = values(kind);
    r.lo == all.lo && r.hi == all.hi
}

/// Puts a line for a variable, if it is known and its range isn't its type's.
fn put_line(
    alloc: Global,
    n: u32,
    kind: IntType,
    known: Option<Abs>,
    lines: &mut VarRanges,
) -> Result<(), AllocError>
    ensures { OnOk result (lines.new ≡ lines.old ++ line_of n kind (option_map abstract_of known)) }
{
    if let Some(a) = known {
        if !is_whole_range(kind, a.range) {
            let line = VarRange {
                var: n,
                range: a.range,
            };
            lines.push(alloc, line)?;
        }
    }
    Ok(())
}

/// The lines for variables. More than 32 bits number never fit memory, and are answered as out of memory.
fn lines(alloc: Global, variables: &[Variable<'_>], head: &Env) -> Result<VarRanges, AllocError>
    ensures { IfOk result (λ lines. lines ≡ lines_from 0 (map plain_variable variables.now) head.now.values) }
{
    if variables.len() > u32::MAX as usize {
        return Err(AllocError);
    }
    let mut lines = VarRanges::new(alloc);
    for (n, v) in variables.iter().enumerate() {
        put_line(
            alloc,
            n as u32,
            integer_of(&v.ty),
            head.get(n as u32),
            &mut lines,
        )?;
    }
    lines.shrink_to_fit();
    Ok(lines)
}

/// A difference as a number of turns: 0 where it is negative, and at most one more than the limit M9 allows.
fn turns_between(high: i128, low: i128) -> u64
    ensures { result ≡ counted (unsigned_abs (int_max (high -ℤ low) (pos 0))) }
{
    if high <= low {
        return 0;
    }
    match high.checked_sub(low) {
        Some(turns) => {
            if turns <= Limit::MOST_SUM as i128 {
                turns as u64
            } else {
                Limit::MOST_SUM + 1
            }
        }
        None => Limit::MOST_SUM + 1,
    }
}

/// The turns of a rank by what is known at the loop's entry.
pub fn turns_from(rank: Rank, entry: &Env) -> u64
    ensures { result ≡ turns_of rank entry.now.values }
{
    match rank {
        Rank::Up { var, bound } => match entry.get(var) {
            Some(a) => turns_between(bound, a.range.lo),
            None => 0,
        },
        Rank::Down { var, bound } => match entry.get(var) {
            Some(a) => turns_between(a.range.hi, bound),
            None => 0,
        },
        Rank::One => 1,
        Rank::Task => 0,
    }
}

/// A claim on a loop, by what is known at its head.
pub fn claim_by(
    alloc: Global,
    l: &LoopEntry<'_, '_>,
    depth: u32,
    rank: Rank,
    turns: u64,
    head: &Env,
) -> Result<LoopClaim, AllocError>
    ensures { IfOk result (λ claim. loop_of claim ≡ claim_of_head (entry_by l.now) depth rank turns head.now.values) }
{
    let inv = lines(alloc, l.variables, head)?;
    Ok(LoopClaim {
        depth,
        rank,
        turns,
        inv,
    })
}

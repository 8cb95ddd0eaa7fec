//! Whether claims on functions are the same.

ghost use Rattle.std.specs.Prelude.{◌≡◌, map};
ghost use Rattle.p10_range.specs.Ranges.{interval_of};
ghost use Rattle.p10_cert.specs.Claims.{value_of, var_of, loop_of, func_of};
ghost use Rattle.p10_incr.specs.Alike.{all_alike, same_interval, same_value, same_rank, same_var, same_loop, same_numbers, same_func};

use p10_cert::{FuncClaim, LoopClaim, Rank, ValueClaim, VarRange, VarRanges};
use p10_range::Range;

/// Whether the same is claimed of two functions.
pub(crate) fn same_func(f: &FuncClaim, g: &FuncClaim) -> bool
    ensures { result ≡ same_func (func_of f.now) (func_of g.now) }
{
    (f.name.as_slice() == g.name.as_slice() && same_numbers(f, g))
        && ((same_values(f.params.as_slice(), g.params.as_slice())
            && same_value(f.result, g.result))
            && same_loops(f.loops.as_slice(), g.loops.as_slice()))
}

/// Whether two claims have the same numbers.
fn same_numbers(f: &FuncClaim, g: &FuncClaim) -> bool
    ensures { result ≡ same_numbers (func_of f.now) (func_of g.now) }
{
    (f.rank == g.rank && f.steps == g.steps)
        && ((f.calls == g.calls && f.bytes == g.bytes) && f.alloc == g.alloc)
}

/// Whether the same is claimed of values, one after the other.
fn same_values(these: &[ValueClaim], others: &[ValueClaim]) -> bool
    ensures { result ≡ all_alike same_value (map value_of these.now) (map value_of others.now) }
{
    let mut these = these;
    let mut others = others;
    while let [v, rest @ ..] = these {
        match others {
            [w, further @ ..] => {
                if !same_value(*v, *w) {
                    return false;
                }
                these = rest;
                others = further;
            }
            [] => return false,
        }
    }
    others.is_empty()
}

/// Whether the same is claimed of two values.
fn same_value(v: ValueClaim, w: ValueClaim) -> bool
    ensures { result ≡ same_value (value_of v) (value_of w) }
{
    match v {
        ValueClaim::Ints(r) => match w {
            ValueClaim::Ints(s) => same_interval(r, s),
            ValueClaim::Pointer | ValueClaim::Void => false,
        },
        ValueClaim::Pointer => matches!(w, ValueClaim::Pointer),
        ValueClaim::Void => matches!(w, ValueClaim::Void),
    }
}

/// Whether two ranges have the same ends.
fn same_interval(r: Range, s: Range) -> bool
    ensures { result ≡ same_interval (interval_of r) (interval_of s) }
{
    r.lo == s.lo && r.hi == s.hi
}

/// Whether the same is claimed of loops, one after the other.
fn same_loops(these: &[LoopClaim], others: &[LoopClaim]) -> bool
    ensures { result ≡ all_alike same_loop (map loop_of these.now) (map loop_of others.now) }
{
    let mut these = these;
    let mut others = others;
    while let [l, rest @ ..] = these {
        match others {
            [m, further @ ..] => {
                if !same_loop(l, m) {
                    return false;
                }
                these = rest;
                others = further;
            }
            [] => return false,
        }
    }
    others.is_empty()
}

/// Whether the same is claimed of two loops.
fn same_loop(l: &LoopClaim, m: &LoopClaim) -> bool
    ensures { result ≡ same_loop (loop_of l.now) (loop_of m.now) }
{
    (l.depth == m.depth && same_rank(l.rank, m.rank))
        && (l.turns == m.turns && same_vars(&l.inv, &m.inv))
}

/// Whether two ranks are the same.
fn same_rank(r: Rank, s: Rank) -> bool
    ensures { result ≡ same_rank r s }
{
    match r {
        Rank::Up { var, bound } => match s {
            Rank::Up {
                var: other,
                bound: limit,
            } => var == other && bound == limit,
            Rank::Down { var: _, bound: _ } | Rank::One | Rank::Task => false,
        },
        Rank::Down { var, bound } => match s {
            Rank::Down {
                var: other,
                bound: limit,
            } => var == other && bound == limit,
            Rank::Up { var: _, bound: _ } | Rank::One | Rank::Task => false,
        },
        Rank::One => matches!(s, Rank::One),
        Rank::Task => matches!(s, Rank::Task),
    }
}

/// Whether lines on variables are the same, one after the other.
fn same_vars(these: &VarRanges, others: &VarRanges) -> bool
    ensures { result ≡ all_alike same_var these.now others.now }
{
    let mut left = these.reader();
    let mut further = others.reader();
    while let Some(v) = left.next() {
        match further.next() {
            Some(w) => {
                if !same_var(v, w) {
                    return false;
                }
            }
            None => return false,
        }
    }
    further.next().is_none()
}

/// Whether two lines on variables are the same.
fn same_var(v: VarRange, w: VarRange) -> bool
    ensures { result ≡ same_var (var_of v) (var_of w) }
{
    v.var == w.var && same_interval(v.range, w.range)
}

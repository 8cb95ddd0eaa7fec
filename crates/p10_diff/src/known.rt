//! What is known where two variables approach each other.

ghost use Rattle.std.specs.Prelude.{◌≡◌, ◌≤ℤ◌, IfSome, IfOk, map, slice_get};
ghost use Rattle.std.specs.Option.{option_map, option_copied};
ghost use Rattle.p10_range.specs.Ranges.{interval_of};
ghost use Rattle.p10_absx.specs.Abstract.{abstract_of};
ghost use Rattle.p10_core.specs.Views.{plain_variable};
ghost use Rattle.p10_diff.specs.Bounds.{lowest, highest};
ghost use Rattle.p10_diff.specs.Differences.{is_wide, has_name_in, has_name, is_either, range_of, range_named, bound, fallen};
ghost use Rattle.p10_diff.specs.Listed.{name_of};
ghost use Rattle.p10_diff.specs.Knowing.{pair_by, differences_of};

use crate::kinds::conversion_rank;
use crate::limits::{bottom, kept, least, plus, top};
use crate::listed::{Name, same_name};
use crate::tables::{Table, copied_table, found};
use p10_absx::{Abs, Env};
use p10_core::{Variable, integer_of};
use p10_int::{IntType, is_signed};
use p10_range::Range;
use std::alloc::{AllocError, Global};

/// Two variables of a function that approach each other, and what is known at the loop's head.
#[derive(Clone, Copy)]
pub struct Pair<'a, 's> {
    pub variables: &'a [Variable<'s>],
    pub below: u32,
    pub above: u32,
    pub head: &'a Env,
}

/// What is known: ranges, bounds of differences, and one of the fall.
#[derive(Drop)]
pub struct Diff {
    pub(crate) ranges: Env,
    pub(crate) bounds: Table,
    pub(crate) fall: Option<i128>,
}

impl Diff {
    /// The same again.
    pub(crate) fn copy(&self, alloc: Global) -> Result<Diff, AllocError>
        ensures { IfOk result (λ e. differences_of e ≡ differences_of self.now) }
    {
        let bounds = copied_table(alloc, self.bounds.as_slice())?;
        Ok(Diff {
            ranges: self.ranges.copy(alloc)?,
            bounds,
            fall: self.fall,
        })
    }
}

/// Whether an integer type is signed, of at least the rank of `int` (C99 6.3.1.1).
fn is_wide(kind: IntType) -> bool
    ensures { result ≡ is_wide kind }
{
    is_signed(kind) && conversion_rank(IntType::Int) <= conversion_rank(kind)
}

/// Whether a variable has a name.
fn has_name_in(v: Option<&Variable<'_>>) -> bool
    ensures { result ≡ has_name_in (option_map plain_variable (option_copied v.entry)) }
{
    match v {
        Some(v) => v.frame && (v.ty.is_integer() && is_wide(integer_of(&v.ty))),
        None => false,
    }
}

/// The range of what is known of a variable.
pub(crate) fn range_of(a: Option<Abs>) -> Option<Range>
    ensures { option_map interval_of result ≡ range_of (option_map abstract_of a) }
{
    match a {
        Some(a) => Some(a.range),
        None => None,
    }
}

/// The variable with a number.
pub(crate) fn variable_at<'a, 's>(
    variables: &'a [Variable<'s>],
    n: usize,
) -> Option<&'a Variable<'s>>
    ensures { option_map plain_variable (option_copied result) ≡ slice_get (map plain_variable variables.now) n }
{
    variables.get(n)
}

impl Pair<'_, '_> {
    /// Whether the variable with a number has a name.
    pub(crate) fn has_name(&self, n: u32) -> bool
        ensures { result ≡ has_name (pair_by self.now) n }
    {
        has_name_in(variable_at(self.variables, n as usize))
    }

    /// Whether the variable with a number is one of the two.
    pub(crate) fn is_either(&self, n: u32) -> bool
        ensures { result ≡ is_either (pair_by self.now) n }
    {
        self.below == n || self.above == n
    }

    /// The range of a name.
    pub(crate) fn range_named(&self, ranges: &Env, u: Name) -> Option<Range>
        ensures { option_map interval_of result ≡ range_named (pair_by self.now) ranges.now.values (name_of u) }
    {
        match u {
            Name::Now(n) => {
                if self.has_name(n) {
                    range_of(ranges.get(n))
                } else {
                    None
                }
            }
            Name::Was(n) => {
                if self.has_name(n) {
                    range_of(self.head.get(n))
                } else {
                    None
                }
            }
        }
    }

    /// An upper bound of `u - w`.
    pub(crate) fn bound(&self, e: &Diff, u: Name, w: Name) -> Option<i128>
        ensures is { result ≡ bound (pair_by self.now) (differences_of e.now) (name_of u) (name_of w) }
        ensures small { IfSome result (λ z. (lowest ≤ℤ z) × (z ≤ℤ highest)) }
    {
        if same_name(u, w) {
            return Some(0);
        }
        let ranged = plus(
            top(self.range_named(&e.ranges, u)),
            bottom(self.range_named(&e.ranges, w)),
        );
        kept(least(found(e.bounds.as_slice(), u, w), ranged))
    }

    /// An upper bound of the fall.
    pub(crate) fn fallen(&self, e: &Diff) -> Option<i128>
        ensures { result ≡ fallen (pair_by self.now) (differences_of e.now) }
    {
        let down = self.bound(e, Name::Now(self.above), Name::Was(self.above));
        let up = self.bound(e, Name::Was(self.below), Name::Now(self.below));
        least(e.fall, plus(down, up))
    }
}

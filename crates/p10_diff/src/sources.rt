//! What is assigned: a value, or the result of an update.

ghost use Rattle.std.specs.Prelude.{◌≡◌, IfSome, OnOk, IfOk};
ghost use Rattle.p10_diff.specs.Halves.{IsPart};
ghost use Rattle.p10_diff.specs.Knowing.{pair_by, differences_of};
ghost use Rattle.p10_diff.specs.Listed.{name_of};
ghost use Rattle.p10_diff.specs.private.Assigning.{update_ends, source_ends, IsSource};

use crate::ends::{Ends, NO_ENDS, met_ends, named_ends};
use crate::known::{Diff, Pair};
use crate::listed::Name;
use crate::operands::{Operands, Sides};
use crate::rows::{operands_ends, value_ends};
use p10_core::Value;
use p10_int::BinOp;
use std::alloc::{AllocError, Global};

/// What is assigned.
#[derive(Clone, Copy)]
pub enum Source<'v> {
    /// A value.
    Kept(&'v Value),
    /// The result of an operator on what is updated and a value; where a conversion follows, nothing is known of it.
    Updated(BinOp, Option<Operands>, &'v Value),
}

/// The bounds of the result of an update.
fn update_ends(
    p: &Pair<'_, '_>,
    op: BinOp,
    operands: Option<Operands>,
    e: &Diff,
    w: Name,
    right: Ends,
) -> Ends
    requires { IfSome operands (λ o. IfSome o.part IsPart) }
    ensures { result ≡ update_ends (pair_by p.now) op operands (differences_of e.now) (name_of w) right }
{
    match operands {
        Some(o) => {
            let left = met_ends(p, &e.ranges, o.first, w, named_ends(p, e, o.variable, w));
            operands_ends(p, e, op, &o, w, Sides { left, right })
        }
        None => NO_ENDS,
    }
}

/// By how much what is assigned is above a name, and below it, at most.
pub(crate) fn source_ends(
    alloc: Global,
    p: &Pair<'_, '_>,
    e: &mut Diff,
    source: Source<'_>,
    w: Name,
) -> Result<Ends, AllocError>
    requires { IsSource source }
    ensures same { OnOk result (e.new ≡ e.old) }
    ensures are { IfOk result (λ c. c ≡ source_ends (pair_by p.now) source.entry (differences_of e.old) (name_of w)) }
{
    match source {
        Source::Kept(v) => value_ends(alloc, p, e, v, w),
        Source::Updated(op, operands, v) => {
            let right = value_ends(alloc, p, e, v, w)?;
            Ok(update_ends(p, op, operands, e, w, right))
        }
    }
}

//! By how much a value is above a name, and below it, at most.

ghost use Rattle.std.specs.Prelude.{◌≡◌, IfSome, OnOk, IfOk};
ghost use Rattle.std.specs.Option.{option_map};
ghost use Rattle.p10_core.specs.Views.{plain_value};
ghost use Rattle.p10_diff.specs.Differences.{named};
ghost use Rattle.p10_diff.specs.Listed.{name_of};
ghost use Rattle.p10_diff.specs.Knowing.{pair_by, differences_of};
ghost use Rattle.p10_diff.specs.Halves.{IsPart, IsMidpoint, midpoint_by};
ghost use Rattle.p10_diff.specs.private.Ends.{named_ends, sum_ends, row_ends, value_ends};
ghost use Rattle.p10_diff.specs.private.Operands.{operands_ends, operands_by};

use crate::ends::{Ends, NO_ENDS, least_ends, met_ends, named_ends, plus_ends};
use crate::halving::{Midpoint, midpoint_ends, midpoint_of, named, value_range};
use crate::known::{Diff, Pair};
use crate::limits::{bottom, top};
use crate::listed::Name;
use crate::operands::{Operands, Sides, find_operands};
use p10_core::{Value, ValueForm};
use p10_int::BinOp;
use std::alloc::{AllocError, Global};

/// A midpoint's bounds, or those of a sum.
fn sum_ends(p: &Pair<'_, '_>, e: &Diff, m: Option<Midpoint>, w: Name, sum: Ends) -> Ends
    requires { IfSome m IsMidpoint }
    ensures { result ≡ sum_ends (pair_by p.now) (differences_of e.now) (option_map midpoint_by m) (name_of w) sum }
{
    match m {
        Some(m) => midpoint_ends(p, e, m, w),
        None => sum,
    }
}

/// The bounds of an operator's result: of a midpoint, of an exact sum or difference.
pub(crate) fn operands_ends(
    p: &Pair<'_, '_>,
    e: &Diff,
    op: BinOp,
    o: &Operands,
    w: Name,
    sides: Sides,
) -> Ends
    requires { IfSome o.now.part IsPart }
    ensures { result ≡ operands_ends (pair_by p.now) (differences_of e.now) op (operands_by o.now) (name_of w) sides.left sides.right }
{
    match op {
        BinOp::Add => {
            if !o.exact {
                return NO_ENDS;
            }
            let m = midpoint_of(p, e, o.variable, o.part);
            let by_left = plus_ends(sides.left, top(o.second), bottom(o.second));
            let by_right = plus_ends(sides.right, top(o.first), bottom(o.first));
            sum_ends(p, e, m, w, least_ends(by_left, by_right))
        }
        BinOp::Sub => {
            if o.exact {
                plus_ends(sides.left, bottom(o.second), top(o.second))
            } else {
                NO_ENDS
            }
        }
        BinOp::Mul
        | BinOp::Div
        | BinOp::Rem
        | BinOp::Shl
        | BinOp::Shr
        | BinOp::Lt
        | BinOp::Gt
        | BinOp::Le
        | BinOp::Ge
        | BinOp::Eq
        | BinOp::Ne
        | BinOp::And
        | BinOp::Xor
        | BinOp::Or => NO_ENDS,
    }
}

/// The bounds of the variable that a value is, if it has a name.
fn variable_row(
    alloc: Global,
    p: &Pair<'_, '_>,
    e: &mut Diff,
    v: &Value,
    w: Name,
) -> Result<Ends, AllocError>
    ensures same { OnOk result (e.new ≡ e.old) }
    ensures are { IfOk result (λ c. c ≡ named_ends (pair_by p.now) (differences_of e.old) (named (pair_by p.now) (differences_of e.old).ranges (plain_value v.now)) (name_of w)) }
{
    let n = named(alloc, p, &mut e.ranges, v)?;
    Ok(named_ends(p, e, n, w))
}

/// The bounds by the row of a value, and by its range.
#[cycle(walking)]
pub(crate) fn value_ends(
    alloc: Global,
    p: &Pair<'_, '_>,
    e: &mut Diff,
    v: &Value,
    w: Name,
) -> Result<Ends, AllocError>
    ensures same { OnOk result (e.new ≡ e.old) }
    ensures are { IfOk result (λ c. c ≡ value_ends (pair_by p.now) (plain_value v.now) (differences_of e.old) (name_of w)) }
{
    let row = row_ends(alloc, p, e, v, w)?;
    let r = value_range(alloc, &mut e.ranges, v)?;
    Ok(met_ends(p, &e.ranges, r, w, row))
}

/// The row of a value.
#[cycle(walking)]
fn row_ends(
    alloc: Global,
    p: &Pair<'_, '_>,
    e: &mut Diff,
    v: &Value,
    w: Name,
) -> Result<Ends, AllocError>
    ensures same { OnOk result (e.new ≡ e.old) }
    ensures are { IfOk result (λ c. c ≡ row_ends (pair_by p.now) (plain_value v.now) (differences_of e.old) (name_of w)) }
{
    match &v.form {
        ValueForm::Binary(op, a, b) => {
            let left = value_ends(alloc, p, e, a, w)?;
            let right = value_ends(alloc, p, e, b, w)?;
            let o = find_operands(alloc, p, &mut e.ranges, &v.ty, a, b)?;
            Ok(operands_ends(p, e, *op, &o, w, Sides { left, right }))
        }
        ValueForm::Const(_)
        | ValueForm::Read(_)
        | ValueForm::Sense(_)
        | ValueForm::Addr(_)
        | ValueForm::Decay(_)
        | ValueForm::Convert(_)
        | ValueForm::Cast(_)
        | ValueForm::Unary(_, _)
        | ValueForm::Logic(_, _, _)
        | ValueForm::Cond(_, _, _)
        | ValueForm::Call(_, _, _)
        | ValueForm::Builtin(_, _, _) => variable_row(alloc, p, e, v, w),
    }
}

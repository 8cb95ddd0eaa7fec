//! What comparisons say of differences.

ghost use Rattle.std.specs.Prelude.{◌≡◌, ◌&&◌, OnOk};
ghost use Rattle.p10_absx.specs.Assessing.{are_integers};
ghost use Rattle.p10_absx.specs.Comparing.{is_comparison, contrary};
ghost use Rattle.p10_core.specs.Views.{plain_value};
ghost use Rattle.p10_diff.specs.Domain.{compared_names, compared};
ghost use Rattle.p10_diff.specs.Listed.{name_of, bounds_listed};
ghost use Rattle.p10_diff.specs.Knowing.{pair_by, differences_of};
ghost use Rattle.p10_diff.specs.private.Conditions.{taught};

use crate::halving::named;
use crate::known::{Diff, Pair};
use crate::listed::Name;
use crate::tables::{Table, learn};
use p10_core::Value;
use p10_int::BinOp;
use std::alloc::{AllocError, Global};

/// Whether an operator compares (C99 6.5.8, 6.5.9).
fn is_comparison(op: BinOp) -> bool
    ensures { result ≡ is_comparison op }
{
    match op {
        BinOp::Lt | BinOp::Gt | BinOp::Le | BinOp::Ge | BinOp::Eq | BinOp::Ne => true,
        BinOp::Add | BinOp::Sub | BinOp::Mul | BinOp::Div | BinOp::Rem => false,
        BinOp::Shl | BinOp::Shr | BinOp::And | BinOp::Or | BinOp::Xor => false,
    }
}

/// The comparison that holds where another one doesn't.
pub(crate) fn contrary(op: BinOp) -> BinOp
    ensures { result ≡ contrary op }
{
    match op {
        BinOp::Lt => BinOp::Ge,
        BinOp::Ge => BinOp::Lt,
        BinOp::Gt => BinOp::Le,
        BinOp::Le => BinOp::Gt,
        BinOp::Eq => BinOp::Ne,
        BinOp::Ne => BinOp::Eq,
        BinOp::Add | BinOp::Sub | BinOp::Mul | BinOp::Div | BinOp::Rem => op,
        BinOp::Shl | BinOp::Shr | BinOp::And | BinOp::Or | BinOp::Xor => op,
    }
}

/// Whether both values are integers.
fn are_integers(a: &Value, b: &Value) -> bool
    ensures { result ≡ are_integers (plain_value a.now) (plain_value b.now) }
{
    a.ty.is_integer() && b.ty.is_integer()
}

/// What a comparison of two names says.
fn compare_names(
    alloc: Global,
    bounds: &mut Table,
    op: BinOp,
    u: Name,
    w: Name,
) -> Result<(), AllocError>
    ensures { OnOk result (bounds_listed bounds.new.items ≡ compared_names op (name_of u) (name_of w) (bounds_listed bounds.old.items)) }
{
    match op {
        BinOp::Lt => learn(alloc, bounds, u, w, -1),
        BinOp::Le => learn(alloc, bounds, u, w, 0),
        BinOp::Gt => learn(alloc, bounds, w, u, -1),
        BinOp::Ge => learn(alloc, bounds, w, u, 0),
        BinOp::Eq => {
            learn(alloc, bounds, w, u, 0)?;
            learn(alloc, bounds, u, w, 0)
        }
        BinOp::Ne
        | BinOp::Add
        | BinOp::Sub
        | BinOp::Mul
        | BinOp::Div
        | BinOp::Rem
        | BinOp::Shl
        | BinOp::Shr
        | BinOp::And
        | BinOp::Or
        | BinOp::Xor => Ok(()),
    }
}

/// What a comparison of two variables says, if there are two.
fn compare(
    alloc: Global,
    bounds: &mut Table,
    op: BinOp,
    left: Option<u32>,
    right: Option<u32>,
) -> Result<(), AllocError>
    ensures { OnOk result (bounds_listed bounds.new.items ≡ compared op left right (bounds_listed bounds.old.items)) }
{
    match left {
        Some(n) => match right {
            Some(m) => {
                if n == m {
                    Ok(())
                } else {
                    compare_names(alloc, bounds, op, Name::Now(n), Name::Now(m))
                }
            }
            None => Ok(()),
        },
        None => Ok(()),
    }
}

/// Whether an operator compares two integers.
fn compares(op: BinOp, a: &Value, b: &Value) -> bool
    ensures { result ≡ (is_comparison op && are_integers (plain_value a.now) (plain_value b.now)) }
{
    is_comparison(op) && are_integers(a, b)
}

/// What a comparison of two values says, where it holds.
pub(crate) fn teach(
    alloc: Global,
    p: &Pair<'_, '_>,
    op: BinOp,
    a: &Value,
    b: &Value,
    e: &mut Diff,
) -> Result<(), AllocError>
    ensures { OnOk result (differences_of e.new ≡ taught (pair_by p.now) op (plain_value a.now) (plain_value b.now) (differences_of e.old)) }
{
    if !compares(op, a, b) {
        return Ok(());
    }
    let left = named(alloc, p, &mut e.ranges, a)?;
    let right = named(alloc, p, &mut e.ranges, b)?;
    compare(alloc, &mut e.bounds, op, left, right)
}

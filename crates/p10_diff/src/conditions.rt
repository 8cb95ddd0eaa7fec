//! Conditions, and what is known where one of two is.

ghost use Rattle.std.specs.Prelude.{◌≡◌, if◌then◌else◌, IfOk, OnOk, true, false};
ghost use Rattle.std.specs.Option.{option_map, option_and_then};
ghost use Rattle.p10_core.specs.Views.{plain_value, plain_values};
ghost use Rattle.p10_absx.specs.Comparing.{contrary};
ghost use Rattle.p10_diff.specs.Domain.{assume};
ghost use Rattle.p10_diff.specs.Knowing.{pair_by, differences_of};
ghost use Rattle.p10_diff.specs.private.Conditions.{logic_true, logic_false, told_by, ranged_where, called_where, only_where};

use crate::comparing::{contrary, teach};
use crate::hulls::hull_maybe;
use crate::known::{Diff, Pair};
use p10_core::{Library, LogicOp, Value, ValueForm};
use p10_int::{BinOp, UnOp};
use std::alloc::{AllocError, Global};

/// What is known where a value is true, and where it is false: nothing where it can't be.
#[derive(Drop)]
pub(crate) struct Outcomes {
    pub(crate) truth: Option<Diff>,
    pub(crate) contrary: Option<Diff>,
}

/// Assumes that a value is true or false.
pub(crate) fn assume(
    alloc: Global,
    p: &Pair<'_, '_>,
    v: &Value,
    truth: bool,
    e: Diff,
) -> Result<Option<Diff>, AllocError>
    ensures { IfOk result (λ r. option_map differences_of r ≡ assume (pair_by p.now) (plain_value v.now) truth (differences_of e)) }
{
    let both = both_outcomes(alloc, p, v, e)?;
    let Outcomes {
        truth: held,
        contrary: failed,
    } = both;
    Ok(if truth { held } else { failed })
}

/// Both outcomes of a value.
#[cycle(assuming)]
fn both_outcomes(
    alloc: Global,
    p: &Pair<'_, '_>,
    v: &Value,
    e: Diff,
) -> Result<Outcomes, AllocError>
    ensures truth { IfOk result (λ o. option_map differences_of o.truth ≡ assume (pair_by p.now) (plain_value v.now) true (differences_of e)) }
    ensures contrary { IfOk result (λ o. option_map differences_of o.contrary ≡ assume (pair_by p.now) (plain_value v.now) false (differences_of e)) }
{
    match &v.form {
        ValueForm::Logic(op, a, b) => {
            let left = both_outcomes(alloc, p, a, e)?;
            logic(alloc, p, b, *op, left)
        }
        ValueForm::Unary(op, a) => match op {
            UnOp::Not => {
                let of = both_outcomes(alloc, p, a, e)?;
                Ok(turned(of))
            }
            UnOp::Plus | UnOp::Neg | UnOp::Com => ranged(alloc, p, v, e),
        },
        ValueForm::Builtin(_, library, arguments) => {
            called(alloc, p, arguments.as_slice(), *library, v, e)
        }
        ValueForm::Binary(_, _, _)
        | ValueForm::Const(_)
        | ValueForm::Read(_)
        | ValueForm::Sense(_)
        | ValueForm::Addr(_)
        | ValueForm::Decay(_)
        | ValueForm::Convert(_)
        | ValueForm::Cast(_)
        | ValueForm::Cond(_, _, _)
        | ValueForm::Call(_, _, _) => ranged(alloc, p, v, e),
    }
}

/// Both outcomes of a call of a library function: `c_assert` has those of its argument.
#[cycle(assuming)]
fn called(
    alloc: Global,
    p: &Pair<'_, '_>,
    arguments: &[Value],
    library: Library,
    v: &Value,
    e: Diff,
) -> Result<Outcomes, AllocError>
    ensures truth { IfOk result (λ o. option_map differences_of o.truth ≡ called_where (pair_by p.now) library (plain_values arguments.now) true (differences_of e) (ranged_where (pair_by p.now) (plain_value v.now) true (differences_of e))) }
    ensures contrary { IfOk result (λ o. option_map differences_of o.contrary ≡ called_where (pair_by p.now) library (plain_values arguments.now) false (differences_of e) (ranged_where (pair_by p.now) (plain_value v.now) false (differences_of e))) }
{
    match library {
        Library::CAssert => asserted(alloc, p, arguments, v, e),
        Library::Getchar
        | Library::Putchar
        | Library::Assert
        | Library::Malloc
        | Library::Calloc
        | Library::Free => ranged(alloc, p, v, e),
    }
}

/// Both outcomes of the only argument of a call, or else those of the call by ranges.
#[tactic(auto, using(crate::proofs::Outcomes::only_none, crate::proofs::Outcomes::only_many))]
#[cycle(assuming)]
fn asserted(
    alloc: Global,
    p: &Pair<'_, '_>,
    arguments: &[Value],
    v: &Value,
    e: Diff,
) -> Result<Outcomes, AllocError>
    ensures truth { IfOk result (λ o. option_map differences_of o.truth ≡ only_where (pair_by p.now) (plain_values arguments.now) true (differences_of e) (ranged_where (pair_by p.now) (plain_value v.now) true (differences_of e))) }
    ensures contrary { IfOk result (λ o. option_map differences_of o.contrary ≡ only_where (pair_by p.now) (plain_values arguments.now) false (differences_of e) (ranged_where (pair_by p.now) (plain_value v.now) false (differences_of e))) }
{
    match arguments {
        [] => ranged(alloc, p, v, e),
        [a] => both_outcomes(alloc, p, a, e),
        [_, _, ..] => ranged(alloc, p, v, e),
    }
}

/// The same where a state may not come.
#[cycle(assuming)]
fn outcomes_after(
    alloc: Global,
    p: &Pair<'_, '_>,
    v: &Value,
    e: Option<Diff>,
) -> Result<Outcomes, AllocError>
    ensures truth { IfOk result (λ o. option_map differences_of o.truth ≡ option_and_then (assume (pair_by p.now) (plain_value v.now) true) (option_map differences_of e)) }
    ensures contrary { IfOk result (λ o. option_map differences_of o.contrary ≡ option_and_then (assume (pair_by p.now) (plain_value v.now) false) (option_map differences_of e)) }
{
    match e {
        Some(e) => both_outcomes(alloc, p, v, e),
        None => Ok(Outcomes {
            truth: None,
            contrary: None,
        }),
    }
}

/// Both outcomes of `&&` or `||`, by those of its left operand.
#[cycle(assuming)]
fn logic(
    alloc: Global,
    p: &Pair<'_, '_>,
    right: &Value,
    op: LogicOp,
    left: Outcomes,
) -> Result<Outcomes, AllocError>
    ensures truth { IfOk result (λ o. option_map differences_of o.truth ≡ logic_true (pair_by p.now) op (plain_value right.now) (option_map differences_of left.truth) (option_map differences_of left.contrary)) }
    ensures contrary { IfOk result (λ o. option_map differences_of o.contrary ≡ logic_false (pair_by p.now) op (plain_value right.now) (option_map differences_of left.truth) (option_map differences_of left.contrary)) }
{
    let Outcomes { truth, contrary } = left;
    match op {
        LogicOp::And => {
            let rest = outcomes_after(alloc, p, right, truth)?;
            let Outcomes {
                truth: both,
                contrary: second,
            } = rest;
            Ok(Outcomes {
                truth: both,
                contrary: hull_maybe(alloc, p, contrary, second)?,
            })
        }
        LogicOp::Or => {
            let rest = outcomes_after(alloc, p, right, contrary)?;
            let Outcomes {
                truth: second,
                contrary: neither,
            } = rest;
            Ok(Outcomes {
                truth: hull_maybe(alloc, p, truth, second)?,
                contrary: neither,
            })
        }
    }
}

/// Outcomes the other way round.
fn turned(of: Outcomes) -> Outcomes
    ensures { (result.truth ≡ of.contrary) × (result.contrary ≡ of.truth) }
{
    let Outcomes { truth, contrary } = of;
    Outcomes {
        truth: contrary,
        contrary: truth,
    }
}

/// Both outcomes of a value without conditions in it.
fn ranged(alloc: Global, p: &Pair<'_, '_>, v: &Value, e: Diff) -> Result<Outcomes, AllocError>
    ensures truth { IfOk result (λ o. option_map differences_of o.truth ≡ ranged_where (pair_by p.now) (plain_value v.now) true (differences_of e)) }
    ensures contrary { IfOk result (λ o. option_map differences_of o.contrary ≡ ranged_where (pair_by p.now) (plain_value v.now) false (differences_of e)) }
{
    let other = e.copy(alloc)?;
    let truth = ranged_where(alloc, p, v, true, e)?;
    let contrary = ranged_where(alloc, p, v, false, other)?;
    Ok(Outcomes { truth, contrary })
}

/// One of them: by ranges, and by what a comparison of two variables says.
fn ranged_where(
    alloc: Global,
    p: &Pair<'_, '_>,
    v: &Value,
    truth: bool,
    e: Diff,
) -> Result<Option<Diff>, AllocError>
    ensures { IfOk result (λ r. option_map differences_of r ≡ ranged_where (pair_by p.now) (plain_value v.now) truth (differences_of e)) }
{
    let mut e = e;
    match e.ranges.assumed(alloc, None, v, truth)? {
        Some(after) => {
            tell(alloc, p, v, truth, &mut e)?;
            e.ranges = after;
            Ok(Some(e))
        }
        None => Ok(None),
    }
}

/// What a value says of differences where it is true or false.
fn tell(
    alloc: Global,
    p: &Pair<'_, '_>,
    v: &Value,
    truth: bool,
    e: &mut Diff,
) -> Result<(), AllocError>
    ensures { OnOk result (differences_of e.new ≡ told_by (pair_by p.now) (plain_value v.now) truth (differences_of e.old)) }
{
    match &v.form {
        ValueForm::Binary(op, a, b) => teach(alloc, p, op_where(*op, truth), a, b, e),
        _ => Ok(()),
    }
}

/// The comparison that holds where one is true, or false.
fn op_where(op: BinOp, truth: bool) -> BinOp
    ensures { result ≡ (if truth then op else contrary op) }
{
    if truth { op } else { contrary(op) }
}

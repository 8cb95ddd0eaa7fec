//! What statements without parts do to what is known.

ghost use Rattle.std.specs.Prelude.{◌≡◌, IfOk};
ghost use Rattle.std.specs.Option.{option_map, option_copied};
ghost use Rattle.p10_core.specs.Types.{plain_type};
ghost use Rattle.p10_core.specs.Views.{plain_place, plain_value, plain_initializer, plain_statement, plain_statement_form, plain_variable};
ghost use Rattle.p10_pass.specs.Leaving.{values_in};
ghost use Rattle.p10_diff.specs.Expressions.{up, low};
ghost use Rattle.p10_diff.specs.Domain.{assigned_to, updated_up, updated_low, kind_in, declared, seen, declared_as, after};
ghost use Rattle.p10_diff.specs.Knowing.{pair_by, differences_of};
ghost use Rattle.p10_diff.specs.private.Executing.{ranges_after};

use crate::assigning::{assign, fall_without};
use crate::conditions::assume;
use crate::known::{Diff, Pair, variable_at};
use crate::scopes::forget_declared;
use crate::sources::Source;
use crate::tables::without_variable;
use crate::updating::{Update, update_operands};
use p10_absx::{Env, whole_type};
use p10_core::{Initializer, Place, PlaceForm, Stmt, StmtForm, Value, Variable, integer_of};
use p10_int::{BinOp, IntType};
use p10_pass::{Manner, pass_statement};
use std::alloc::{AllocError, Global};

/// What ranges are known after a statement without parts.
fn ranges_after(
    alloc: Global,
    p: &Pair<'_, '_>,
    s: &Stmt,
    env: Env,
) -> Result<Option<Env>, AllocError>
    ensures { IfOk result (λ r. values_in r ≡ ranges_after (pair_by p.now) (plain_statement s.now) env.values) }
{
    let mut env = env;
    forget_declared(&mut env, s);
    let m = Manner::trial(p.variables);
    let left = pass_statement(alloc, &m, s, env)?;
    let mut left = left;
    Ok(left.normal.take())
}

/// The same from what is known, which stays.
fn ranges_from(
    alloc: Global,
    p: &Pair<'_, '_>,
    s: &Stmt,
    e: &Diff,
) -> Result<Option<Env>, AllocError>
    ensures { IfOk result (λ r. values_in r ≡ ranges_after (pair_by p.now) (plain_statement s.now) (differences_of e.now).ranges) }
{
    let env = e.ranges.copy(alloc)?;
    ranges_after(alloc, p, s, env)
}

/// Other ranges are known.
fn with_ranges(e: Diff, after: Env) -> Diff
    ensures { differences_of result ≡ record (differences_of e) { ranges = after.values } }
{
    let mut e = e;
    e.ranges = after;
    e
}

/// Ranges alone are changed by a statement.
fn ranged(alloc: Global, p: &Pair<'_, '_>, s: &Stmt, e: Diff) -> Result<Option<Diff>, AllocError>
    ensures { IfOk result (λ r. option_map differences_of r ≡ option_map (λ ranges. record (differences_of e) { ranges = ranges }) (ranges_after (pair_by p.now) (plain_statement s.now) (differences_of e).ranges)) }
{
    match ranges_from(alloc, p, s, &e)? {
        Some(after) => Ok(Some(with_ranges(e, after))),
        None => Ok(None),
    }
}

/// A value is assigned to a place: only variables are known.
fn assign_to(
    alloc: Global,
    p: &Pair<'_, '_>,
    target: &Place,
    v: &Value,
    e: Diff,
    after: Env,
) -> Result<Diff, AllocError>
    ensures { IfOk result (λ r. differences_of r ≡ assigned_to (pair_by p.now) (plain_place target.now) (up (pair_by p.now) (plain_value v.now) (differences_of e)) (low (pair_by p.now) (plain_value v.now) (differences_of e)) (differences_of e) after.values) }
{
    match &target.form {
        PlaceForm::Var(n) => assign(alloc, p, *n, Source::Kept(v), e, after),
        PlaceForm::Global(_)
        | PlaceForm::Literal(_, _)
        | PlaceForm::Index(_, _)
        | PlaceForm::Member(_, _)
        | PlaceForm::Deref(_) => Ok(with_ranges(e, after)),
    }
}

/// `P = v;`
fn set(
    alloc: Global,
    p: &Pair<'_, '_>,
    s: &Stmt,
    target: &Place,
    v: &Value,
    e: Diff,
) -> Result<Option<Diff>, AllocError>
    ensures { IfOk result (λ r. option_map differences_of r ≡ option_map (assigned_to (pair_by p.now) (plain_place target.now) (up (pair_by p.now) (plain_value v.now) (differences_of e)) (low (pair_by p.now) (plain_value v.now) (differences_of e)) (differences_of e)) (ranges_after (pair_by p.now) (plain_statement s.now) (differences_of e).ranges)) }
{
    match ranges_from(alloc, p, s, &e)? {
        Some(after) => Ok(Some(assign_to(alloc, p, target, v, e, after)?)),
        None => Ok(None),
    }
}

/// A place is updated: only variables are known.
fn update_in(
    alloc: Global,
    p: &Pair<'_, '_>,
    op: BinOp,
    u: &Update<'_>,
    e: Diff,
    after: Env,
) -> Result<Diff, AllocError>
    ensures { IfOk result (λ r. differences_of r ≡ assigned_to (pair_by p.now) (plain_place u.now.place.now) (updated_up (pair_by p.now) (differences_of e) op (plain_type u.now.ty.now) (plain_place u.now.place.now) (plain_value u.now.by.now)) (updated_low (pair_by p.now) (differences_of e) op (plain_type u.now.ty.now) (plain_place u.now.place.now) (plain_value u.now.by.now)) (differences_of e) after.values) }
{
    match &u.place.form {
        PlaceForm::Var(n) => {
            let mut e = e;
            let operands = update_operands(alloc, p, &mut e.ranges, u)?;
            assign(alloc, p, *n, Source::Updated(op, operands, u.by), e, after)
        }
        PlaceForm::Global(_)
        | PlaceForm::Literal(_, _)
        | PlaceForm::Index(_, _)
        | PlaceForm::Member(_, _)
        | PlaceForm::Deref(_) => Ok(with_ranges(e, after)),
    }
}

/// `P op= v;`
fn update(
    alloc: Global,
    p: &Pair<'_, '_>,
    s: &Stmt,
    op: BinOp,
    u: &Update<'_>,
    e: Diff,
) -> Result<Option<Diff>, AllocError>
    ensures { IfOk result (λ r. option_map differences_of r ≡ option_map (assigned_to (pair_by p.now) (plain_place u.now.place.now) (updated_up (pair_by p.now) (differences_of e) op (plain_type u.now.ty.now) (plain_place u.now.place.now) (plain_value u.now.by.now)) (updated_low (pair_by p.now) (differences_of e) op (plain_type u.now.ty.now) (plain_place u.now.place.now) (plain_value u.now.by.now)) (differences_of e)) (ranges_after (pair_by p.now) (plain_statement s.now) (differences_of e).ranges)) }
{
    match ranges_from(alloc, p, s, &e)? {
        Some(after) => Ok(Some(update_in(alloc, p, op, u, e, after)?)),
        None => Ok(None),
    }
}

/// The integer type of a variable, if it is there.
fn kind_in(v: Option<&Variable<'_>>) -> IntType
    ensures { result ≡ kind_in (option_map plain_variable (option_copied v.entry)) }
{
    match v {
        Some(v) => integer_of(&v.ty),
        None => IntType::Int,
    }
}

/// A variable is declared, and other ranges are known.
fn declared(
    alloc: Global,
    p: &Pair<'_, '_>,
    n: u32,
    e: Diff,
    ranges: Env,
) -> Result<Diff, AllocError>
    ensures { IfOk result (λ r. differences_of r ≡ declared (pair_by p.now) n (differences_of e) ranges.values) }
{
    Ok(Diff {
        ranges,
        bounds: without_variable(alloc, n, e.bounds.as_slice())?,
        fall: fall_without(p, n, e.fall),
    })
}

/// What the initialiser of a variable sees: it has any value of its type.
fn seen(alloc: Global, p: &Pair<'_, '_>, n: u32, e: Diff) -> Result<Diff, AllocError>
    ensures { IfOk result (λ r. differences_of r ≡ seen (pair_by p.now) n (differences_of e)) }
{
    let mut ranges = e.ranges.copy(alloc)?;
    ranges.forget(n);
    ranges.set(n, whole_type(kind_in(variable_at(p.variables, n as usize))));
    declared(alloc, p, n, e, ranges)
}

/// A declaration, where ranges are known after it.
fn declare_in(
    alloc: Global,
    p: &Pair<'_, '_>,
    n: u32,
    initial: &Initializer,
    e: Diff,
    after: Env,
) -> Result<Diff, AllocError>
    ensures { IfOk result (λ r. differences_of r ≡ declared_as (pair_by p.now) n (plain_initializer initial.now) (differences_of e) after.values) }
{
    match initial {
        Initializer::Single(v) => {
            let e = seen(alloc, p, n, e)?;
            assign(alloc, p, n, Source::Kept(v), e, after)
        }
        Initializer::Absent | Initializer::Copied(_) | Initializer::Listed(_, _) => {
            declared(alloc, p, n, e, after)
        }
    }
}

/// A declaration.
fn declare(
    alloc: Global,
    p: &Pair<'_, '_>,
    s: &Stmt,
    n: u32,
    initial: &Initializer,
    e: Diff,
) -> Result<Option<Diff>, AllocError>
    ensures { IfOk result (λ r. option_map differences_of r ≡ option_map (declared_as (pair_by p.now) n (plain_initializer initial.now) (differences_of e)) (ranges_after (pair_by p.now) (plain_statement s.now) (differences_of e).ranges)) }
{
    match ranges_from(alloc, p, s, &e)? {
        Some(after) => Ok(Some(declare_in(alloc, p, n, initial, e, after)?)),
        None => Ok(None),
    }
}

/// A statement without parts.
pub(crate) fn execute(
    alloc: Global,
    p: &Pair<'_, '_>,
    s: &Stmt,
    e: Diff,
) -> Result<Option<Diff>, AllocError>
    ensures { IfOk result (λ r. option_map differences_of r ≡ after (pair_by p.now) (plain_statement_form s.now.form) (differences_of e)) }
{
    match &s.form {
        StmtForm::Set(target, v) => set(alloc, p, s, target, v, e),
        StmtForm::Update(_, op, t, target, v) => {
            let u = Update {
                ty: t,
                place: target,
                by: v,
            };
            update(alloc, p, s, *op, &u, e)
        }
        StmtForm::Declare(n, initial) => declare(alloc, p, s, *n, initial, e),
        StmtForm::Assert(_, v) => assume(alloc, p, v, true, e),
        StmtForm::Copy(_, _)
        | StmtForm::Value(_)
        | StmtForm::Static(_)
        | StmtForm::Block(_)
        | StmtForm::If(_, _, None)
        | StmtForm::If(_, _, Some(_))
        | StmtForm::Loop(_, _, _, _, _)
        | StmtForm::Switch(_, _, _, _)
        | StmtForm::Break
        | StmtForm::Continue
        | StmtForm::Return(_, _)
        | StmtForm::Empty
        | StmtForm::Mark(_) => ranged(alloc, p, s, e),
    }
}

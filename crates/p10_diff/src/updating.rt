//! The operands of updates.

ghost use Rattle.std.specs.Prelude.{◌≡◌, IfSome, OnOk, IfOk};
ghost use Rattle.std.specs.Option.{option_map};
ghost use Rattle.p10_range.specs.Ranges.{interval_of};
ghost use Rattle.p10_core.specs.Types.{plain_type};
ghost use Rattle.p10_core.specs.Constants.{integer_of};
ghost use Rattle.p10_core.specs.Typed.{place_type};
ghost use Rattle.p10_core.specs.Views.{plain_place, plain_value};
ghost use Rattle.p10_absx.specs.Abstract.{abstract_of};
ghost use Rattle.p10_diff.specs.Differences.{named};
ghost use Rattle.p10_diff.specs.Domain.{is_unconverted, read_of};
ghost use Rattle.p10_diff.specs.Expressions.{is_exact, value_range};
ghost use Rattle.p10_diff.specs.Halves.{IsPart};
ghost use Rattle.p10_diff.specs.Knowing.{pair_by};
ghost use Rattle.p10_diff.specs.private.Operands.{operands_by};
ghost use Rattle.p10_diff.specs.private.Executing.{update_operands, variable_if, range_or};

use crate::halving::{named_by, part_in, value_range};
use crate::kinds::conversion_rank;
use crate::known::Pair;
use crate::operands::Operands;
use p10_absx::{Abs, Env, lies_within, values, whole_type};
use p10_core::{CType, Place, PlaceForm, Value, integer_of};
use p10_int::{IntType, is_signed};
use p10_range::Range;
use std::alloc::{AllocError, Global};

/// An update of a place by an operator at a type, and a value.
#[derive(Clone, Copy)]
pub struct Update<'v> {
    pub ty: &'v CType,
    pub place: &'v Place,
    pub by: &'v Value,
}

/// Whether no conversion lies between an operator's type and that of the place that it updates.
fn is_unconverted(t: IntType, u: IntType) -> bool
    ensures { result ≡ is_unconverted t u }
{
    conversion_rank(t) == conversion_rank(u)
        && (lies_within(values(t), values(u)) && lies_within(values(u), values(t)))
}

/// A variable, if something is known of it.
fn variable_if(n: u32, a: Option<Abs>) -> Option<u32>
    ensures { result ≡ variable_if n (option_map abstract_of a) }
{
    match a {
        Some(_) => Some(n),
        None => None,
    }
}

/// The variable that an updated place is, if it has a name and something is known of it.
fn variable_in(p: &Pair<'_, '_>, ranges: &Env, place: &Place) -> Option<u32>
    ensures { result ≡ named (pair_by p.now) ranges.now.values (read_of (plain_place place.now)) }
{
    match &place.form {
        PlaceForm::Var(n) => named_by(p, variable_if(*n, ranges.get(*n))),
        PlaceForm::Global(_)
        | PlaceForm::Literal(_, _)
        | PlaceForm::Index(_, _)
        | PlaceForm::Member(_, _)
        | PlaceForm::Deref(_) => None,
    }
}

/// The range of what is known, or of a type where nothing is.
fn range_or(a: Option<Abs>, t: &CType) -> Option<Range>
    ensures { option_map interval_of result ≡ range_or (option_map abstract_of a) (plain_type t.now) }
{
    match a {
        Some(a) => Some(a.range),
        None => Some(whole_type(integer_of(t)).range),
    }
}

/// The range of what an updated place holds.
fn range_in(ranges: &Env, place: &Place) -> Option<Range>
    ensures { option_map interval_of result ≡ value_range ranges.now.values (read_of (plain_place place.now)) }
{
    match &place.form {
        PlaceForm::Var(n) => range_or(ranges.get(*n), &place.ty),
        PlaceForm::Global(_)
        | PlaceForm::Literal(_, _)
        | PlaceForm::Index(_, _)
        | PlaceForm::Member(_, _)
        | PlaceForm::Deref(_) => range_or(None, &place.ty),
    }
}

/// Whether an update's result is exact, of integers.
fn is_exact(u: &Update<'_>) -> bool
    ensures { result ≡ is_exact (plain_type u.now.ty.now) (read_of (plain_place u.now.place.now)) (plain_value u.now.by.now) }
{
    (u.place.ty.is_integer() && u.by.ty.is_integer())
        && (u.ty.is_integer() && is_signed(integer_of(u.ty)))
}

/// Whether no conversion follows an update.
fn keeps_type(u: &Update<'_>) -> bool
    ensures { result ≡ is_unconverted (integer_of (plain_type u.now.ty.now)) (integer_of (place_type (plain_place u.now.place.now))) }
{
    is_unconverted(integer_of(u.ty), integer_of(&u.place.ty))
}

/// What counts of the operands of an update, if no conversion follows.
pub(crate) fn update_operands(
    alloc: Global,
    p: &Pair<'_, '_>,
    ranges: &mut Env,
    u: &Update<'_>,
) -> Result<Option<Operands>, AllocError>
    ensures same { OnOk result (ranges.new ≡ ranges.old) }
    ensures are { IfOk result (λ o. option_map operands_by o ≡ update_operands (pair_by p.now) ranges.old.values (plain_type u.now.ty.now) (plain_place u.now.place.now) (plain_value u.now.by.now)) }
    ensures two { IfOk result (λ o. IfSome o (λ o. IfSome o.part IsPart)) }
{
    if !keeps_type(u) {
        return Ok(None);
    }
    let part = part_in(alloc, p, ranges, u.by)?;
    let second = value_range(alloc, ranges, u.by)?;
    Ok(Some(Operands {
        exact: is_exact(u),
        variable: variable_in(p, ranges, u.place),
        part,
        first: range_in(ranges, u.place),
        second,
    }))
}

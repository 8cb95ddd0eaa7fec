//! The rows of the table of values: what is found of each form of value.

ghost use Rattle.std.specs.Prelude.{◌≡◌, map, false, Some, None, slice_get};
ghost use Rattle.std.specs.Option.{option_map, option_copied};
ghost use Rattle.p10_core.specs.Types.{plain_type};
ghost use Rattle.p10_core.specs.Views.{plain_place};
ghost use Rattle.p10_core.specs.Rows.{is_integer};
ghost use Rattle.p10_range.specs.Ranges.{interval_of, from_to};
ghost use Rattle.p10_cert.specs.Claims.{claims_of, func_of};
ghost use Rattle.p10_absx.specs.Abstract.{abstract_of, only_range as only_of, whole_type as whole_type_of};
ghost use Rattle.p10_absx.specs.Environments.{Environment};
ghost use Rattle.p10_absx.specs.Assessing.{a_scalar, any_of as any_of_type, found_of, variable_read as variable_read_of, place_read as place_read_of, converted_side as converted_side_of, converted_found as converted_found_of, unary_found as unary_found_of, arithmetic_found as arithmetic_found_of, hull_found as hull_found_of, without_offset as without_offset_of, result_claimed as result_claimed_of, call_claimed as call_claimed_of, call_found as call_found_of, library_found as library_found_of};
ghost use Rattle.p10_absx.specs.private.Found.{side_of, assessed_of};

use crate::abs::Abs;
use crate::changes::Side;
use crate::env::Env;
use crate::found::Found;
use crate::operators::{
    binary_value, converted, hull_abstract, lies_within, only_range, unary_value, values,
    whole_type,
};
use p10_cert::{Cert, FuncClaim, ValueClaim};
use p10_core::{CType, Library, Place, PlaceForm, TypeForm, integer_of};
use p10_int::{BinOp, IntType, UnOp};
use p10_range::Range;

/// A value of a type that is no variable.
pub fn found(t: &CType, value: Option<Abs>) -> Found
    ensures { (env : Environment) → assessed_of env result ≡ found_of (plain_type t.now) (option_map abstract_of value) }
{
    Found::Scalar(
        t.is_integer(),
        Side {
            variable: None,
            value,
        },
    )
}

/// A value of which only the type is known.
pub fn any_of(t: &CType) -> Found
    ensures { (env : Environment) → assessed_of env result ≡ any_of_type (plain_type t.now) }
{
    found(t, Some(whole_type(integer_of(t))))
}

/// A constant.
pub fn constant(t: &CType, number: i128) -> Found
    ensures { (env : Environment) → assessed_of env result ≡ found_of (plain_type t.now) (Some (only_of (from_to number number))) }
{
    found(
        t,
        Some(only_range(Range {
            lo: number,
            hi: number,
        })),
    )
}

/// A read of a variable of which this is known.
fn variable_read(t: &CType, variable: u32, known: Option<Abs>) -> Found
    ensures { (env : Environment) → assessed_of env result ≡ variable_read_of (plain_type t.now) variable (option_map abstract_of known) }
{
    match known {
        Some(a) => Found::Scalar(
            t.is_integer(),
            Side {
                variable: Some(variable),
                value: Some(a),
            },
        ),
        None => any_of(t),
    }
}

impl Env {
    /// The value of a place.
    pub(crate) fn place_read(&self, t: &CType, place: &Place) -> Found
        ensures { (env : Environment) → assessed_of env result ≡ place_read_of (plain_type t.now) (plain_place place.now) self.now.values }
    {
        match &place.form {
            PlaceForm::Var(variable) => variable_read(t, *variable, self.get(*variable)),
            _ => any_of(t),
        }
    }
}

/// A side converted to an integer type.
fn converted_side(kind: IntType, side: Side) -> Side
    ensures { side_of result ≡ converted_side_of kind (side_of side) }
{
    match side.value {
        Some(a) => Side {
            variable: if lies_within(a.range, values(kind)) {
                side.variable
            } else {
                None
            },
            value: Some(converted(kind, a)),
        },
        None => Side {
            variable: None,
            value: None,
        },
    }
}

/// The value of a cast to `void`.
fn discarded(value: Option<Abs>) -> Found
    ensures { (env : Environment) → assessed_of env result ≡ a_scalar false (record { variable = None; value = option_map (λ a. whole_type_of IntType.Int) (option_map abstract_of value) }) }
{
    let value = match value {
        Some(_) => Some(whole_type(IntType::Int)),
        None => None,
    };
    Found::Scalar(
        false,
        Side {
            variable: None,
            value,
        },
    )
}

/// A conversion or a cast (C99 6.3, 6.5.4).
pub fn converted_found(t: &CType, side: Side) -> Found
    ensures { (env : Environment) → assessed_of env result ≡ converted_found_of (plain_type t.now) (side_of side) }
{
    match &t.form {
        TypeForm::Int(kind) => Found::Scalar(true, converted_side(*kind, side)),
        TypeForm::Void => discarded(side.value),
        TypeForm::Pointer(_) | TypeForm::Array(_, _) | TypeForm::Struct(_) => any_of(t),
    }
}

/// A unary operator other than `!` (C99 6.5.3.3).
pub fn unary_found(op: UnOp, t: &CType, value: Option<Abs>) -> Found
    ensures { (env : Environment) → assessed_of env result ≡ unary_found_of op (plain_type t.now) (option_map abstract_of value) }
{
    match value {
        Some(a) => found(t, unary_value(op, integer_of(t), a)),
        None => found(t, None),
    }
}

/// An arithmetic operator on integers (C99 6.5.5 to 6.5.12).
pub fn arithmetic_found(op: BinOp, t: &CType, a: Option<Abs>, b: Option<Abs>) -> Found
    ensures { (env : Environment) → assessed_of env result ≡ arithmetic_found_of op (plain_type t.now) (option_map abstract_of a) (option_map abstract_of b) }
{
    match (a, b) {
        (Some(a), Some(b)) => found(t, binary_value(op, integer_of(t), a, b)),
        _ => found(t, None),
    }
}

/// The hull of two values of which each may be none.
fn hull_found(a: Option<Abs>, b: Option<Abs>) -> Option<Abs>
    ensures { option_map abstract_of result ≡ hull_found_of (option_map abstract_of a) (option_map abstract_of b) }
{
    match (a, b) {
        (Some(a), Some(b)) => Some(hull_abstract(a, b)),
        (Some(a), None) => Some(a),
        (None, b) => b,
    }
}

/// The value of `?:` from those of its operands (C99 6.5.15).
pub fn chosen(t: &CType, first: Option<Abs>, second: Option<Abs>) -> Found
    ensures { (env : Environment) → assessed_of env result ≡ found_of (plain_type t.now) (without_offset_of (hull_found_of (option_map abstract_of first) (option_map abstract_of second))) }
{
    match hull_found(first, second) {
        Some(a) => found(t, Some(only_range(a.range))),
        None => found(t, None),
    }
}

/// What is claimed of a result of an integer type.
fn result_claimed(kind: IntType, claim: &FuncClaim) -> Range
    ensures { interval_of result ≡ result_claimed_of kind (Some (func_of claim.now)) }
{
    match &claim.result {
        ValueClaim::Ints(range) => *range,
        ValueClaim::Pointer | ValueClaim::Void => values(kind),
    }
}

/// The result of a call of a function by its number.
fn call_claimed(c: Option<&Cert>, number: u32, kind: IntType) -> Range
    ensures { interval_of result ≡ call_claimed_of (option_map claims_of (option_copied c.entry)) number kind }
{
    match c {
        Some(c) => claimed_in(c.funcs.as_slice(), number, kind),
        None => values(kind),
    }
}

/// The result of a call of a function by its number, by what is claimed of all.
#[tactic(auto, using(crate::proofs::Entries::got_mapped))]
fn claimed_in(claims: &[FuncClaim], number: u32, kind: IntType) -> Range
    ensures { interval_of result ≡ result_claimed_of kind (slice_get (map func_of claims.now) number) }
{
    match claims.get(number as usize) {
        Some(claim) => result_claimed(kind, claim),
        None => values(kind),
    }
}

/// A call (C99 6.5.2.2).
pub fn call_found(c: Option<&Cert>, number: u32, t: &CType) -> Found
    ensures { (env : Environment) → assessed_of env result ≡ call_found_of (option_map claims_of (option_copied c.entry)) number (plain_type t.now) }
{
    found(t, Some(only_range(call_claimed(c, number, integer_of(t)))))
}

/// A call of a library function other than `c_assert`.
pub fn library_found(library: Library, t: &CType) -> Found
    ensures { (env : Environment) → assessed_of env result ≡ library_found_of library (plain_type t.now) }
{
    match library {
        Library::Getchar => found(t, Some(only_range(Range { lo: -1, hi: 255 }))),
        Library::Putchar => found(t, Some(only_range(Range { lo: 0, hi: 255 }))),
        Library::Assert | Library::CAssert | Library::Malloc | Library::Calloc | Library::Free => {
            any_of(t)
        }
    }
}

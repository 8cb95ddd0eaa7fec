//! Address constants: where they point to (C99 6.5.6p8, 6.6p7 to p9).

ghost use Rattle.std.specs.Prelude.{◌≡◌, true, IfOk, option_map};
ghost use Rattle.p10_core.specs.Types.{plain_type};
ghost use Rattle.p10_core.specs.Constants.{IsSmall};
ghost use Rattle.p10_core.specs.Views.{plain_value, plain_place};
ghost use Rattle.p10_core.specs.Addresses.{in_range, moved, single_at, row_at, reached, negated, constant_of, target_of, place_target, is_static_value};
ghost use Rattle.p10_whole.specs.private.Targets.{plain_target, IsStep};

use p10_base::At;
use p10_core::{
    CType, Place, PlaceForm, TypeForm, Value, ValueForm, fold, inconstant_part, is_null,
};
use p10_int::BinOp;

/// Where an address constant points to. A single object is an array of one.
#[derive(Clone, Copy)]
enum Target {
    /// Nowhere: it is null.
    Nowhere,
    /// To a position of an array with a length.
    InArray(u64, u64),
}

/// Whether a value may initialise a scalar of static lifetime (C99 6.7.8p4): a constant of an integer type, or an address
/// constant; evaluating it doesn't stop.
pub(crate) fn is_static_value(v: &Value) -> bool
    ensures { result ≡ is_static_value (plain_value v.now) }
{
    if v.ty.is_integer() {
        match constant_of(v) {
            Ok(_) => true,
            Err(_) => false,
        }
    } else {
        match target_of(v) {
            Some(_) => true,
            None => false,
        }
    }
}

/// Where the value of a pointer points to, if it is an address constant that doesn't stop.
#[cycle(addressing)]
fn target_of(v: &Value) -> Option<Target>
    ensures { option_map plain_target result ≡ target_of (plain_value v.now) }
{
    match &v.form {
        ValueForm::Addr(place) => place_target(place),
        ValueForm::Decay(place) => {
            let whole = place_target(place);
            row_at(&place.ty, whole)
        }
        ValueForm::Convert(part) | ValueForm::Cast(part) => {
            if is_null(part) {
                Some(Target::Nowhere)
            } else {
                target_of(part)
            }
        }
        ValueForm::Binary(BinOp::Add, left, right) => {
            if left.ty.is_pointer() {
                moved(target_of(left), constant_of(right))
            } else {
                moved(target_of(right), constant_of(left))
            }
        }
        ValueForm::Binary(BinOp::Sub, left, right) => {
            moved(target_of(left), negated(constant_of(right)))
        }
        _ => None,
    }
}

/// Where the address of a place points to, if it is a constant that doesn't stop.
#[cycle(addressing)]
fn place_target(p: &Place) -> Option<Target>
    ensures { option_map plain_target result ≡ place_target (plain_place p.now) }
{
    match &p.form {
        PlaceForm::Var(_) => None,
        PlaceForm::Global(_) | PlaceForm::Literal(_, _) => Some(Target::InArray(1, 0)),
        PlaceForm::Index(pointer, by) => moved(target_of(pointer), constant_of(by)),
        PlaceForm::Member(whole, _) => single_at(place_target(whole)),
        PlaceForm::Deref(pointer) => reached(target_of(pointer)),
    }
}

/// A position of an array, if it is one or the place past its end.
fn in_range(length: u64, place: i128) -> Option<Target>
    ensures { option_map plain_target result ≡ in_range length place }
{
    if 0 <= place && place <= length as i128 {
        Some(Target::InArray(length, place as u64))
    } else {
        None
    }
}

/// The target moved by a constant: null can't be moved, and the array and its place past the end can't be left.
fn moved(target: Option<Target>, by: Result<i128, At>) -> Option<Target>
    requires step { IfOk by IsStep }
    ensures { option_map plain_target result ≡ moved (option_map plain_target target) by }
{
    match (target, by) {
        (Some(Target::InArray(length, place)), Ok(by)) => in_range(length, place as i128 + by),
        (Some(Target::InArray(_, _)), Err(_)) => None,
        (Some(Target::Nowhere), _) => None,
        (None, _) => None,
    }
}

/// The only element of an array that begins at the target.
fn single_at(target: Option<Target>) -> Option<Target>
    ensures { option_map plain_target result ≡ single_at (option_map plain_target target) }
{
    match target {
        Some(Target::InArray(_, _)) => Some(Target::InArray(1, 0)),
        Some(Target::Nowhere) | None => None,
    }
}

/// The first element of an array that begins at the target.
fn row_at(ty: &CType, target: Option<Target>) -> Option<Target>
    ensures { option_map plain_target result ≡ row_at (plain_type ty.now) (option_map plain_target target) }
{
    match &ty.form {
        TypeForm::Array(_, length) => match target {
            Some(Target::InArray(_, _)) => Some(Target::InArray(*length, 0)),
            Some(Target::Nowhere) | None => None,
        },
        TypeForm::Void | TypeForm::Int(_) | TypeForm::Pointer(_) | TypeForm::Struct(_) => None,
    }
}

/// What a pointer points to: null points to nothing.
fn reached(target: Option<Target>) -> Option<Target>
    ensures { option_map plain_target result ≡ reached (option_map plain_target target) }
{
    match target {
        Some(Target::InArray(length, place)) => Some(Target::InArray(length, place)),
        Some(Target::Nowhere) | None => None,
    }
}

/// A constant with the other sign.
fn negated(found: Result<i128, At>) -> Result<i128, At>
    requires small { IfOk found IsSmall }
    ensures value { result ≡ negated found }
    ensures step { IfOk result IsStep }
{
    match found {
        Ok(number) => Ok(-number),
        Err(at) => Err(at),
    }
}

/// A constant of an integer type, as far as its form goes, and what it gives.
fn constant_of(v: &Value) -> Result<i128, At>
    ensures value { result ≡ constant_of (plain_value v.now) }
    ensures small { IfOk result IsSmall }
    ensures step { IfOk result IsStep }
{
    if v.ty.is_integer() && inconstant_part(v).is_none() {
        fold(v)
    } else {
        Err(v.at)
    }
}

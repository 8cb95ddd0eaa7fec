//! Address constants: where they point to, and which part of one stops (C99 6.5.6p8, 6.6p7 to p9).

ghost use Rattle.std.specs.Prelude.{◌≡◌, ℤ, pos, negsuc, ◌≤ℤ◌, IfOk, if◌then◌else◌, option_map, None};
ghost use Rattle.p10_core.specs.Types.{plain_type};
ghost use Rattle.p10_core.specs.Constants.{first_of_parts, IsSmall};
ghost use Rattle.p10_core.specs.Views.{plain_value, plain_place};
ghost use Rattle.p10_core.specs.Addresses.{in_range, moved, single_at, row_at, reached, negated, constant_of, target_of, place_target};
ghost use Rattle.p10_elabd.specs.StaticValues.{fold_stop, stops_unless, address_stop, place_stop};
ghost use Rattle.p10_elabd.specs.Targets.{plain_target, IsStep};

use crate::target::{Target, Weighed};
use p10_base::At;
use p10_core::{
    CType, Place, PlaceForm, TypeForm, Value, ValueForm, first_of_parts, fold, inconstant_part,
    is_null,
};
use p10_int::BinOp;

/// A position of an array, if it is one or the place past its end.
fn in_range(length: u64, place: i128) -> Option<Target>
    ensures { option_map plain_target result ≡ in_range length place }
{
    if 0 <= place && place <= length as i128 {
        Some(Target::InArray(length, place as u64))
    } else {
        None
    }
}

/// The target moved by a constant: null can't be moved, and the array and its place past the end can't be left.
fn moved(target: Option<Target>, by: Result<i128, At>) -> Option<Target>
    requires step { IfOk by IsStep }
    ensures { option_map plain_target result ≡ moved (option_map plain_target target) by }
{
    match (target, by) {
        (Some(Target::InArray(length, place)), Ok(by)) => in_range(length, place as i128 + by),
        (Some(Target::InArray(_, _)), Err(_)) => None,
        (Some(Target::Nowhere), _) => None,
        (None, _) => None,
    }
}

/// The only element of an array that begins at the target.
fn single_at(target: Option<Target>) -> Option<Target>
    ensures { option_map plain_target result ≡ single_at (option_map plain_target target) }
{
    match target {
        Some(Target::InArray(_, _)) => Some(Target::InArray(1, 0)),
        Some(Target::Nowhere) | None => None,
    }
}

/// The first element of an array that begins at the target.
fn row_at(ty: &CType, target: Option<Target>) -> Option<Target>
    ensures { option_map plain_target result ≡ row_at (plain_type ty.now) (option_map plain_target target) }
{
    match &ty.form {
        TypeForm::Array(_, length) => match target {
            Some(Target::InArray(_, _)) => Some(Target::InArray(*length, 0)),
            Some(Target::Nowhere) | None => None,
        },
        TypeForm::Void | TypeForm::Int(_) | TypeForm::Pointer(_) | TypeForm::Struct(_) => None,
    }
}

/// What a pointer points to: null points to nothing.
fn reached(target: Option<Target>) -> Option<Target>
    ensures { option_map plain_target result ≡ reached (option_map plain_target target) }
{
    match target {
        Some(Target::InArray(length, place)) => Some(Target::InArray(length, place)),
        Some(Target::Nowhere) | None => None,
    }
}

/// A constant with the other sign.
fn negated(found: Result<i128, At>) -> Result<i128, At>
    requires small { IfOk found IsSmall }
    ensures value { result ≡ negated found }
    ensures step { IfOk result IsStep }
{
    match found {
        Ok(number) => Ok(-number),
        Err(at) => Err(at),
    }
}

/// A constant of an integer type, as far as its form goes, and what it gives.
fn constant_of(v: &Value) -> Result<i128, At>
    ensures value { result ≡ constant_of (plain_value v.now) }
    ensures small { IfOk result IsSmall }
    ensures step { IfOk result IsStep }
{
    if v.ty.is_integer() && inconstant_part(v).is_none() {
        fold(v)
    } else {
        Err(v.at)
    }
}

/// Where a constant stops, if it does.
fn fold_stop(v: &Value) -> Option<At>
    ensures { result ≡ fold_stop (plain_value v.now) }
{
    match fold(v) {
        Ok(_) => None,
        Err(at) => Some(at),
    }
}

/// A tree that stops, where its parts don't.
fn stops_unless(target: &Option<Target>, at: At) -> Option<At>
    ensures { result ≡ stops_unless (option_map plain_target target.now) at }
{
    match target {
        Some(_) => None,
        None => Some(at),
    }
}

/// A tree with a target, after what stops in its parts.
fn after_parts(at: At, first: Option<At>, second: Option<At>, target: Option<Target>) -> Weighed
    ensures stop { result.stop ≡ first_of_parts first (first_of_parts second (stops_unless (option_map plain_target target) at)) }
    ensures target { result.target ≡ target }
{
    let own = stops_unless(&target, at);
    Weighed {
        stop: first_of_parts(first, first_of_parts(second, own)),
        target,
    }
}

/// A tree with a target, after what stops in its only part.
fn after_part(at: At, first: Option<At>, target: Option<Target>) -> Weighed
    ensures stop { result.stop ≡ first_of_parts first (stops_unless (option_map plain_target target) at) }
    ensures target { result.target ≡ target }
{
    let own = stops_unless(&target, at);
    Weighed {
        stop: first_of_parts(first, own),
        target,
    }
}

/// What is known of a pointer's value: where it points to, if it is an address constant, and which part of it stops.
#[cycle(weighing)]
pub fn weigh_address(v: &Value) -> Weighed
    ensures stop { result.stop ≡ address_stop (plain_value v.now) }
    ensures target { option_map plain_target result.target ≡ target_of (plain_value v.now) }
{
    match &v.form {
        ValueForm::Addr(place) => weigh_place(place),
        ValueForm::Decay(place) => {
            let whole = weigh_place(place);
            Weighed {
                stop: whole.stop,
                target: row_at(&place.ty, whole.target),
            }
        }
        ValueForm::Convert(part) | ValueForm::Cast(part) => {
            if is_null(part) {
                Weighed {
                    stop: None,
                    target: Some(Target::Nowhere),
                }
            } else {
                weigh_address(part)
            }
        }
        ValueForm::Binary(BinOp::Add, left, right) => {
            if left.ty.is_pointer() {
                let pointer = weigh_address(left);
                let target = moved(pointer.target, constant_of(right));
                after_parts(v.at, pointer.stop, fold_stop(right), target)
            } else {
                let pointer = weigh_address(right);
                let target = moved(pointer.target, constant_of(left));
                after_parts(v.at, fold_stop(left), pointer.stop, target)
            }
        }
        ValueForm::Binary(BinOp::Sub, left, right) => {
            let pointer = weigh_address(left);
            let target = moved(pointer.target, negated(constant_of(right)));
            after_parts(v.at, pointer.stop, fold_stop(right), target)
        }
        _ => Weighed {
            stop: Some(v.at),
            target: None,
        },
    }
}

/// What is known of a place whose address is taken.
#[cycle(weighing)]
pub fn weigh_place(p: &Place) -> Weighed
    ensures stop { result.stop ≡ place_stop (plain_place p.now) }
    ensures target { option_map plain_target result.target ≡ place_target (plain_place p.now) }
{
    match &p.form {
        PlaceForm::Var(_) => Weighed {
            stop: None,
            target: None,
        },
        PlaceForm::Global(_) | PlaceForm::Literal(_, _) => Weighed {
            stop: None,
            target: Some(Target::InArray(1, 0)),
        },
        PlaceForm::Index(pointer, by) => {
            let array = weigh_address(pointer);
            let target = moved(array.target, constant_of(by));
            after_parts(p.at, array.stop, fold_stop(by), target)
        }
        PlaceForm::Member(whole, _) => {
            let found = weigh_place(whole);
            after_part(p.at, found.stop, single_at(found.target))
        }
        PlaceForm::Deref(pointer) => {
            let found = weigh_address(pointer);
            after_part(p.at, found.stop, reached(found.target))
        }
    }
}

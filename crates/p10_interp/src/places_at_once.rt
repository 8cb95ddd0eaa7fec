//! Places in objects that are found at once. No step is left where nothing is found.

ghost use Rattle.std.specs.Prelude.{◌≡◌, Ok, IfSome, Some, slice_get, map};
ghost use Rattle.p10_base.specs.declared.at.At.{At};
ghost use Rattle.p10_core.specs.Types.{PlainType, plain_type, bare};
ghost use Rattle.p10_core.specs.Typed.{PlainProgram, variable, global, value, decay};
ghost use Rattle.p10_core.specs.Views.{plain_program, plain_types, plain_value, plain_place, plain_object};
ghost use Rattle.p10_core.specs.WholePrograms.{AreWholeStructures};
ghost use Rattle.p10_meaning.specs.Objects.{shift, inner, reach, on_ok};
ghost use Rattle.p10_meaning.specs.Values.{width, element_type, element_count, scalars_before, stands};
ghost use Rattle.p10_meaning.specs.declared.pointers.Ptr.TheVariants.{To};
ghost use Rattle.p10_interp.specs.private.Standing.{held_of};
ghost use Rattle.p10_interp.specs.private.AtOnce.{Locates, IsFound, LocatesObject, StartsArray, IsNoSensor, array_window};

use crate::held::Held;
use crate::members::scalars_before;
use crate::places::single;
use crate::pointing::{count_of, element_of};
use crate::surroundings::Surroundings;
use crate::widths::{width_at_once, width_of};
use p10_core::{CType, Global, Place, PlaceForm, Value, ValueForm};
use p10_meaning::{Ptr, Window};
use p10_store::{Shape, Store};

/// The place that a name of a variable stands for, where it is an object.
pub fn variable_at(around: &Surroundings<'_>, t: &CType, number: u32, left: &mut u64) -> Ptr
    requires structures { AreWholeStructures (plain_types around.now.p.now.types) }
    ensures { Locates around.now (plain_type t.now) (variable number) left.old result left.new }
{
    match around.held.get(number as usize) {
        Some(Held::Stands(object)) => match width_of(&around.p.types, t) {
            Some(scalars) => single(*object, scalars),
            None => {
                *left = 0;
                Ptr::Null
            }
        },
        _ => {
            *left = 0;
            Ptr::Null
        }
    }
}

/// The place that a name of an object of static lifetime stands for, where it is no sensor.
pub fn global_at(around: &Surroundings<'_>, t: &CType, number: u32, left: &mut u64) -> Ptr
    requires structures { AreWholeStructures (plain_types around.now.p.now.types) }
    ensures { Locates around.now (plain_type t.now) (global number) left.old result left.new }
{
    match around.p.globals.as_slice().get(number as usize) {
        Some(object) => {
            if object.sensor {
                *left = 0;
                return Ptr::Null;
            }
            match width_of(&around.p.types, t) {
                Some(scalars) => single(number as u128, scalars),
                None => {
                    *left = 0;
                    Ptr::Null
                }
            }
        }
        None => {
            *left = 0;
            Ptr::Null
        }
    }
}

/// A pointer moved by a number of elements.
pub fn moved_by(store: &Store, pointer: Ptr, by: i128, left: &mut u64) -> Ptr
    ensures { IsFound (shift store.now.objects pointer by) left.old result left.new }
{
    match store.shift(pointer, by) {
        Ok(there) => there,
        Err(_) => {
            *left = 0;
            Ptr::Null
        }
    }
}

/// The pointer itself, where its object is there.
pub fn reached(store: &Store, pointer: Ptr, left: &mut u64) -> Ptr
    ensures { IsFound (on_ok (reach store.now.objects pointer) (λ object. Ok pointer)) left.old result left.new }
{
    match store.inner(pointer, 0, &Shape { scalars: 1 }, 1) {
        Ok(_) => pointer,
        Err(_) => {
            *left = 0;
            Ptr::Null
        }
    }
}

/// The pointer to the first element of the array at a pointer.
pub fn first_at(around: &Surroundings<'_>, t: &CType, pointer: Ptr, left: &mut u64) -> Ptr
    requires structures { AreWholeStructures (plain_types around.now.p.now.types) }
    ensures { (p : PlainProgram) → p.structures ≡ plain_types around.now.p.now.types → IsFound (inner around.now.store.now.objects pointer 0 (width p (element_type (plain_type t.now))) (element_count (plain_type t.now))) left.old result left.new }
{
    match width_of(&around.p.types, element_of(t)) {
        Some(scalars) => inner_at(around.store, (pointer, 0), scalars, count_of(t), left),
        None => {
            *left = 0;
            Ptr::Null
        }
    }
}

/// The pointer to the first of `count` elements of `scalars` scalars each, from a scalar of an element on.
fn inner_at(store: &Store, from: (Ptr, u64), scalars: u64, count: u64, left: &mut u64) -> Ptr
    ensures { IsFound (inner store.now.objects from.0 from.1 scalars count) left.old result left.new }
{
    match store.inner(from.0, from.1, &Shape { scalars }, count) {
        Ok(first) => first,
        Err(_) => {
            *left = 0;
            Ptr::Null
        }
    }
}

/// The pointer to a member of the structure at a pointer.
pub fn member_in(
    around: &Surroundings<'_>,
    t: &CType,
    part: (&CType, u32),
    pointer: Ptr,
    left: &mut u64,
) -> Ptr
    requires structures { AreWholeStructures (plain_types around.now.p.now.types) }
    ensures { (p : PlainProgram) → p.structures ≡ plain_types around.now.p.now.types → IsFound (inner around.now.store.now.objects pointer (scalars_before p (bare p.structures (plain_type part.entry.0.now)) part.entry.1) (width p (plain_type t.now)) 1) left.old result left.new }
{
    let (whole, number) = part;
    match scalars_before(&around.p.types, whole, number) {
        Some(before) => match width_of(&around.p.types, t) {
            Some(scalars) => inner_at(around.store, (pointer, before), scalars, 1, left),
            None => {
                *left = 0;
                Ptr::Null
            }
        },
        None => {
            *left = 0;
            Ptr::Null
        }
    }
}

/// The pointer to the first element of an array that is an object as a whole; whether this one is live isn't tested yet.
#[inline(always)]
pub fn start_of_array(around: &Surroundings<'_>, array: &Value) -> Option<Ptr>
    requires structures { AreWholeStructures (plain_types around.now.p.now.types) }
    ensures { IfSome result (λ start. StartsArray around.now (plain_value array.now) start) }
{
    match &array.form {
        ValueForm::Decay(place) => start_in_place(around, place),
        _ => None,
    }
}

/// The pointer to the first element of the array that is a place.
#[inline(always)]
fn start_in_place(around: &Surroundings<'_>, place: &Place) -> Option<Ptr>
    requires structures { AreWholeStructures (plain_types around.now.p.now.types) }
    ensures { IfSome result (λ start. (at : At) (t : PlainType) → StartsArray around.now (value at t (decay (plain_place place.now))) start) }
{
    let t = &place.ty;
    let Some(object) = whole_object(around, place) else {
        return None;
    };
    match width_at_once(&around.p.types, element_of(t)) {
        Some(scalars) => Some(start_of(object, scalars, count_of(t))),
        None => None,
    }
}

/// The pointer to the first of `count` elements of `scalars` scalars each, of an object.
#[inline(always)]
fn start_of(object: u128, scalars: u64, count: u64) -> Ptr
    ensures { result ≡ To object (array_window scalars count) 0 }
{
    Ptr::To {
        object,
        window: Window {
            start: 0,
            stride: scalars,
            count,
            inside: true,
            whole: false,
        },
        position: 0,
    }
}

/// The number of the object that a place is as a whole.
#[inline(always)]
fn whole_object(around: &Surroundings<'_>, place: &Place) -> Option<u128>
    ensures { IfSome result (λ object. LocatesObject around.now (plain_place place.now) object) }
{
    match &place.form {
        PlaceForm::Var(number) => held_object(around.held, *number),
        PlaceForm::Global(number) => static_object(around.p.globals.as_slice(), *number),
        _ => None,
    }
}

/// The number of the object that a variable is.
#[inline(always)]
fn held_object(held: &[Held], number: u32) -> Option<u128>
    ensures { IfSome result (λ object. slice_get (map held_of held.now) number ≡ Some (stands object)) }
{
    match held.get(number as usize) {
        Some(Held::Stands(object)) => Some(*object),
        _ => None,
    }
}

/// The number of an object of static lifetime that is no sensor.
#[inline(always)]
fn static_object(globals: &[Global<'_>], number: u32) -> Option<u128>
    ensures { IfSome result (λ object. (object ≡ number) × IsNoSensor (slice_get (map plain_object globals.now) number)) }
{
    match globals.get(number as usize) {
        Some(global) => {
            if global.sensor {
                None
            } else {
                Some(number as u128)
            }
        }
        None => None,
    }
}

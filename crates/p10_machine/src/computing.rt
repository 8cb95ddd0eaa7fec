//! What one scalar is computed by.

ghost use Rattle.std.specs.Prelude.{◌≡◌, Ok};
ghost use Rattle.p10_meaning.specs.declared.pointers.Scalar.TheVariants.{Pointer};
ghost use Rattle.p10_meaning.specs.Pointers.{first_of, read_of};
ghost use Rattle.p10_meaning.specs.Objects.{on_ok, reach, cell_at, shift, inner};
ghost use Rattle.p10_code.specs.Machine.{converted_by, computed};
ghost use Rattle.p10_compile.specs.Views.{plain_class, plain_computation};
ghost use Rattle.p10_machine.specs.Turns.{Finds};
ghost use Rattle.p10_machine.specs.Views.{slot_of};

use crate::machine::Machine;
use crate::operators::{apply_binary, apply_unary};
use crate::scalars::{is_true, number_of, pointer_of, truth_value};
use crate::slots::Slot;
use crate::turned::Halt;
use p10_compile::{Class, Computation};
use p10_int::Stop;
use p10_meaning::{Ptr, Scalar, Window};
use p10_store::{Shape, Store};

/// What is computed from the slots of the open frame and the objects. Where it needs what no whole program has, memory has run out.
#[inline(always)]
pub fn computed(x: Computation, m: &Machine) -> Result<Scalar, Halt>
    ensures { Finds (computed (plain_computation x) (slot_of m.now) m.now.outside.store.objects) result }
{
    let store = &m.outside.store;
    match x {
        Computation::Same(a) => Ok(m.value(a)),
        Computation::Wide(z) => Ok(Scalar::Int(z)),
        Computation::Truth(a) => Ok(truth_value(is_true(m.value(a)))),
        Computation::Conversion(class, a) => converted(class, m.value(a)),
        Computation::Unary(op, t, a) => apply_unary(op, t, m.value(a)),
        Computation::Binary(op, t, a, b) => apply_binary(op, t, store, m.value(a), m.value(b)),
        Computation::Update(op, t, before, after, a, b) => {
            let x = converted(before, m.value(a))?;
            converted(after, apply_binary(op, t, store, x, m.value(b))?)
        }
        Computation::Object(n, width) => match m.look(n) {
            Slot::Object(object) => Ok(first_of(u128::from(object), width)),
            _ => Err(Halt::Stop(Stop::U8)),
        },
        Computation::StaticObject(n, width) => Ok(first_of(u128::from(n), width)),
        Computation::Element(a, b) => shifted(store, pointer_of(m.value(a)), number_of(m.value(b))),
        Computation::Inside(a, at, stride, count) => {
            inside(store, pointer_of(m.value(a)), at, stride, count)
        }
        Computation::Live(a) => live(store, pointer_of(m.value(a))),
        Computation::Content(a) => content(store, pointer_of(m.value(a))),
    }
}

/// A scalar that is converted. A number that no type of C holds is answered as out of memory; whole programs have none.
#[inline(always)]
pub fn converted(class: Class, x: Scalar) -> Result<Scalar, Halt>
    ensures { Finds (Ok (converted_by (plain_class class) x)) result }
{
    match class {
        Class::Number(t) => {
            let number = number_of(x);
            if -9_223_372_036_854_775_808 <= number && number <= 18_446_744_073_709_551_615 {
                Ok(Scalar::Int(p10_int::convert(t, number)))
            } else {
                Err(Halt::Full)
            }
        }
        Class::Address => Ok(Scalar::Pointer(pointer_of(x))),
        Class::Other => Ok(x),
    }
}

/// The pointer to an object of so many scalars.
fn first_of(object: u128, width: u64) -> Scalar
    ensures { result ≡ Pointer (first_of object width 1) }
{
    Scalar::Pointer(Ptr::To {
        object,
        window: Window {
            start: 0,
            stride: width,
            count: 1,
            inside: true,
            whole: true,
        },
        position: 0,
    })
}

/// A pointer moved by a number of elements: U5, U7, U6.
fn shifted(store: &Store, pointer: Ptr, by: i128) -> Result<Scalar, Halt>
    ensures { Finds (on_ok (shift store.now.objects pointer by) (λ q. Ok (Pointer q))) result }
{
    match store.shift(pointer, by) {
        Ok(there) => Ok(Scalar::Pointer(there)),
        Err(stop) => Err(Halt::Stop(stop)),
    }
}

/// The pointer to an array in the element at a pointer: U5, U7.
fn inside(store: &Store, pointer: Ptr, at: u64, stride: u64, count: u64) -> Result<Scalar, Halt>
    ensures { Finds (on_ok (inner store.now.objects pointer at stride count) (λ q. Ok (Pointer q))) result }
{
    match store.inner(pointer, at, &Shape { scalars: stride }, count) {
        Ok(there) => Ok(Scalar::Pointer(there)),
        Err(stop) => Err(Halt::Stop(stop)),
    }
}

/// A pointer whose object is live: U5, U7.
fn live(store: &Store, pointer: Ptr) -> Result<Scalar, Halt>
    ensures { Finds (on_ok (reach store.now.objects pointer) (λ o. Ok (Pointer pointer))) result }
{
    match store.inner(pointer, 0, &Shape { scalars: 1 }, 1) {
        Ok(_) => Ok(Scalar::Pointer(pointer)),
        Err(stop) => Err(Halt::Stop(stop)),
    }
}

/// The scalar at a pointer: U5, U7, U6, U8.
fn content(store: &Store, pointer: Ptr) -> Result<Scalar, Halt>
    ensures { Finds (on_ok (cell_at store.now.objects pointer) read_of) result }
{
    match store.place(pointer) {
        Ok(cell) => match cell.value {
            Some(x) => Ok(x),
            None => Err(Halt::Stop(Stop::U8)),
        },
        Err(stop) => Err(Halt::Stop(stop)),
    }
}

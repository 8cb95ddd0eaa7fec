//! Values and places that are found at once, without work on the stack: those whose trees have no calls, and come to numbers and
//! pointers. Where anything stands in the way, or no step would be left after them, no step is left of those that were given:
//! then nothing was found, and the tree is evaluated by acts.

ghost use Rattle.std.specs.Prelude.{Some, option_map};
ghost use Rattle.p10_base.specs.declared.at.At.{At};
ghost use Rattle.p10_core.specs.Types.{PlainType, plain_type};
ghost use Rattle.p10_core.specs.Typed.{PlainValue, place, unary, binary, logic, convert, cast, read, decay, index, member, dereference};
ghost use Rattle.p10_core.specs.Views.{plain_types, plain_value, plain_place};
ghost use Rattle.p10_core.specs.WholePrograms.{AreWholeStructures};
ghost use Rattle.p10_meaning.specs.declared.pointers.Scalar.{Scalar};
ghost use Rattle.p10_meaning.specs.declared.pointers.Scalar.TheVariants.{Int, Pointer};
ghost use Rattle.p10_meaning.specs.Values.{evaluate, locate, Element};
ghost use Rattle.p10_interp.specs.private.AtOnce.{Settles, Performs, Locates, IsHolding, StartsArray, read_at_place};

use crate::cells_at_once::{cell_from, cell_in, number_in, pointer_in, variable_cell};
use crate::held::Held;
use crate::numbers_at_once::{
    apply_to_number, apply_to_numbers, convert_number, is_decided, is_structure, pays, truth_of,
};
use crate::places_at_once::{
    first_at, global_at, member_in, moved_by, reached, start_of_array, variable_at,
};
use crate::surroundings::Surroundings;
use p10_core::{CType, LogicOp, Place, PlaceForm, Value, ValueForm};
use p10_int::{BinOp, UnOp};
use p10_meaning::{Cell, Ptr};

/// The number that a value comes to. A constant and a number that is read are found here, so that they take no frame.
#[cycle(at_once)]
#[inline(always)]
pub fn number_at_once(around: &Surroundings<'_>, value: &Value, left: &mut u64, depth: u32) -> i128
    requires structures { AreWholeStructures (plain_types around.now.p.now.types) }
    ensures { Settles around.now (λ s held. evaluate s held (plain_value value.now)) left.old (Int result) left.new }
{
    match &value.form {
        ValueForm::Const(number) => { if pays(left) { *number } else { 0 } }
        ValueForm::Read(place) => read_number(around, &value.ty, place, left, depth),
        _ => number_by_form(around, value, left, depth),
    }
}

/// The number that a value of another form comes to.
#[cycle(at_once)]
#[inline(never)]
fn number_by_form(around: &Surroundings<'_>, value: &Value, left: &mut u64, depth: u32) -> i128
    requires structures { AreWholeStructures (plain_types around.now.p.now.types) }
    ensures { Settles around.now (λ s held. evaluate s held (plain_value value.now)) left.old (Int result) left.new }
{
    if depth == 0 {
        *left = 0;
        return 0;
    }
    let t = &value.ty;
    match &value.form {
        ValueForm::Convert(operand) => converted_at_once(around, t, operand, left, depth - 1),
        ValueForm::Cast(operand) => cast_at_once(around, t, operand, left, depth - 1),
        ValueForm::Unary(op, operand) => {
            unary_at_once(around, *op, (t, operand), left, depth - 1)
        }
        ValueForm::Binary(op, a, b) => binary_at_once(around, *op, (t, a, b), left, depth - 1),
        ValueForm::Logic(op, a, b) => logic_at_once(around, *op, (t, a, b), left, depth - 1),
        _ => {
            *left = 0;
            0
        }
    }
}

/// A number that is read (C99 6.3.2.1p2).
#[cycle(at_once)]
#[inline(always)]
fn read_number(
    around: &Surroundings<'_>,
    t: &CType,
    place: &Place,
    left: &mut u64,
    depth: u32,
) -> i128
    requires structures { AreWholeStructures (plain_types around.now.p.now.types) }
    ensures { Performs around.now (plain_type t.now) (read (plain_place place.now)) left.old (Int result) left.new }
{
    if is_structure(t) {
        *left = 0;
        return 0;
    }
    if !pays(left) {
        return 0;
    }
    match variable_cell(around, place) {
        Some(cell) => number_in(Some(cell), left),
        None => number_in_object(around, place, left, depth),
    }
}

/// The number at a place in an object.
#[cycle(at_once)]
#[inline(never)]
fn number_in_object(around: &Surroundings<'_>, place: &Place, left: &mut u64, depth: u32) -> i128
    requires structures { AreWholeStructures (plain_types around.now.p.now.types) }
    ensures { (t : PlainType) → Settles around.now (read_at_place (plain_place place.now) t) left.old (Int result) left.new }
{
    if depth == 0 {
        *left = 0;
        return 0;
    }
    match &place.form {
        PlaceForm::Index(array, number) => match start_of_array(around, array) {
            Some(start) => number_from(around, start, number, left, depth - 1),
            None => number_by_pointer(around, place, left, depth),
        },
        _ => number_by_pointer(around, place, left, depth),
    }
}

/// The number at a place in an object, by the pointer to it.
#[cycle(at_once)]
#[inline(never)]
fn number_by_pointer(around: &Surroundings<'_>, place: &Place, left: &mut u64, depth: u32) -> i128
    requires structures { AreWholeStructures (plain_types around.now.p.now.types) }
    ensures { (t : PlainType) → Settles around.now (read_at_place (plain_place place.now) t) left.old (Int result) left.new }
{
    let cell = element_at_once(around, place, left, depth);
    number_in(cell, left)
}

/// The number in an element of the array whose first element this pointer points to (C99 6.5.2.1).
#[cycle(at_once)]
#[inline(always)]
fn number_from(
    around: &Surroundings<'_>,
    start: Ptr,
    number: &Value,
    left: &mut u64,
    depth: u32,
) -> i128
    requires structures { AreWholeStructures (plain_types around.now.p.now.types) }
    ensures { (array : PlainValue) (at : At) (own t : PlainType) → StartsArray around.now array start → Settles around.now (read_at_place (place at own (index array (plain_value number.now))) t) left.old (Int result) left.new }
{
    if !pays(left) {
        return 0;
    }
    if !pays(left) {
        return 0;
    }
    let by = number_at_once(around, number, left, depth);
    let cell = cell_from(around.store, start, by);
    number_in(cell, left)
}

/// A conversion that isn't written (C99 6.3).
#[cycle(at_once)]
fn converted_at_once(
    around: &Surroundings<'_>,
    t: &CType,
    operand: &Value,
    left: &mut u64,
    depth: u32,
) -> i128
    requires structures { AreWholeStructures (plain_types around.now.p.now.types) }
    ensures { Performs around.now (plain_type t.now) (convert (plain_value operand.now)) left.old (Int result) left.new }
{
    let number = number_at_once(around, operand, left, depth);
    convert_number(t, number, left)
}

/// A cast (C99 6.5.4).
#[cycle(at_once)]
fn cast_at_once(
    around: &Surroundings<'_>,
    t: &CType,
    operand: &Value,
    left: &mut u64,
    depth: u32,
) -> i128
    requires structures { AreWholeStructures (plain_types around.now.p.now.types) }
    ensures { Performs around.now (plain_type t.now) (cast (plain_value operand.now)) left.old (Int result) left.new }
{
    if !pays(left) {
        return 0;
    }
    let number = number_at_once(around, operand, left, depth);
    convert_number(t, number, left)
}

/// A unary operator (C99 6.5.3.3).
#[cycle(at_once)]
fn unary_at_once(
    around: &Surroundings<'_>,
    op: UnOp,
    parts: (&CType, &Value),
    left: &mut u64,
    depth: u32,
) -> i128
    requires structures { AreWholeStructures (plain_types around.now.p.now.types) }
    ensures { Performs around.now (plain_type parts.entry.0.now) (unary op (plain_value parts.entry.1.now)) left.old (Int result) left.new }
{
    if !pays(left) {
        return 0;
    }
    let (t, operand) = parts;
    let number = number_at_once(around, operand, left, depth);
    apply_to_number(op, t, number, left)
}

/// A binary operator (C99 6.5.5 to 6.5.12).
#[cycle(at_once)]
fn binary_at_once(
    around: &Surroundings<'_>,
    op: BinOp,
    parts: (&CType, &Value, &Value),
    left: &mut u64,
    depth: u32,
) -> i128
    requires structures { AreWholeStructures (plain_types around.now.p.now.types) }
    ensures { Performs around.now (plain_type parts.entry.0.now) (binary op (plain_value parts.entry.1.now) (plain_value parts.entry.2.now)) left.old (Int result) left.new }
{
    if !pays(left) {
        return 0;
    }
    let (t, a, b) = parts;
    let x = number_at_once(around, a, left, depth);
    if *left == 0 {
        return 0;
    }
    let y = number_at_once(around, b, left, depth);
    apply_to_numbers(op, t, (x, y), left)
}

/// `&&` and `||` (C99 6.5.13, 6.5.14).
#[cycle(at_once)]
fn logic_at_once(
    around: &Surroundings<'_>,
    op: LogicOp,
    parts: (&CType, &Value, &Value),
    left: &mut u64,
    depth: u32,
) -> i128
    requires structures { AreWholeStructures (plain_types around.now.p.now.types) }
    ensures { Performs around.now (plain_type parts.entry.0.now) (logic op (plain_value parts.entry.1.now) (plain_value parts.entry.2.now)) left.old (Int result) left.new }
{
    if !pays(left) {
        return 0;
    }
    let (_, a, b) = parts;
    let x = number_at_once(around, a, left, depth);
    if *left == 0 {
        return 0;
    }
    if is_decided(op, x) {
        return truth_of(x);
    }
    let y = number_at_once(around, b, left, depth);
    truth_of(y)
}

/// The cell at a place that is read.
#[cycle(at_once)]
fn cell_at_once<'a>(
    around: &Surroundings<'a>,
    place: &Place,
    left: &mut u64,
    depth: u32,
) -> Option<&'a Cell>
    requires structures { AreWholeStructures (plain_types around.now.p.now.types) }
    ensures { (t : PlainType) (x : Scalar) → IsHolding (option_map (λ c. c.now) result) x → Settles around.now (read_at_place (plain_place place.now) t) left.old x left.new }
{
    match &place.form {
        PlaceForm::Var(number) => match around.held.get(*number as usize) {
            Some(Held::Holds(cell)) => Some(cell),
            _ => element_at_once(around, place, left, depth),
        },
        _ => element_at_once(around, place, left, depth),
    }
}

/// The cell at a place in an object.
#[cycle(at_once)]
fn element_at_once<'a>(
    around: &Surroundings<'a>,
    place: &Place,
    left: &mut u64,
    depth: u32,
) -> Option<&'a Cell>
    requires structures { AreWholeStructures (plain_types around.now.p.now.types) }
    ensures { (t : PlainType) (x : Scalar) → IsHolding (option_map (λ c. c.now) result) x → Settles around.now (read_at_place (plain_place place.now) t) left.old x left.new }
{
    let pointer = place_at_once(around, place, left, depth);
    if *left == 0 {
        return None;
    }
    cell_in(around.store, pointer)
}

/// The place in an object that a tree stands for.
#[cycle(at_once)]
pub fn place_at_once(around: &Surroundings<'_>, place: &Place, left: &mut u64, depth: u32) -> Ptr
    requires structures { AreWholeStructures (plain_types around.now.p.now.types) }
    ensures { Settles around.now (λ s held. locate s held (plain_place place.now)) left.old (Element result) left.new }
{
    if depth == 0 {
        *left = 0;
        return Ptr::Null;
    }
    let t = &place.ty;
    match &place.form {
        PlaceForm::Var(number) => variable_at(around, t, *number, left),
        PlaceForm::Global(number) => global_at(around, t, *number, left),
        PlaceForm::Index(array, index) => index_at_once(around, array, index, left, depth - 1),
        PlaceForm::Member(whole, number) => {
            member_at_once(around, t, (whole, *number), left, depth - 1)
        }
        PlaceForm::Deref(value) => dereference_at_once(around, value, left, depth - 1),
        _ => {
            *left = 0;
            Ptr::Null
        }
    }
}

/// An element (C99 6.5.2.1): of an array that is an object as a whole, only that element is tested.
#[cycle(at_once)]
fn index_at_once(
    around: &Surroundings<'_>,
    array: &Value,
    number: &Value,
    left: &mut u64,
    depth: u32,
) -> Ptr
    requires structures { AreWholeStructures (plain_types around.now.p.now.types) }
    ensures { (t : PlainType) → Locates around.now t (index (plain_value array.now) (plain_value number.now)) left.old result left.new }
{
    match start_of_array(around, array) {
        Some(start) => index_from(around, start, number, left, depth),
        None => index_by_pointer(around, array, number, left, depth),
    }
}

/// An element of the array whose first element this pointer points to.
#[cycle(at_once)]
fn index_from(
    around: &Surroundings<'_>,
    start: Ptr,
    number: &Value,
    left: &mut u64,
    depth: u32,
) -> Ptr
    requires structures { AreWholeStructures (plain_types around.now.p.now.types) }
    ensures { (array : PlainValue) (t : PlainType) → StartsArray around.now array start → Locates around.now t (index array (plain_value number.now)) left.old result left.new }
{
    if !pays(left) {
        return Ptr::Null;
    }
    if !pays(left) {
        return Ptr::Null;
    }
    let by = number_at_once(around, number, left, depth);
    moved_by(around.store, start, by, left)
}

/// An element, by any pointer.
#[cycle(at_once)]
fn index_by_pointer(
    around: &Surroundings<'_>,
    array: &Value,
    number: &Value,
    left: &mut u64,
    depth: u32,
) -> Ptr
    requires structures { AreWholeStructures (plain_types around.now.p.now.types) }
    ensures { (t : PlainType) → Locates around.now t (index (plain_value array.now) (plain_value number.now)) left.old result left.new }
{
    if !pays(left) {
        return Ptr::Null;
    }
    let pointer = pointer_at_once(around, array, left, depth);
    if *left == 0 {
        return Ptr::Null;
    }
    let by = number_at_once(around, number, left, depth);
    moved_by(around.store, pointer, by, left)
}

/// A member of a structure (C99 6.5.2.3).
#[cycle(at_once)]
fn member_at_once(
    around: &Surroundings<'_>,
    t: &CType,
    part: (&Place, u32),
    left: &mut u64,
    depth: u32,
) -> Ptr
    requires structures { AreWholeStructures (plain_types around.now.p.now.types) }
    ensures { Locates around.now (plain_type t.now) (member (plain_place part.entry.0.now) part.entry.1) left.old result left.new }
{
    if !pays(left) {
        return Ptr::Null;
    }
    let (whole, number) = part;
    let pointer = place_at_once(around, whole, left, depth);
    member_in(around, t, (&whole.ty, number), pointer, left)
}

/// What a pointer points to (C99 6.5.3.2p4).
#[cycle(at_once)]
fn dereference_at_once(around: &Surroundings<'_>, value: &Value, left: &mut u64, depth: u32) -> Ptr
    requires structures { AreWholeStructures (plain_types around.now.p.now.types) }
    ensures { (t : PlainType) → Locates around.now t (dereference (plain_value value.now)) left.old result left.new }
{
    if !pays(left) {
        return Ptr::Null;
    }
    let pointer = pointer_at_once(around, value, left, depth);
    reached(around.store, pointer, left)
}

/// The pointer that a value comes to.
#[cycle(at_once)]
fn pointer_at_once(around: &Surroundings<'_>, value: &Value, left: &mut u64, depth: u32) -> Ptr
    requires structures { AreWholeStructures (plain_types around.now.p.now.types) }
    ensures { Settles around.now (λ s held. evaluate s held (plain_value value.now)) left.old (Pointer result) left.new }
{
    if depth == 0 {
        *left = 0;
        return Ptr::Null;
    }
    match &value.form {
        ValueForm::Read(place) => read_pointer(around, &value.ty, place, left, depth - 1),
        ValueForm::Decay(place) => decay_at_once(around, place, left, depth - 1),
        _ => {
            *left = 0;
            Ptr::Null
        }
    }
}

/// A pointer that is read (C99 6.3.2.1p2).
#[cycle(at_once)]
fn read_pointer(
    around: &Surroundings<'_>,
    t: &CType,
    place: &Place,
    left: &mut u64,
    depth: u32,
) -> Ptr
    requires structures { AreWholeStructures (plain_types around.now.p.now.types) }
    ensures { Performs around.now (plain_type t.now) (read (plain_place place.now)) left.old (Pointer result) left.new }
{
    if is_structure(t) {
        *left = 0;
        return Ptr::Null;
    }
    if !pays(left) {
        return Ptr::Null;
    }
    let cell = cell_at_once(around, place, left, depth);
    pointer_in(cell, left)
}

/// The pointer to an array's first element (C99 6.3.2.1p3).
#[cycle(at_once)]
fn decay_at_once(around: &Surroundings<'_>, place: &Place, left: &mut u64, depth: u32) -> Ptr
    requires structures { AreWholeStructures (plain_types around.now.p.now.types) }
    ensures { (t : PlainType) → Performs around.now t (decay (plain_place place.now)) left.old (Pointer result) left.new }
{
    if !pays(left) {
        return Ptr::Null;
    }
    let pointer = place_at_once(around, place, left, depth);
    first_at(around, &place.ty, pointer, left)
}

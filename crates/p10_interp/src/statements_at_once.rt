//! Statements that are executed at once, without work on the stack: assignments and updates with numbers. Where anything stands
//! in the way nothing is changed, and the statement is executed by acts.

ghost use Rattle.std.specs.Prelude.{◌≡◌, ◌∷◌, ◌<◌, ◌≤◌, List, map, IsTrue, IfSome};
ghost use Rattle.p10_core.specs.Types.{PlainType, plain_type};
ghost use Rattle.p10_core.specs.Typed.{PlainValue, value, call, place, variable, index, set, update};
ghost use Rattle.p10_core.specs.Views.{plain_program, plain_types, plain_value, plain_values, plain_place, plain_statement_form};
ghost use Rattle.p10_core.specs.WholePrograms.{AreWholeStructures};
ghost use Rattle.p10_base.specs.declared.at.At.{At};
ghost use Rattle.p10_base.specs.declared.span.Span.{Span};
ghost use Rattle.p10_meaning.specs.declared.pointers.Scalar.TheVariants.{Int};
ghost use Rattle.p10_meaning.specs.Pointers.{holding};
ghost use Rattle.p10_meaning.specs.Objects.{write_at};
ghost use Rattle.p10_meaning.specs.Values.{Setting, Element, holds, evaluate, locate};
ghost use Rattle.p10_interp.specs.private.Standing.{held_of};
ghost use Rattle.p10_interp.specs.private.Tasks.{Open};
ghost use Rattle.p10_interp.specs.private.OpenCalls.{calls_in};
ghost use Rattle.p10_interp.specs.private.Machines.{Around, state_of};
ghost use Rattle.p10_interp.specs.private.AtOnce.{Finds, Starts};
ghost use Rattle.p10_interp.specs.private.Executing.{Executes, IsFrameVariable, IsHeldNumber, Writes};

use crate::base::Depth;
use crate::calls::Calls;
use crate::calls_at_once::{Caller, value_of_call};
use crate::cells_at_once::{holding_number, pointer_from};
use crate::entering::raise;
use crate::held::Held;
use crate::numbers_at_once::{apply_to_numbers, convert_number, pays};
use crate::outside::Outside;
use crate::places_at_once::start_of_array;
use crate::surroundings::{DEPTH, Surroundings};
use crate::values_at_once::{number_at_once, place_at_once};
use p10_core::{CType, Place, PlaceForm, Program, Stmt, StmtForm, UpdateKind, Value, ValueForm};
use p10_int::BinOp;
use p10_meaning::{Cell, Ptr, Scalar};
use p10_store::Store;

/// Executes a statement at once, if it can be: otherwise nothing is changed.
pub fn execute_at_once(
    p: &Program<'_>,
    statement: &Stmt,
    calls: &mut Calls<'_>,
    frame: &mut Vec<Held>,
    outside: &mut Outside,
) -> bool
    requires structures { AreWholeStructures (plain_types p.now.types) }
    ensures done { (io : Around) (f : Open) (around : List Open) → calls_in calls.old ≡ f ∷ around → Executes (plain_program p.now) (plain_statement_form statement.now.form) result f around (state_of outside.old io) (calls_in calls.new) (state_of outside.new io) }
    ensures fewer { IsTrue result → outside.new.left < outside.old.left }
{
    match &statement.form {
        StmtForm::Set(place, value) => set_at_once(p, (place, value), calls, frame, outside),
        StmtForm::Update(kind, op, t, place, value) => {
            update_at_once(p, (*kind, *op, t), (place, value), calls, outside)
        }
        _ => false,
    }
}

/// `P = e;` (C99 6.5.16.1).
fn set_at_once(
    p: &Program<'_>,
    parts: (&Place, &Value),
    calls: &mut Calls<'_>,
    frame: &mut Vec<Held>,
    outside: &mut Outside,
) -> bool
    requires structures { AreWholeStructures (plain_types p.now.types) }
    ensures done { (io : Around) (f : Open) (around : List Open) → calls_in calls.old ≡ f ∷ around → Executes (plain_program p.now) (set (plain_place parts.entry.0.now) (plain_value parts.entry.1.now)) result f around (state_of outside.old io) (calls_in calls.new) (state_of outside.new io) }
    ensures fewer { IsTrue result → outside.new.left < outside.old.left }
{
    let (place, value) = parts;
    match &place.form {
        PlaceForm::Var(number) => {
            if is_frame_variable(calls.standing(), *number) {
                set_variable_at_once(p, *number, value, calls, frame, outside)
            } else {
                set_element(p, place, value, calls, outside)
            }
        }
        _ => set_element(p, place, value, calls, outside),
    }
}

/// A frame variable is assigned, also what a call comes to.
fn set_variable_at_once(
    p: &Program<'_>,
    number: u32,
    value: &Value,
    calls: &mut Calls<'_>,
    frame: &mut Vec<Held>,
    outside: &mut Outside,
) -> bool
    requires structures { AreWholeStructures (plain_types p.now.types) }
    ensures done { (at : At) (t : PlainType) (io : Around) (f : Open) (around : List Open) → calls_in calls.old ≡ f ∷ around → Executes (plain_program p.now) (set (place at t (variable number)) (plain_value value.now)) result f around (state_of outside.old io) (calls_in calls.new) (state_of outside.new io) }
    ensures fewer { IsTrue result → outside.new.left < outside.old.left }
{
    match &value.form {
        ValueForm::Call(_, function, arguments) => {
            let made = (*function, arguments.as_slice());
            set_by_call(p, number, made, calls, frame, outside)
        }
        _ => set_variable(p, number, value, calls, outside),
    }
}

/// A frame variable is assigned what a call comes to.
fn set_by_call(
    p: &Program<'_>,
    number: u32,
    made: (u32, &[Value]),
    calls: &mut Calls<'_>,
    frame: &mut Vec<Held>,
    outside: &mut Outside,
) -> bool
    requires structures { AreWholeStructures (plain_types p.now.types) }
    ensures done { (place_at value_at : At) (own t : PlainType) (name : Span) (io : Around) (f : Open) (around : List Open) → calls_in calls.old ≡ f ∷ around → Executes (plain_program p.now) (set (place place_at own (variable number)) (value value_at t (call name made.entry.0 (plain_values made.entry.1.now)))) result f around (state_of outside.old io) (calls_in calls.new) (state_of outside.new io) }
    ensures fewer { IsTrue result → outside.new.left < outside.old.left }
{
    let mut left = outside.left;
    if !is_frame_variable(calls.standing(), number) {
        return false;
    }
    if !pays(&mut left) {
        return false;
    }
    let mut reached = Depth { calls: 0, bytes: 0 };
    let caller = Caller {
        p,
        calls: &*calls,
        store: &outside.store,
    };
    let found = value_of_call(&caller, made, frame, &mut reached, &mut left);
    if left == 0 {
        return false;
    }
    if left >= outside.left {
        return false;
    }
    raise(reached, outside);
    calls.set_held(number, holding_number(found));
    outside.left = left;
    true
}

/// A frame variable is assigned.
fn set_variable(
    p: &Program<'_>,
    number: u32,
    value: &Value,
    calls: &mut Calls<'_>,
    outside: &mut Outside,
) -> bool
    requires structures { AreWholeStructures (plain_types p.now.types) }
    ensures done { (at : At) (t : PlainType) (io : Around) (f : Open) (around : List Open) → calls_in calls.old ≡ f ∷ around → Executes (plain_program p.now) (set (place at t (variable number)) (plain_value value.now)) result f around (state_of outside.old io) (calls_in calls.new) (state_of outside.new io) }
    ensures fewer { IsTrue result → outside.new.left < outside.old.left }
{
    let mut left = outside.left;
    if !is_frame_variable(calls.standing(), number) {
        return false;
    }
    if !pays(&mut left) {
        return false;
    }
    let x = number_in_call(p, value, calls, outside, &mut left);
    if left == 0 {
        return false;
    }
    calls.set_held(number, holding_number(x));
    outside.left = left;
    true
}

/// A place in an object is assigned: of an element of an array that is an object as a whole, only that element is tested.
fn set_element(
    p: &Program<'_>,
    place: &Place,
    value: &Value,
    calls: &Calls<'_>,
    outside: &mut Outside,
) -> bool
    requires structures { AreWholeStructures (plain_types p.now.types) }
    ensures done { (io : Around) (f : Open) (around : List Open) → calls_in calls.now ≡ f ∷ around → Executes (plain_program p.now) (set (plain_place place.now) (plain_value value.now)) result f around (state_of outside.old io) (calls_in calls.now) (state_of outside.new io) }
    ensures fewer { IsTrue result → outside.new.left < outside.old.left }
{
    match &place.form {
        PlaceForm::Index(array, number) => match start_in_call(p, array, calls, outside) {
            Some(start) => set_from(p, start, (number, value), calls, outside),
            None => set_by_pointer(p, place, value, calls, outside),
        },
        _ => set_by_pointer(p, place, value, calls, outside),
    }
}

/// An element of the array whose first element this pointer points to is assigned (C99 6.5.2.1).
#[inline(always)]
fn set_from(
    p: &Program<'_>,
    start: Ptr,
    parts: (&Value, &Value),
    calls: &Calls<'_>,
    outside: &mut Outside,
) -> bool
    requires structures { AreWholeStructures (plain_types p.now.types) }
    ensures done { (array : PlainValue) (at : At) (own : PlainType) (io : Around) (f : Open) (around : List Open) → ((s : Setting) → s.program ≡ plain_program p.now → Starts s f.frame.held array start) → calls_in calls.now ≡ f ∷ around → Executes (plain_program p.now) (set (place at own (index array (plain_value parts.entry.0.now))) (plain_value parts.entry.1.now)) result f around (state_of outside.old io) (calls_in calls.now) (state_of outside.new io) }
    ensures fewer { IsTrue result → outside.new.left < outside.old.left }
{
    let (number, value) = parts;
    let mut left = outside.left;
    if !pays(&mut left) {
        return false;
    }
    if !pays(&mut left) {
        return false;
    }
    if !pays(&mut left) {
        return false;
    }
    let by = number_in_call(p, number, calls, outside, &mut left);
    if left == 0 {
        return false;
    }
    let x = number_in_call(p, value, calls, outside, &mut left);
    if left == 0 {
        return false;
    }
    let Some(there) = pointer_from(start, by) else {
        return false;
    };
    if !write_number(&mut outside.store, there, x) {
        return false;
    }
    outside.left = left;
    true
}

/// A place in an object is assigned, by the pointer to it.
#[inline(never)]
fn set_by_pointer(
    p: &Program<'_>,
    place: &Place,
    value: &Value,
    calls: &Calls<'_>,
    outside: &mut Outside,
) -> bool
    requires structures { AreWholeStructures (plain_types p.now.types) }
    ensures done { (io : Around) (f : Open) (around : List Open) → calls_in calls.now ≡ f ∷ around → Executes (plain_program p.now) (set (plain_place place.now) (plain_value value.now)) result f around (state_of outside.old io) (calls_in calls.now) (state_of outside.new io) }
    ensures fewer { IsTrue result → outside.new.left < outside.old.left }
{
    let mut left = outside.left;
    if !pays(&mut left) {
        return false;
    }
    let pointer = place_in_call(p, place, calls, outside, &mut left);
    if left == 0 {
        return false;
    }
    let x = number_in_call(p, value, calls, outside, &mut left);
    if left == 0 {
        return false;
    }
    if !write_number(&mut outside.store, pointer, x) {
        return false;
    }
    outside.left = left;
    true
}

/// `P op= e;`, `P++;` and `P--;` (C99 6.5.16.2, 6.5.2.4).
fn update_at_once(
    p: &Program<'_>,
    applied: (UpdateKind, BinOp, &CType),
    parts: (&Place, &Value),
    calls: &mut Calls<'_>,
    outside: &mut Outside,
) -> bool
    requires structures { AreWholeStructures (plain_types p.now.types) }
    ensures done { (io : Around) (f : Open) (around : List Open) → calls_in calls.old ≡ f ∷ around → Executes (plain_program p.now) (update applied.entry.0 applied.entry.1 (plain_type applied.entry.2.now) (plain_place parts.entry.0.now) (plain_value parts.entry.1.now)) result f around (state_of outside.old io) (calls_in calls.new) (state_of outside.new io) }
    ensures fewer { IsTrue result → outside.new.left < outside.old.left }
{
    let (_, op, t) = applied;
    let (place, value) = parts;
    match &place.form {
        PlaceForm::Var(number) => {
            update_variable(p, (op, t), (*number, &place.ty, value), calls, outside)
        }
        _ => false,
    }
}

/// A frame variable is updated.
fn update_variable(
    p: &Program<'_>,
    applied: (BinOp, &CType),
    parts: (u32, &CType, &Value),
    calls: &mut Calls<'_>,
    outside: &mut Outside,
) -> bool
    requires structures { AreWholeStructures (plain_types p.now.types) }
    ensures done { (kind : UpdateKind) (at : At) (io : Around) (f : Open) (around : List Open) → calls_in calls.old ≡ f ∷ around → Executes (plain_program p.now) (update kind applied.entry.0 (plain_type applied.entry.1.now) (place at (plain_type parts.entry.1.now) (variable parts.entry.0)) (plain_value parts.entry.2.now)) result f around (state_of outside.old io) (calls_in calls.new) (state_of outside.new io) }
    ensures fewer { IsTrue result → outside.new.left < outside.old.left }
{
    let (op, t) = applied;
    let (number, own, value) = parts;
    let mut left = outside.left;
    if !pays(&mut left) {
        return false;
    }
    if !pays(&mut left) {
        return false;
    }
    let old = number_held(calls.standing(), number, &mut left);
    let x = convert_number(t, old, &mut left);
    if left == 0 {
        return false;
    }
    let y = number_in_call(p, value, calls, outside, &mut left);
    if left == 0 {
        return false;
    }
    if !pays(&mut left) {
        return false;
    }
    let z = apply_to_numbers(op, t, (x, y), &mut left);
    let new = convert_number(own, z, &mut left);
    if left == 0 {
        return false;
    }
    calls.set_held(number, holding_number(new));
    outside.left = left;
    true
}

/// Whether a variable is a frame variable.
fn is_frame_variable(held: &[Held], number: u32) -> bool
    ensures { IsTrue result → IsFrameVariable (map held_of held.now) number }
{
    match held.get(number as usize) {
        Some(Held::Holds(_)) => true,
        _ => false,
    }
}

/// The number that a frame variable holds.
fn number_held(held: &[Held], number: u32, left: &mut u64) -> i128
    ensures { IsHeldNumber (map held_of held.now) number left.old result left.new }
{
    match held.get(number as usize) {
        Some(Held::Holds(cell)) => match &cell.value {
            Some(Scalar::Int(x)) => *x,
            _ => {
                *left = 0;
                0
            }
        },
        _ => {
            *left = 0;
            0
        }
    }
}

/// The number that a value comes to in the innermost call.
#[inline(always)]
pub fn number_in_call(
    p: &Program<'_>,
    value: &Value,
    calls: &Calls<'_>,
    outside: &Outside,
    left: &mut u64,
) -> i128
    requires structures { AreWholeStructures (plain_types p.now.types) }
    ensures found { (s : Setting) (f : Open) (around : List Open) → s.program ≡ plain_program p.now → calls_in calls.now ≡ f ∷ around → Finds (evaluate s f.frame.held (plain_value value.now)) outside.now.store.objects left.old (Int result) left.new }
    ensures fewer { left.new ≤ left.old }
{
    let before = *left;
    let around = Surroundings {
        p,
        held: calls.standing(),
        store: &outside.store,
    };
    let number = number_at_once(&around, value, left, DEPTH);
    if before < *left {
        *left = 0;
    }
    number
}

/// The place in an object that a tree stands for in the innermost call.
fn place_in_call(
    p: &Program<'_>,
    place: &Place,
    calls: &Calls<'_>,
    outside: &Outside,
    left: &mut u64,
) -> Ptr
    requires structures { AreWholeStructures (plain_types p.now.types) }
    ensures found { (s : Setting) (f : Open) (around : List Open) → s.program ≡ plain_program p.now → calls_in calls.now ≡ f ∷ around → Finds (locate s f.frame.held (plain_place place.now)) outside.now.store.objects left.old (Element result) left.new }
    ensures fewer { left.new ≤ left.old }
{
    let before = *left;
    let around = Surroundings {
        p,
        held: calls.standing(),
        store: &outside.store,
    };
    let pointer = place_at_once(&around, place, left, DEPTH);
    if before < *left {
        *left = 0;
    }
    pointer
}

/// The pointer to the first element of an array that is an object as a whole, in the innermost call; whether it is live isn't tested yet.
#[inline(always)]
fn start_in_call(
    p: &Program<'_>,
    array: &Value,
    calls: &Calls<'_>,
    outside: &Outside,
) -> Option<Ptr>
    requires structures { AreWholeStructures (plain_types p.now.types) }
    ensures { IfSome result (λ start. (s : Setting) (f : Open) (around : List Open) → s.program ≡ plain_program p.now → calls_in calls.now ≡ f ∷ around → Starts s f.frame.held (plain_value array.now) start) }
{
    let around = Surroundings {
        p,
        held: calls.standing(),
        store: &outside.store,
    };
    start_of_array(&around, array)
}

/// A number is written at a pointer, if it can be.
#[inline(always)]
fn write_number(store: &mut Store, pointer: Ptr, number: i128) -> bool
    ensures { Writes store.old store.new (write_at store.old.objects pointer (holding (Int number))) result }
{
    match store.place_mut(pointer) {
        Ok(cell) => {
            *cell = Cell {
                value: Some(Scalar::Int(number)),
            };
            true
        }
        Err(_) => false,
    }
}

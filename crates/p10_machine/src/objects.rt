//! Objects that operations open and copy. Each of these functions fails only where memory runs out.

ghost use Rattle.std.specs.Prelude.{◌≡◌, ℕ, suc, IfOk};
ghost use Rattle.p10_core.specs.Types.{plain_type};
ghost use Rattle.p10_core.specs.Views.{plain_program, plain_types};
ghost use Rattle.p10_core.specs.WholePrograms.{AreWholeStructures};
ghost use Rattle.p10_meaning.specs.Objects.{write_at};
ghost use Rattle.p10_meaning.specs.Scalars.{pointer_of};
ghost use Rattle.p10_meaning.specs.Statements.{Frame, goes, copy_scalars, part_of, write_part};
ghost use Rattle.p10_meaning.specs.Values.{scalars};
ghost use Rattle.p10_code.specs.Machine.{on, value_of, turned, no_frame};
ghost use Rattle.p10_compile.specs.Views.{plain_operand};
ghost use Rattle.p10_machine.specs.Frames.{with_object};
ghost use Rattle.p10_machine.specs.Turns.{followed_by, IsDone};
ghost use Rattle.p10_machine.specs.Views.{Around, slot_of, config_of, state_of};
ghost use Rattle.p10_machine.specs.Writing.{Changes, Continues, IsCut};

use crate::machine::{Machine, Spot};
use crate::outside::Outside;
use crate::running::Loaded;
use crate::scalars::pointer_of;
use crate::slots::Slot;
use crate::turned::{Cut, Ending, Full, Turned};
use crate::turning::next;
use crate::widths::width_of;
use p10_base::Span;
use p10_compile::Operand;
use p10_core::CType;
use p10_int::Stop;
use p10_meaning::{Cell, Ptr};
use p10_store::{Origin, Shape, Store};

/// An object of a type is opened for a variable.
pub fn open_variable(
    code: Loaded<'_>,
    n: u32,
    t: &CType,
    s: Spot,
    m: &mut Machine,
) -> Result<Turned, Full>
    requires structures { AreWholeStructures (plain_types code.program.now.types) }
    ensures { IfOk result (λ turned. (io : Around) → IsDone (on (with_object (scalars (plain_program code.entry.program.now) (plain_type t.now)) n (config_of s m.old io))) turned m.new io) }
{
    let Some(scalars) = width_of(&code.program.types, t) else {
        return Err(Full);
    };
    let number = m.outside.store.opened();
    let Ok(object) = u64::try_from(number) else {
        return Err(Full);
    };
    match m
        .outside
        .store
        .open(&Shape { scalars }, 1, Origin::Declared)
    {
        Ok(_) => {}
        Err(_) => return Err(Full),
    }
    m.note_opened(number)?;
    let place = m.place(n);
    m.set(place, Slot::Object(object));
    next(s)
}

/// The first scalars at one pointer are copied to another, for each a step, its read and its write.
pub fn copy(
    to: Operand,
    from: Operand,
    spans: (Span, Span),
    count: u64,
    s: Spot,
    m: &mut Machine,
) -> Result<Turned, Full>
    ensures { IfOk result (λ t. (io : Around) → IsDone (turned (copy_scalars count 0 spans.0 (pointer_of (value_of (plain_operand to) (slot_of m.old))) spans.1 (pointer_of (value_of (plain_operand from) (slot_of m.old))) no_frame (config_of s m.old io).state) (followed_by (config_of s m.old io))) t m.new io) }
{
    let to = pointer_of(m.value(to));
    let from = pointer_of(m.value(from));
    match copy_scalars((to, from), spans, count, s.left, &mut m.outside) {
        Ok(left) => next(Spot { pc: s.pc, left }),
        Err(cut) => cut_off(cut),
    }
}

/// Work that isn't done to its end is the end of the run.
pub fn cut_off(cut: Cut) -> Result<Turned, Full>
    ensures { IfOk result (IsCut cut) }
{
    match cut {
        Cut::Undefined(left, stop, span) => Ok(Turned::Off(left, Ending::Undefined(stop, span))),
        Cut::StepsSpent => Ok(Turned::Off(0, Ending::StepsSpent)),
        Cut::Full => Err(Full),
    }
}

/// The first `count` scalars are copied, in order; gives the steps that are left.
fn copy_scalars(
    pointers: (Ptr, Ptr),
    spans: (Span, Span),
    count: u64,
    steps: u64,
    outside: &mut Outside,
) -> Result<u64, Cut>
    ensures { (io : Around) (frame : Frame) → Continues (copy_scalars count 0 spans.0 pointers.0 spans.1 pointers.1 frame (state_of steps outside.old io)) (λ left. goes frame (state_of left outside.new io)) result outside.new io }
{
    let mut left = steps;
    for i in 0..count {
        left = copy_scalar(pointers, spans, i, left, outside)?;
    }
    Ok(left)
}

/// A scalar is copied, with a step: an unset one as it is. Gives the steps that are left.
fn copy_scalar(
    pointers: (Ptr, Ptr),
    spans: (Span, Span),
    i: u64,
    steps: u64,
    outside: &mut Outside,
) -> Result<u64, Cut>
    ensures { (n : ℕ) (io : Around) (frame : Frame) → Continues (copy_scalars (suc n) i spans.0 pointers.0 spans.1 pointers.1 frame (state_of steps outside.old io)) (λ left. copy_scalars n (suc i) spans.0 pointers.0 spans.1 pointers.1 frame (state_of left outside.new io)) result outside.new io }
{
    let (to, from) = pointers;
    let Some(left) = steps.checked_sub(1) else {
        return Err(Cut::StepsSpent);
    };
    match part_of(&outside.store, from, i) {
        Ok(cell) => match write_part(&mut outside.store, to, i, cell) {
            Ok(()) => Ok(left),
            Err(stop) => Err(Cut::Undefined(left, stop, spans.0)),
        },
        Err(stop) => Err(Cut::Undefined(left, stop, spans.1)),
    }
}

/// The cell of a scalar of an element: U5, U7, U6.
fn part_of(store: &Store, pointer: Ptr, i: u64) -> Result<Cell, Stop>
    ensures { result ≡ part_of store.now.objects pointer i }
{
    match store.inner(pointer, i, &Shape { scalars: 1 }, 1) {
        Ok(there) => match store.place(there) {
            Ok(cell) => Ok(*cell),
            Err(stop) => Err(stop),
        },
        Err(stop) => Err(stop),
    }
}

/// The cell of a scalar of an element is written: U5, U7, U6, U12.
pub fn write_part(store: &mut Store, pointer: Ptr, i: u64, cell: Cell) -> Result<(), Stop>
    ensures { Changes store.old store.new (write_part store.old.objects pointer i cell) result }
{
    match store.inner(pointer, i, &Shape { scalars: 1 }, 1) {
        Ok(there) => write_at(store, there, cell),
        Err(stop) => Err(stop),
    }
}

/// A cell is written at a pointer: U5, U7, U6, U12.
pub fn write_at(store: &mut Store, pointer: Ptr, cell: Cell) -> Result<(), Stop>
    ensures { Changes store.old store.new (write_at store.old.objects pointer cell) result }
{
    match store.place_mut(pointer) {
        Ok(place) => {
            *place = cell;
            Ok(())
        }
        Err(stop) => Err(stop),
    }
}

//! Reads and writes of places.

ghost use Rattle.std.specs.Prelude.{◌≡◌, ◌∷◌, List, option_map};
ghost use Rattle.p10_core.specs.Types.{plain_type};
ghost use Rattle.p10_core.specs.Typed.{PlainProgram};
ghost use Rattle.p10_meaning.specs.Objects.{on_ok, cell_at, write_at};
ghost use Rattle.p10_meaning.specs.Pointers.{holding, read_of};
ghost use Rattle.p10_meaning.specs.Statements.{write_target};
ghost use Rattle.p10_meaning.specs.Values.{held_cell, read_target};
ghost use Rattle.p10_interp.specs.private.Tasks.{Open, Operand as AnOperand};
ghost use Rattle.p10_interp.specs.private.Operations.{leaves_done};
ghost use Rattle.p10_interp.specs.private.OpenCalls.{calls_in};
ghost use Rattle.p10_interp.specs.private.Standing.{held_of};
ghost use Rattle.p10_interp.specs.private.Views.{Answers, Finds, Gives, left_with, target_of};
ghost use Rattle.p10_interp.specs.private.Machines.{Around, state_of};
ghost use Rattle.p10_interp.specs.private.Writing.{Changes};

use crate::calls::Calls;
use crate::held::Held;
use crate::outside::Outside;
use crate::values::next_sensed;
use crate::work::{Halt, Target};
use p10_base::Span;
use p10_core::CType;
use p10_meaning::{Cell, Ptr, Scalar};
use p10_store::{Stop, Store};

/// The scalar at a place of a type: U5, U7, U6, U8 (C99 6.3.2.1p2).
pub fn read_target(
    span: Span,
    t: &CType,
    target: Target,
    calls: &Calls<'_>,
    outside: &mut Outside,
) -> Result<Scalar, Halt>
    ensures { (io : Around) (f : Open) (around : List Open) → calls_in calls.now ≡ f ∷ around → Gives (read_target span (plain_type t.now) f.frame.held (target_of target) (state_of outside.old io)) result (state_of outside.new io) }
{
    match target {
        Target::Variable(number) => held_scalar(calls.held(number), span),
        Target::Sensor => next_sensed(t, outside),
        Target::Element(pointer) => element_scalar(&outside.store, pointer, span),
    }
}

/// The scalar that a frame variable holds: U8 where it is unset.
fn held_scalar(held: Option<Held>, span: Span) -> Result<Scalar, Halt>
    ensures { Finds (read_of (held_cell (option_map held_of held))) span result }
{
    match held {
        Some(Held::Holds(cell)) => match cell.value {
            Some(x) => Ok(x),
            None => Err(Halt::Undefined(Stop::U8, span)),
        },
        Some(Held::Stands(_)) | Some(Held::Absent) | None => {
            Err(Halt::Undefined(Stop::U8, span))
        }
    }
}

/// The scalar at a pointer: U5, U7, U6, U8.
fn element_scalar(store: &Store, pointer: Ptr, span: Span) -> Result<Scalar, Halt>
    ensures { Finds (on_ok (cell_at store.now.objects pointer) read_of) span result }
{
    match store.place(pointer) {
        Ok(cell) => match cell.value {
            Some(x) => Ok(x),
            None => Err(Halt::Undefined(Stop::U8, span)),
        },
        Err(stop) => Err(Halt::Undefined(stop, span)),
    }
}

/// A scalar is written at a place: a sensor stores nothing; U5, U7, U6, U12 (C99 6.5.16).
pub fn write_target(
    span: Span,
    target: Target,
    x: Scalar,
    calls: &mut Calls<'_>,
    outside: &mut Outside,
) -> Result<(), Halt>
    ensures { (io : Around) (operands : List AnOperand) (f : Open) (around : List Open) → calls_in calls.old ≡ f ∷ around → Answers (leaves_done operands f around (write_target span (target_of target) (holding x) f.frame (state_of outside.old io))) result (left_with operands (calls_in calls.new)) (state_of outside.new io) }
{
    let cell = Cell { value: Some(x) };
    match target {
        Target::Variable(number) => {
            calls.set_held(number, Held::Holds(cell));
            Ok(())
        }
        Target::Sensor => Ok(()),
        Target::Element(pointer) => write_element(&mut outside.store, pointer, cell, span),
    }
}

/// A cell is written at a pointer: U5, U7, U6, U12.
pub fn write_element(store: &mut Store, pointer: Ptr, cell: Cell, span: Span) -> Result<(), Halt>
    ensures { Changes store.old store.new (write_at store.old.objects pointer cell) span result }
{
    match store.place_mut(pointer) {
        Ok(place) => {
            *place = cell;
            Ok(())
        }
        Err(stop) => Err(Halt::Undefined(stop, span)),
    }
}

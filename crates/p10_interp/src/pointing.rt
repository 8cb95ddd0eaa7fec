//! The operations that find places: elements, members, and what pointers point to.

ghost use Rattle.std.specs.Prelude.{◌≡◌, List, Ok};
ghost use Rattle.p10_core.specs.Types.{plain_type};
ghost use Rattle.p10_core.specs.Typed.{PlainProgram};
ghost use Rattle.p10_core.specs.Views.{plain_program, plain_types};
ghost use Rattle.p10_core.specs.WholePrograms.{AreWholeStructures};
ghost use Rattle.p10_meaning.specs.Objects.{reach, on_ok, inner, shift};
ghost use Rattle.p10_meaning.specs.Values.{element_type, element_count};
ghost use Rattle.p10_interp.specs.private.Tasks.{Open, decay_at, index_at, dereference_at};
ghost use Rattle.p10_interp.specs.private.Operations.{done_by};
ghost use Rattle.p10_interp.specs.private.Views.{Answers, Finds, left_with};
ghost use Rattle.p10_interp.specs.private.Machines.{Around, state_of};

use crate::operations::pointer_to;
use crate::outside::Outside;
use crate::scalars::{number_of, pointer_of};
use crate::tasks::Operands;
use crate::widths::width_of;
use crate::work::{Halt, Operand, Target};
use p10_base::Span;
use p10_core::{CType, Program, TypeForm};
use p10_meaning::{Ptr, Scalar};
use p10_store::{Shape, Store};

/// The pointer to an array's first element (C99 6.3.2.1p3).
pub fn decay(
    p: &Program<'_>,
    span: Span,
    t: &CType,
    operands: &mut Operands,
    outside: &Outside,
) -> Result<(), Halt>
    requires structures { AreWholeStructures (plain_types p.now.types) }
    ensures { (io : Around) (calls : List Open) → Answers (done_by (plain_program p.now) (decay_at span (plain_type t.now)) operands.old calls (state_of outside.now io)) result (left_with operands.new calls) (state_of outside.now io) }
{
    let Some(target) = operands.pop_target() else {
        return Err(Halt::Spent);
    };
    let Some(scalars) = width_of(&p.types, element_of(t)) else {
        return Err(Halt::Memory);
    };
    let first = inner(
        &outside.store,
        pointer_to(target),
        0,
        scalars,
        count_of(t),
        span,
    )?;
    operands.push(Operand::Evaluated(Some(Scalar::Pointer(first))))
}

/// The pointer to the first element of the array of `count` elements, of `scalars` scalars each, that begins at a scalar of an
/// element: U5, U7.
pub fn inner(
    store: &Store,
    pointer: Ptr,
    at: u64,
    scalars: u64,
    count: u64,
    span: Span,
) -> Result<Ptr, Halt>
    ensures { Finds (inner store.now.objects pointer at scalars count) span result }
{
    match store.inner(pointer, at, &Shape { scalars }, count) {
        Ok(first) => Ok(first),
        Err(stop) => Err(Halt::Undefined(stop, span)),
    }
}

/// What an array has as its elements.
pub fn element_of(t: &CType) -> &CType
    ensures { plain_type result.now ≡ element_type (plain_type t.now) }
{
    match &t.form {
        TypeForm::Array(element, _) => element,
        _ => t,
    }
}

/// How many elements an array has.
pub fn count_of(t: &CType) -> u64
    ensures { result ≡ element_count (plain_type t.now) }
{
    match &t.form {
        TypeForm::Array(_, length) => *length,
        _ => 1,
    }
}

/// An element of an array, by a pointer and a number: U5, U7, U6 (C99 6.5.2.1).
pub fn index(span: Span, operands: &mut Operands, outside: &Outside) -> Result<(), Halt>
    ensures { (p : PlainProgram) (io : Around) (calls : List Open) → Answers (done_by p (index_at span) operands.old calls (state_of outside.now io)) result (left_with operands.new calls) (state_of outside.now io) }
{
    let Some(y) = operands.pop_value() else {
        return Err(Halt::Spent);
    };
    let Some(x) = operands.pop_value() else {
        return Err(Halt::Spent);
    };
    let there = shift(&outside.store, pointer_of(x), number_of(y), span)?;
    operands.push(Operand::Located(Target::Element(there)))
}

/// The pointer moved by a number of elements: U5, U7, U6.
fn shift(store: &Store, pointer: Ptr, by: i128, span: Span) -> Result<Ptr, Halt>
    ensures { Finds (shift store.now.objects pointer by) span result }
{
    match store.shift(pointer, by) {
        Ok(there) => Ok(there),
        Err(stop) => Err(Halt::Undefined(stop, span)),
    }
}

/// What a pointer points to: U5, U7 (C99 6.5.3.2p4).
pub fn dereference(span: Span, operands: &mut Operands, outside: &Outside) -> Result<(), Halt>
    ensures { (p : PlainProgram) (io : Around) (calls : List Open) → Answers (done_by p (dereference_at span) operands.old calls (state_of outside.now io)) result (left_with operands.new calls) (state_of outside.now io) }
{
    let Some(x) = operands.pop_value() else {
        return Err(Halt::Spent);
    };
    let there = reach(&outside.store, pointer_of(x), span)?;
    operands.push(Operand::Located(Target::Element(there)))
}

/// The pointer itself, whose object has to be there: U5, U7. An array in an object is found exactly where the object is.
fn reach(store: &Store, pointer: Ptr, span: Span) -> Result<Ptr, Halt>
    ensures { Finds (on_ok (reach store.now.objects pointer) (λ object. Ok pointer)) span result }
{
    match store.inner(pointer, 0, &Shape { scalars: 1 }, 1) {
        Ok(_) => Ok(pointer),
        Err(stop) => Err(Halt::Undefined(stop, span)),
    }
}

//! The operations on operands that are there.

ghost use Rattle.std.specs.Prelude.{◌≡◌, ◌∷◌, List};
ghost use Rattle.p10_core.specs.Types.{plain_type};
ghost use Rattle.p10_core.specs.Typed.{PlainProgram};
ghost use Rattle.p10_meaning.specs.States.{State};
ghost use Rattle.p10_interp.specs.private.Tasks.{Open, use_value, drop_value, give_none, convert_to, take_truth, take_address, read_none, apply_unary, apply_binary, assert_at};
ghost use Rattle.p10_interp.specs.private.Operations.{done_by};
ghost use Rattle.p10_interp.specs.private.Views.{Answers, left_with, target_of};
ghost use Rattle.p10_interp.specs.private.Machines.{Around, state_of};
ghost use Rattle.p10_meaning.specs.Values.{pointer_to};

use crate::operators::{apply_binary, apply_unary};
use crate::outside::Outside;
use crate::scalars::{convert_to, is_true, truth_value};
use crate::tasks::Operands;
use crate::work::{Halt, Operand, Target};
use p10_base::Span;
use p10_core::CType;
use p10_int::{BinOp, UnOp};
use p10_meaning::{Ptr, Scalar};
use p10_store::Stop;

/// A value is used: U10 where there is none.
pub fn use_value(span: Span, operands: &mut Operands) -> Result<(), Halt>
    ensures { (p : PlainProgram) (calls : List Open) (w : State) → Answers (done_by p (use_value span) operands.old calls w) result (left_with operands.new calls) w }
{
    let Some(given) = operands.pop_result() else {
        return Err(Halt::Spent);
    };
    if given.is_none() {
        return Err(Halt::Undefined(Stop::U10, span));
    }
    operands.push(Operand::Evaluated(given))
}

/// A value isn't used.
pub fn drop_value(operands: &mut Operands) -> Result<(), Halt>
    ensures { (p : PlainProgram) (calls : List Open) (w : State) → Answers (done_by p drop_value operands.old calls w) result (left_with operands.new calls) w }
{
    match operands.pop_result() {
        Some(_) => Ok(()),
        None => Err(Halt::Spent),
    }
}

/// A conversion.
pub fn convert(t: &CType, operands: &mut Operands) -> Result<(), Halt>
    ensures { (p : PlainProgram) (calls : List Open) (w : State) → Answers (done_by p (convert_to (plain_type t.now)) operands.old calls w) result (left_with operands.new calls) w }
{
    let Some(x) = operands.pop_value() else {
        return Err(Halt::Spent);
    };
    let converted = convert_to(t, x)?;
    operands.push(Operand::Evaluated(Some(converted)))
}

/// The truth of a value.
pub fn take_truth(operands: &mut Operands) -> Result<(), Halt>
    ensures { (p : PlainProgram) (calls : List Open) (w : State) → Answers (done_by p take_truth operands.old calls w) result (left_with operands.new calls) w }
{
    let Some(x) = operands.pop_value() else {
        return Err(Halt::Spent);
    };
    operands.push(Operand::Evaluated(Some(truth_value(is_true(x)))))
}

/// The address of a place.
pub fn take_address(operands: &mut Operands) -> Result<(), Halt>
    ensures { (p : PlainProgram) (calls : List Open) (w : State) → Answers (done_by p take_address operands.old calls w) result (left_with operands.new calls) w }
{
    let Some(target) = operands.pop_target() else {
        return Err(Halt::Spent);
    };
    operands.push(Operand::Evaluated(Some(Scalar::Pointer(pointer_to(target)))))
}

/// The pointer to a place.
pub fn pointer_to(target: Target) -> Ptr
    ensures { result ≡ pointer_to (target_of target) }
{
    match target {
        Target::Element(pointer) => pointer,
        Target::Variable(_) | Target::Sensor => Ptr::Null,
    }
}

/// A structure is read, which gives no value.
pub fn read_none(operands: &mut Operands) -> Result<(), Halt>
    ensures { (p : PlainProgram) (calls : List Open) (w : State) → Answers (done_by p read_none operands.old calls w) result (left_with operands.new calls) w }
{
    let Some(_) = operands.pop_target() else {
        return Err(Halt::Spent);
    };
    operands.push(Operand::Evaluated(None))
}

/// A unary operator (C99 6.5.3.3).
pub fn apply_unary_to(op: UnOp, t: &CType, span: Span, operands: &mut Operands) -> Result<(), Halt>
    ensures { (p : PlainProgram) (calls : List Open) (w : State) → Answers (done_by p (apply_unary op (plain_type t.now) span) operands.old calls w) result (left_with operands.new calls) w }
{
    let Some(x) = operands.pop_value() else {
        return Err(Halt::Spent);
    };
    let value = apply_unary(op, t, x, span)?;
    operands.push(Operand::Evaluated(Some(value)))
}

/// A binary operator (C99 6.5.5 to 6.5.12): the right operand is on top.
pub fn apply_binary_to(
    op: BinOp,
    t: &CType,
    span: Span,
    operands: &mut Operands,
    outside: &Outside,
) -> Result<(), Halt>
    ensures { (p : PlainProgram) (io : Around) (calls : List Open) → Answers (done_by p (apply_binary op (plain_type t.now) span) operands.old calls (state_of outside.now io)) result (left_with operands.new calls) (state_of outside.now io) }
{
    let Some(y) = operands.pop_value() else {
        return Err(Halt::Spent);
    };
    let Some(x) = operands.pop_value() else {
        return Err(Halt::Spent);
    };
    let value = apply_binary(op, t, &outside.store, x, y, span)?;
    operands.push(Operand::Evaluated(Some(value)))
}

/// No value is given, as by a cast to `void`.
pub fn give_none(operands: &mut Operands) -> Result<(), Halt>
    ensures { (p : PlainProgram) (calls : List Open) (w : State) → Answers (done_by p give_none operands.old calls w) result (left_with operands.new calls) w }
{
    operands.push(Operand::Evaluated(None))
}

/// `assert` of a value: it fails where the value is 0 or null (C99 7.2.1.1p2).
pub fn assert_value(span: Span, operands: &mut Operands) -> Result<(), Halt>
    ensures { (p : PlainProgram) (calls : List Open) (w : State) → Answers (done_by p (assert_at span) operands.old calls w) result (left_with operands.new calls) w }
{
    let Some(x) = operands.pop_value() else {
        return Err(Halt::Spent);
    };
    if is_true(x) {
        Ok(())
    } else {
        Err(Halt::Failed(span))
    }
}

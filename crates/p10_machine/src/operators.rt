//! The operators on scalars (C99 6.5).

ghost use Rattle.std.specs.Prelude.{◌≡◌, IsTrue, false};
ghost use Rattle.p10_core.specs.Types.{PlainType, integer};
ghost use Rattle.p10_int.specs.Types.{InRange, holds};
ghost use Rattle.p10_int.specs.Operators.{operate, operate_unary, IsRightOperand, fitted};
ghost use Rattle.p10_int.specs.declared.operators.Stop.TheVariants.{U1};
ghost use Rattle.p10_meaning.specs.Pointers.{is_null, same_window, same_pointer};
ghost use Rattle.p10_meaning.specs.declared.pointers.Scalar.TheVariants.{Pointer};
ghost use Rattle.p10_meaning.specs.Objects.{on_ok, less, distance};
ghost use Rattle.p10_meaning.specs.Scalars.{moved, related, operated, operated_unary};
ghost use Rattle.p10_machine.specs.Turns.{Finds};

use crate::scalars::truth_value;
use crate::turned::Halt;
use p10_int::{BinOp, IntType, Stop, UnOp};
use p10_meaning::{Ptr, Scalar, Window};
use p10_store::Store;

/// A unary operator (C99 6.5.3.3).
pub fn apply_unary(op: UnOp, t: IntType, x: Scalar) -> Result<Scalar, Halt>
    ensures { Finds (operated_unary op (integer false t) x) result }
{
    match x {
        Scalar::Int(number) => {
            let value = operate_number(op, t, number)?;
            Ok(Scalar::Int(value))
        }
        Scalar::Pointer(pointer) => negate_pointer(op, pointer),
    }
}

/// A unary operator on a number. `!` takes a number of any type, since its own type is that of its answer (C99 6.5.3.3p5).
fn operate_number(op: UnOp, t: IntType, a: i128) -> Result<i128, Halt>
    ensures { Finds (operate_unary op t a) result }
{
    match op {
        UnOp::Not => Ok(i128::from(a == 0)),
        UnOp::Plus | UnOp::Neg | UnOp::Com => calculate_one(op, t, a),
    }
}

/// A unary operator on a number of its type. Any other operand is answered as out of memory; whole programs have none.
fn calculate_one(op: UnOp, t: IntType, a: i128) -> Result<i128, Halt>
    ensures { Finds (operate_unary op t a) result }
{
    if !p10_int::holds(t, a) {
        return Err(Halt::Full);
    }
    match p10_int::unary(op, t, a) {
        Ok(number) => Ok(number),
        Err(stop) => Err(Halt::Stop(stop)),
    }
}

/// A unary operator on a pointer: only `!` is there.
fn negate_pointer(op: UnOp, pointer: Ptr) -> Result<Scalar, Halt>
    ensures { (t : PlainType) → Finds (operated_unary op t (Pointer pointer)) result }
{
    match op {
        UnOp::Not => Ok(truth_value(is_null(pointer))),
        _ => Err(Halt::Stop(Stop::U9)),
    }
}

/// Whether a pointer is null.
fn is_null(pointer: Ptr) -> bool
    ensures { result ≡ is_null pointer }
{
    match pointer {
        Ptr::Null => true,
        Ptr::To { .. } => false,
    }
}

/// A binary operator (C99 6.5.5 to 6.5.12).
pub fn apply_binary(
    op: BinOp,
    t: IntType,
    store: &Store,
    x: Scalar,
    y: Scalar,
) -> Result<Scalar, Halt>
    ensures { Finds (operated op (integer false t) store.now.objects x y) result }
{
    match (x, y) {
        (Scalar::Int(a), Scalar::Int(b)) => {
            let value = operate_numbers(op, t, a, b)?;
            Ok(Scalar::Int(value))
        }
        (Scalar::Pointer(pointer), Scalar::Int(by)) => {
            let there = move_pointer(op, store, pointer, by)?;
            Ok(Scalar::Pointer(there))
        }
        (Scalar::Int(by), Scalar::Pointer(pointer)) => {
            let there = move_pointer(op, store, pointer, by)?;
            Ok(Scalar::Pointer(there))
        }
        (Scalar::Pointer(left), Scalar::Pointer(right)) => {
            let value = relate(op, t, store, left, right)?;
            Ok(Scalar::Int(value))
        }
    }
}

/// Two pointers subtracted, ordered or compared (C99 6.5.6p9, 6.5.8p5, 6.5.9p6).
fn relate(op: BinOp, t: IntType, store: &Store, left: Ptr, right: Ptr) -> Result<i128, Halt>
    ensures { Finds (related op (integer false t) store.now.objects left right) result }
{
    match op {
        BinOp::Sub => subtract_pointers(t, store, left, right),
        BinOp::Lt => Ok(i128::from(is_less(store, left, right)?)),
        BinOp::Gt => Ok(i128::from(is_less(store, right, left)?)),
        BinOp::Le => Ok(i128::from(!is_less(store, right, left)?)),
        BinOp::Ge => Ok(i128::from(!is_less(store, left, right)?)),
        BinOp::Eq => Ok(i128::from(are_same(left, right))),
        BinOp::Ne => Ok(i128::from(!are_same(left, right))),
        _ => Err(Halt::Stop(Stop::U9)),
    }
}

/// How many elements the first pointer stands after the second (C99 6.5.6p9).
fn subtract_pointers(t: IntType, store: &Store, left: Ptr, right: Ptr) -> Result<i128, Halt>
    ensures { Finds (on_ok (distance store.now.objects left right) (λ n. fitted t U1 n)) result }
{
    match store.distance(left, right) {
        Ok(difference) => fit_difference(t, difference),
        Err(stop) => Err(Halt::Stop(stop)),
    }
}

/// Whether the first pointer stands before the second (C99 6.5.8p5).
fn is_less(store: &Store, left: Ptr, right: Ptr) -> Result<bool, Halt>
    ensures { Finds (less store.now.objects left right) result }
{
    match store.less(left, right) {
        Ok(less) => Ok(less),
        Err(stop) => Err(Halt::Stop(stop)),
    }
}

/// A binary operator on numbers (C99 6.5.5 to 6.5.12). A comparison takes numbers of any type, since its own type is that of its
/// answer (C99 6.5.8p6, 6.5.9p3).
fn operate_numbers(op: BinOp, t: IntType, a: i128, b: i128) -> Result<i128, Halt>
    ensures { Finds (operate op t a b) result }
{
    match op {
        BinOp::Lt => Ok(i128::from(a < b)),
        BinOp::Gt => Ok(i128::from(a > b)),
        BinOp::Le => Ok(i128::from(a <= b)),
        BinOp::Ge => Ok(i128::from(a >= b)),
        BinOp::Eq => Ok(i128::from(a == b)),
        BinOp::Ne => Ok(i128::from(a != b)),
        _ => calculate(op, t, a, b),
    }
}

/// A binary operator on numbers of its type. Any other operands are answered as out of memory; whole programs have none.
fn calculate(op: BinOp, t: IntType, a: i128, b: i128) -> Result<i128, Halt>
    ensures { Finds (operate op t a b) result }
{
    if !are_operands(op, t, a, b) {
        return Err(Halt::Full);
    }
    match p10_int::apply(op, t, a, b) {
        Ok(number) => Ok(number),
        Err(stop) => Err(Halt::Stop(stop)),
    }
}

/// Whether the operands are values of the operator's type, except for the count of a shift.
pub fn are_operands(op: BinOp, t: IntType, a: i128, b: i128) -> bool
    ensures { IsTrue result → InRange t a × IsRightOperand op t b }
{
    match op {
        BinOp::Shl | BinOp::Shr => p10_int::holds(t, a),
        _ => p10_int::holds(t, a) && p10_int::holds(t, b),
    }
}

/// A pointer and a number added or subtracted (C99 6.5.6p8).
fn move_pointer(op: BinOp, store: &Store, pointer: Ptr, by: i128) -> Result<Ptr, Halt>
    ensures { Finds (moved op store.now.objects pointer by) result }
{
    let moved = match op {
        BinOp::Add => store.shift(pointer, by),
        BinOp::Sub => {
            if by == i128::MIN {
                return Err(Halt::Full);
            }
            store.shift(pointer, -by)
        }
        _ => Err(Stop::U9),
    };
    match moved {
        Ok(there) => Ok(there),
        Err(stop) => Err(Halt::Stop(stop)),
    }
}

/// Whether two pointers are equal (C99 6.5.9p6).
fn are_same(left: Ptr, right: Ptr) -> bool
    ensures { result ≡ same_pointer left right }
{
    match (left, right) {
        (Ptr::Null, Ptr::Null) => true,
        (
            Ptr::To {
                object,
                window,
                position,
            },
            Ptr::To {
                object: other,
                window: others,
                position: there,
            },
        ) => object == other && are_same_windows(window, others) && position == there,
        _ => false,
    }
}

/// Whether two arrays of one object are the same.
fn are_same_windows(a: Window, b: Window) -> bool
    ensures { result ≡ same_window a b }
{
    a.start == b.start
        && a.stride == b.stride
        && a.count == b.count
        && a.inside == b.inside
        && a.whole == b.whole
}

/// A difference of pointers at the type of the operator: U1 where it isn't representable (C99 6.5.6p9). An unsigned type is
/// answered as out of memory; whole programs have none there.
#[tactic(auto, unfolding(p10_int::specs::Operators::fitted))]
fn fit_difference(t: IntType, difference: i128) -> Result<i128, Halt>
    ensures { Finds (fitted t U1 difference) result }
{
    if !p10_int::is_signed(t) {
        return Err(Halt::Full);
    }
    if is_value(t, difference) {
        Ok(difference)
    } else {
        Err(Halt::Stop(Stop::U1))
    }
}

/// Whether a number is a value of a type.
fn is_value(t: IntType, number: i128) -> bool
    ensures { result ≡ holds t number }
{
    let (least, greatest) = p10_int::range(t);
    least <= number && number <= greatest
}

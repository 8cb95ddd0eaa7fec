//! Comparisons of signed with unsigned operands.

ghost use Rattle.std.specs.Prelude.{◌≡◌};
ghost use Rattle.p10_core.specs.Types.{plain_type};
ghost use Rattle.p10_core.specs.Views.{plain_value};
ghost use Rattle.p10_warn.specs.Comparisons.{compares, as_written, differ_in_sign, gives_natural, is_natural_constant};
ghost use Rattle.p10_warn.specs.private.Listing.{mixes_signs};

use p10_base::At;
use p10_core::{CType, TypeForm, Value, ValueForm, fold, inconstant_part};
use p10_int::{BinOp, is_signed, promote};

/// Whether the operator compares a signed operand with an unsigned one, neither of which is a constant of at least 0.
pub(crate) fn mixes_signs(operator: BinOp, left: &Value, right: &Value) -> bool
    ensures { result ≡ mixes_signs operator (plain_value left.now) (plain_value right.now) }
{
    let first = as_written(left);
    let second = as_written(right);
    compares(operator)
        && (differ_in_sign(&first.ty, &second.ty)
            && (!is_natural_constant(first) && !is_natural_constant(second)))
}

/// Whether an operator compares.
fn compares(operator: BinOp) -> bool
    ensures { result ≡ compares operator }
{
    matches!(
        operator,
        BinOp::Lt | BinOp::Gt | BinOp::Le | BinOp::Ge | BinOp::Eq | BinOp::Ne
    )
}

/// An operand before the conversion that isn't written.
fn as_written(operand: &Value) -> &Value
    ensures { plain_value result.now ≡ as_written (plain_value operand.now) }
{
    match &operand.form {
        ValueForm::Convert(part) => part,
        ValueForm::Const(_)
        | ValueForm::Read(_)
        | ValueForm::Sense(_)
        | ValueForm::Addr(_)
        | ValueForm::Decay(_)
        | ValueForm::Cast(_)
        | ValueForm::Unary(_, _)
        | ValueForm::Binary(_, _, _)
        | ValueForm::Logic(_, _, _)
        | ValueForm::Cond(_, _, _)
        | ValueForm::Call(_, _, _)
        | ValueForm::Builtin(_, _, _) => operand,
    }
}

/// Whether both are integer types, and exactly one of them is signed once they are promoted.
fn differ_in_sign(left: &CType, right: &CType) -> bool
    ensures { result ≡ differ_in_sign (plain_type left.now) (plain_type right.now) }
{
    match (&left.form, &right.form) {
        (TypeForm::Int(first), TypeForm::Int(second)) => {
            is_signed(promote(*first)) != is_signed(promote(*second))
        }
        _ => false,
    }
}

/// Whether a value is an integer constant expression of at least 0.
fn is_natural_constant(value: &Value) -> bool
    ensures { result ≡ is_natural_constant (plain_value value.now) }
{
    inconstant_part(value).is_none() && gives_natural(fold(value))
}

/// Whether a constant gives a number of at least 0.
fn gives_natural(found: Result<i128, At>) -> bool
    ensures { result ≡ gives_natural found }
{
    match found {
        Ok(number) => 0 <= number,
        Err(_) => false,
    }
}

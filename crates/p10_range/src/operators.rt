//! The operators of C on ranges of converted operands, and conversion.

ghost use Rattle.std.specs.Prelude.{◌≡◌, ◌-◌, ◌^◌, pos, neg_ℤ, ◌≤ℤ◌};
ghost use Rattle.std.specs.Option.{option_map};
ghost use Rattle.p10_range.specs.Ranges.{interval_of, IsWithin};
ghost use Rattle.p10_range.specs.Rows.{values_of, row_of, unary_row_of, conversion_row_of};
ghost use Rattle.p10_range.specs.Operands.{IsRightOperand};

use crate::arithmetic::{difference, multiply, negative, sum};
use crate::bits::{complement, conjoin, disjoin};
use crate::comparisons::{can_be_at_most, can_be_equal, can_be_less, can_differ, outcome};
use crate::division::{divide, remain};
use crate::fitting::{fitted, whole_or_all};
use crate::ranges::Range;
use crate::shifts::{shift_left, shift_right};
use p10_int::{BinOp, IntType, UnOp};

/// The range of `a op b`, or `None` where the table has nothing: there `p10_int::apply` stops for
/// each pair of numbers.
///
/// `t` is the type to which the operands were converted: the common type of the usual conversions,
/// and for a shift the promoted type of its left operand. A shift count may be any number. The
/// range holds every result of `p10_int::apply` on numbers of `a` and `b`, and lies in the type.
#[tactic(auto, using(crate::proofs::Small::small_in))]
pub fn binary(op: BinOp, t: IntType, a: Range, b: Range) -> Option<Range>
    requires left { IsWithin (interval_of a) (values_of t) }
    requires right { IsRightOperand op t (interval_of b) }
    ensures { option_map interval_of result ≡ row_of op t (interval_of a) (interval_of b) }
{
    match op {
        BinOp::Add => fitted(t, sum(a, b)),
        BinOp::Sub => fitted(t, difference(a, b)),
        BinOp::Mul => multiply(t, a, b),
        BinOp::Div => divide(t, a, b),
        BinOp::Rem => remain(a, b),
        BinOp::Shl => shift_left(t, a, b),
        BinOp::Shr => shift_right(t, a, b),
        BinOp::And => Some(conjoin(t, a, b)),
        BinOp::Or | BinOp::Xor => Some(disjoin(t, a, b)),
        BinOp::Lt => Some(outcome(can_be_less(a, b), can_be_at_most(b, a))),
        BinOp::Gt => Some(outcome(can_be_less(b, a), can_be_at_most(a, b))),
        BinOp::Le => Some(outcome(can_be_at_most(a, b), can_be_less(b, a))),
        BinOp::Ge => Some(outcome(can_be_at_most(b, a), can_be_less(a, b))),
        BinOp::Eq => Some(outcome(can_be_equal(a, b), can_differ(a, b))),
        BinOp::Ne => Some(outcome(can_differ(a, b), can_be_equal(a, b))),
    }
}

/// The range of `op a`, or `None` where `p10_int::unary` stops for each number of `a`.
///
/// `t` is the promoted type of the operand. The range holds every result of `p10_int::unary` on
/// numbers of `a`, and lies in the type.
#[tactic(auto, using(crate::proofs::Small::small_in))]
pub fn unary(op: UnOp, t: IntType, a: Range) -> Option<Range>
    requires { IsWithin (interval_of a) (values_of t) }
    ensures { option_map interval_of result ≡ unary_row_of op t (interval_of a) }
{
    match op {
        UnOp::Plus => Some(a),
        UnOp::Neg => fitted(t, negative(a)),
        UnOp::Not => {
            let zero = Range { lo: 0, hi: 0 };
            Some(outcome(can_be_equal(a, zero), can_differ(a, zero)))
        }
        UnOp::Com => Some(complement(t, a)),
    }
}

/// The range of the numbers of `a` converted to the type: every result of `p10_int::convert`.
pub fn convert_range(t: IntType, a: Range) -> Range
    requires low { neg_ℤ (pos (2 ^ 63)) ≤ℤ a.lo }
    requires high { a.hi ≤ℤ pos (2 ^ 64 - 1) }
    ensures { interval_of result ≡ conversion_row_of t (interval_of a) }
{
    match t {
        IntType::Bool => {
            let zero = Range { lo: 0, hi: 0 };
            outcome(can_differ(a, zero), can_be_equal(a, zero))
        }
        _ => whole_or_all(t, a),
    }
}

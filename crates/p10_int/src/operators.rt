//! The operators on numbers that are converted already (C99 6.5.3.3, 6.5.5 to 6.5.12).

ghost use Rattle.std.specs.Prelude.{◌≡◌};
ghost use Rattle.p10_int.specs.Types.{InRange};
ghost use Rattle.p10_int.specs.Operators.{IsRightOperand, operate, operate_unary};

use crate::arithmetic::{divide, fit, multiply, remain};
use crate::bits::{bits, most_bits, shift_left, shift_right, value};
use crate::types::IntType;

/// Why a run stops where C99 leaves the behavior undefined.
#[derive(Clone, Copy, Debug, PartialEq, Eq)]
pub enum Stop {
    /// A signed `+ - *`, negation or quotient isn't representable, or `%` of such a quotient.
    U1,
    /// The divisor is 0.
    U2,
    /// A shift count is negative or at least the width of the promoted left operand.
    U3,
    /// The left operand of a signed `<<` is negative, or its result isn't representable.
    U4,
    /// A null pointer is dereferenced, moved, subtracted or ordered.
    U5,
    /// A pointer leaves its array and its one-past place, or the one-past place is read or written.
    U6,
    /// A dead object is reached, or a pointer to it is moved, subtracted or ordered.
    U7,
    /// An unset scalar is read.
    U8,
    /// Pointers into different arrays are subtracted or ordered.
    U9,
    /// The value of a call that ended without `return` is used.
    U10,
    /// `free` of anything but null or the first place of a live allocation.
    U11,
    /// A string literal is written.
    U12,
}

/// A binary operator that evaluates both operands.
#[derive(Clone, Copy, Debug, PartialEq, Eq)]
pub enum BinOp {
    /// `+` (C99 6.5.6).
    Add,
    /// `-` (C99 6.5.6).
    Sub,
    /// `*` (C99 6.5.5).
    Mul,
    /// `/`, rounded toward zero (C99 6.5.5).
    Div,
    /// `%`, with the sign of the dividend (C99 6.5.5).
    Rem,
    /// `<<` (C99 6.5.7).
    Shl,
    /// `>>`, rounded toward minus infinity (C99 6.5.7).
    Shr,
    /// `&` (C99 6.5.10).
    And,
    /// `|` (C99 6.5.12).
    Or,
    /// `^` (C99 6.5.11).
    Xor,
    /// `<` (C99 6.5.8).
    Lt,
    /// `>` (C99 6.5.8).
    Gt,
    /// `<=` (C99 6.5.8).
    Le,
    /// `>=` (C99 6.5.8).
    Ge,
    /// `==` (C99 6.5.9).
    Eq,
    /// `!=` (C99 6.5.9).
    Ne,
}

/// A unary operator on a value.
#[derive(Clone, Copy, Debug, PartialEq, Eq)]
pub enum UnOp {
    /// `+` (C99 6.5.3.3).
    Plus,
    /// `-` (C99 6.5.3.3).
    Neg,
    /// `!` (C99 6.5.3.3).
    Not,
    /// `~` (C99 6.5.3.3).
    Com,
}

/// The result of `a op b`, or the stop that C99 leaves undefined (C99 6.5.5 to 6.5.12).
///
/// `t` is the type to which the operands were converted: the common type of the usual conversions,
/// and for a shift the promoted type of its left operand. A comparison gives 0 or 1. A shift count
/// may be any number. Promotion leaves no type below `int`; at those the same rule holds, with
/// `_Bool` an unsigned type of width 1.
#[tactic(auto, using(crate::proofs::Carried::carried), unfolding(crate::specs::Operators::bitwise))]
pub fn apply(op: BinOp, t: IntType, a: i128, b: i128) -> Result<i128, Stop>
    requires left { InRange t a }
    requires right { IsRightOperand op t b }
    ensures { result ≡ operate op t a b }
{
    match op {
        BinOp::Add => fit(t, Stop::U1, a + b),
        BinOp::Sub => fit(t, Stop::U1, a - b),
        BinOp::Mul => multiply(t, a, b),
        BinOp::Div => divide(t, a, b),
        BinOp::Rem => remain(t, a, b),
        BinOp::Shl => shift_left(t, a, b),
        BinOp::Shr => shift_right(t, a, b),
        BinOp::And => Ok(value(t, bits(t, a) & bits(t, b))),
        BinOp::Or => Ok(value(t, bits(t, a) | bits(t, b))),
        BinOp::Xor => Ok(value(t, bits(t, a) ^ bits(t, b))),
        BinOp::Lt => Ok(i128::from(a < b)),
        BinOp::Gt => Ok(i128::from(a > b)),
        BinOp::Le => Ok(i128::from(a <= b)),
        BinOp::Ge => Ok(i128::from(a >= b)),
        BinOp::Eq => Ok(i128::from(a == b)),
        BinOp::Ne => Ok(i128::from(a != b)),
    }
}

/// The result of `op a`, or U1 for the negation of the least value of a signed type (C99 6.5.3.3).
///
/// `t` is the promoted type of the operand. `Not` gives 0 or 1.
#[tactic(auto, using(crate::proofs::Carried::carried), unfolding(crate::specs::Operators::complement))]
pub fn unary(op: UnOp, t: IntType, a: i128) -> Result<i128, Stop>
    requires { InRange t a }
    ensures { result ≡ operate_unary op t a }
{
    match op {
        UnOp::Plus => Ok(a),
        UnOp::Neg => fit(t, Stop::U1, -a),
        UnOp::Not => Ok(i128::from(a == 0)),
        UnOp::Com => Ok(value(t, most_bits(t) - bits(t, a))),
    }
}

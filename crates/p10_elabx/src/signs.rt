//! The operators that signs are.

ghost use Rattle.std.specs.Prelude.{◌≡◌};
ghost use Rattle.p10_elabx.specs.Judging.{operation_of, assignment_of, step_of, is_and, is_star};

use p10_core::LogicOp;
use p10_int::BinOp;
use p10_syn::Sign;

/// The operator of a sign between operands.
#[derive(Clone, Copy, Debug, PartialEq, Eq)]
pub enum Operation {
    /// Of two values.
    Values(BinOp),
    /// `&&` or `||`.
    Truth(LogicOp),
    /// None.
    Nothing,
}

/// Which operator a sign between operands is.
pub fn operation_of(sign: Sign) -> Operation
    ensures { result ≡ operation_of sign }
{
    match sign {
        Sign::Plus => Operation::Values(BinOp::Add),
        Sign::Minus => Operation::Values(BinOp::Sub),
        Sign::Star => Operation::Values(BinOp::Mul),
        Sign::Slash => Operation::Values(BinOp::Div),
        Sign::Percent => Operation::Values(BinOp::Rem),
        Sign::ShiftLeft => Operation::Values(BinOp::Shl),
        Sign::ShiftRight => Operation::Values(BinOp::Shr),
        Sign::And => Operation::Values(BinOp::And),
        Sign::Bar => Operation::Values(BinOp::Or),
        Sign::Caret => Operation::Values(BinOp::Xor),
        Sign::Less => Operation::Values(BinOp::Lt),
        Sign::Greater => Operation::Values(BinOp::Gt),
        Sign::LessEqual => Operation::Values(BinOp::Le),
        Sign::GreaterEqual => Operation::Values(BinOp::Ge),
        Sign::Equal => Operation::Values(BinOp::Eq),
        Sign::NotEqual => Operation::Values(BinOp::Ne),
        Sign::AndAnd => Operation::Truth(LogicOp::And),
        Sign::OrOr => Operation::Truth(LogicOp::Or),
        _ => Operation::Nothing,
    }
}

/// The operator of a compound assignment; none of `=`.
pub fn assignment_of(sign: Sign) -> Option<BinOp>
    ensures { result ≡ assignment_of sign }
{
    match sign {
        Sign::StarAssign => Some(BinOp::Mul),
        Sign::SlashAssign => Some(BinOp::Div),
        Sign::PercentAssign => Some(BinOp::Rem),
        Sign::PlusAssign => Some(BinOp::Add),
        Sign::MinusAssign => Some(BinOp::Sub),
        Sign::ShiftLeftAssign => Some(BinOp::Shl),
        Sign::ShiftRightAssign => Some(BinOp::Shr),
        Sign::AndAssign => Some(BinOp::And),
        Sign::CaretAssign => Some(BinOp::Xor),
        Sign::BarAssign => Some(BinOp::Or),
        _ => None,
    }
}

/// The operator of `++` and `--`.
pub fn step_of(sign: Sign) -> BinOp
    ensures { result ≡ step_of sign }
{
    match sign {
        Sign::Decrement => BinOp::Sub,
        _ => BinOp::Add,
    }
}

/// Whether a sign is `&`.
pub fn is_and(sign: Sign) -> bool
    ensures { result ≡ is_and sign }
{
    matches!(sign, Sign::And)
}

/// Whether a sign is `*`.
pub fn is_star(sign: Sign) -> bool
    ensures { result ≡ is_star sign }
{
    matches!(sign, Sign::Star)
}

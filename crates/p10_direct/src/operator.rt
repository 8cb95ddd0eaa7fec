//! The operators of a condition.

ghost use Rattle.std.specs.Prelude.{◌≡◌, ◌≤◌};
ghost use Rattle.p10_base.specs.Words.{plain_word};
ghost use Rattle.p10_direct.specs.private.Signs.{sign_of, binary_of, logical_of, comparison_of, arithmetical_of};
ghost use Rattle.p10_direct.specs.Operators.{level_of_binary};
ghost use Rattle.p10_direct.specs.Tokens.{token_of};

use p10_base::Word;
use p10_int::{BinOp, UnOp};

/// An operator between two operands.
#[derive(Clone, Copy)]
pub enum Binary {
    /// One that evaluates both operands.
    Apply(BinOp),
    /// `&&`.
    AndAlso,
    /// `||`.
    OrElse,
}

/// The operator that the word is before an operand.
#[tactic(auto, unfolding(crate::specs::private::Signs::sign_of))]
pub fn sign_operator(word: &Word<'_>) -> Option<UnOp>
    ensures { result ≡ sign_of (token_of (plain_word word.now)) }
{
    if word.is_punctuator(b"+") {
        Some(UnOp::Plus)
    } else if word.is_punctuator(b"-") {
        Some(UnOp::Neg)
    } else if word.is_punctuator(b"~") {
        Some(UnOp::Com)
    } else if word.is_punctuator(b"!") {
        Some(UnOp::Not)
    } else {
        None
    }
}

/// The operator that the word is between two operands.
#[tactic(auto, unfolding(crate::specs::private::Signs::binary_of))]
pub fn binary_operator(word: &Word<'_>) -> Option<Binary>
    ensures { result ≡ binary_of (token_of (plain_word word.now)) }
{
    if let Some(op) = logical(word) {
        return Some(op);
    }
    if let Some(op) = comparison(word) {
        return Some(op);
    }
    arithmetical(word)
}

/// `||`, `&&`, `|`, `^` or `&`.
#[tactic(auto, unfolding(crate::specs::private::Signs::logical_of))]
fn logical(word: &Word<'_>) -> Option<Binary>
    ensures { result ≡ logical_of (token_of (plain_word word.now)) }
{
    if word.is_punctuator(b"||") {
        Some(Binary::OrElse)
    } else if word.is_punctuator(b"&&") {
        Some(Binary::AndAlso)
    } else if word.is_punctuator(b"|") {
        Some(Binary::Apply(BinOp::Or))
    } else if word.is_punctuator(b"^") {
        Some(Binary::Apply(BinOp::Xor))
    } else if word.is_punctuator(b"&") {
        Some(Binary::Apply(BinOp::And))
    } else {
        None
    }
}

/// `==`, `!=`, `<`, `>`, `<=` or `>=`.
#[tactic(auto, unfolding(crate::specs::private::Signs::comparison_of))]
fn comparison(word: &Word<'_>) -> Option<Binary>
    ensures { result ≡ comparison_of (token_of (plain_word word.now)) }
{
    if word.is_punctuator(b"==") {
        Some(Binary::Apply(BinOp::Eq))
    } else if word.is_punctuator(b"!=") {
        Some(Binary::Apply(BinOp::Ne))
    } else if word.is_punctuator(b"<") {
        Some(Binary::Apply(BinOp::Lt))
    } else if word.is_punctuator(b">") {
        Some(Binary::Apply(BinOp::Gt))
    } else if word.is_punctuator(b"<=") {
        Some(Binary::Apply(BinOp::Le))
    } else if word.is_punctuator(b">=") {
        Some(Binary::Apply(BinOp::Ge))
    } else {
        None
    }
}

/// `<<`, `>>`, `+`, `-`, `*`, `/` or `%`.
#[tactic(auto, unfolding(crate::specs::private::Signs::arithmetical_of))]
fn arithmetical(word: &Word<'_>) -> Option<Binary>
    ensures { result ≡ arithmetical_of (token_of (plain_word word.now)) }
{
    if word.is_punctuator(b"<<") {
        Some(Binary::Apply(BinOp::Shl))
    } else if word.is_punctuator(b">>") {
        Some(Binary::Apply(BinOp::Shr))
    } else if word.is_punctuator(b"+") {
        Some(Binary::Apply(BinOp::Add))
    } else if word.is_punctuator(b"-") {
        Some(Binary::Apply(BinOp::Sub))
    } else if word.is_punctuator(b"*") {
        Some(Binary::Apply(BinOp::Mul))
    } else if word.is_punctuator(b"/") {
        Some(Binary::Apply(BinOp::Div))
    } else if word.is_punctuator(b"%") {
        Some(Binary::Apply(BinOp::Rem))
    } else {
        None
    }
}

/// How tightly the operator binds, from 1 to 10 (C99 6.5.5 to 6.5.14).
pub fn binding(op: Binary) -> u32
    ensures value { result ≡ level_of_binary op }
    ensures small { result ≤ 10 }
{
    match op {
        Binary::OrElse => 1,
        Binary::AndAlso => 2,
        Binary::Apply(BinOp::Or) => 3,
        Binary::Apply(BinOp::Xor) => 4,
        Binary::Apply(BinOp::And) => 5,
        Binary::Apply(BinOp::Eq | BinOp::Ne) => 6,
        Binary::Apply(BinOp::Lt | BinOp::Gt | BinOp::Le | BinOp::Ge) => 7,
        Binary::Apply(BinOp::Shl | BinOp::Shr) => 8,
        Binary::Apply(BinOp::Add | BinOp::Sub) => 9,
        Binary::Apply(BinOp::Mul | BinOp::Div | BinOp::Rem) => 10,
    }
}

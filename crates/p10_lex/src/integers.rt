//! Integer constants and their values (C99 6.4.4.1).

ghost use Rattle.std.specs.Prelude.{◌≡◌, ◌+◌, ◌*◌, ◌≤◌, ◌||◌, ◌&&◌, ◌==◌, Some, None, nat_lt, ◌^◌, if◌then◌else◌};
ghost use Rattle.p10_lex.specs.Bytes.{digit_value};
ghost use Rattle.p10_lex.specs.Integers.{after_digits, digits_of, has_type, integer_constant, integer_in, is_digit_of, is_l, is_u, is_unsigned, radix_of, small_value, suffix_of};
ghost use Rattle.p10_lex.specs.private.Steps.{step_of};

use crate::bytes;

/// An integer constant.
#[derive(Clone, Copy, Debug, PartialEq, Eq)]
pub struct Integer {
    pub value: u64,
    pub base: Base,
    pub suffix: Suffix,
}

/// The base of an integer constant.
#[derive(Clone, Copy, Debug, PartialEq, Eq)]
pub enum Base {
    /// After `0`.
    Octal,
    Decimal,
    /// After `0x`.
    Hexadecimal,
}

/// The suffix of an integer constant, in either case and order.
#[derive(Clone, Copy, Debug, PartialEq, Eq)]
pub enum Suffix {
    /// No suffix.
    Plain,
    /// `u`.
    Unsigned,
    /// `l`.
    Long,
    /// `ul`.
    UnsignedLong,
    /// `ll`.
    LongLong,
    /// `ull`.
    UnsignedLongLong,
}

impl Suffix {
    /// Whether it has a `u`.
    pub fn is_unsigned(self) -> bool
        ensures { result ≡ is_unsigned self }
    {
        match self {
            Suffix::Unsigned | Suffix::UnsignedLong | Suffix::UnsignedLongLong => true,
            Suffix::Plain | Suffix::Long | Suffix::LongLong => false,
        }
    }
}

/// The integer constant that a text is: digits and a suffix whose value has a type (C99 6.4.4.1); `None` for any other
/// text.
#[tactic(auto, unfolding(crate::specs::Integers::integer_constant))]
pub fn integer_constant(text: &[u8]) -> Option<Integer>
    ensures { result ≡ integer_constant text.now }
{
    match text {
        [b'0', b'x' | b'X', digits @ ..] => integer_in(Base::Hexadecimal, digits),
        [b'0', ..] => integer_in(Base::Octal, text),
        [_, ..] => integer_in(Base::Decimal, text),
        [] => None,
    }
}

/// Digits of a base, and a suffix.
fn integer_in(base: Base, text: &[u8]) -> Option<Integer>
    ensures { result ≡ integer_in base text.now }
{
    let suffix = suffix_of(after_digits(base, text))?;
    let value = value_of(base, digits(base, text))?;
    if has_type(base, suffix, value) {
        Some(Integer {
            value,
            base,
            suffix,
        })
    } else {
        None
    }
}

/// Whether a value has a type.
fn has_type(base: Base, suffix: Suffix, value: u64) -> bool
    ensures { result ≡ has_type base suffix value }
{
    match base {
        Base::Decimal => suffix.is_unsigned() || value < 0x8000_0000_0000_0000,
        Base::Octal | Base::Hexadecimal => true,
    }
}

/// What stands after the digits with which the text begins.
fn after_digits(base: Base, text: &[u8]) -> &[u8]
    ensures { result.now ≡ after_digits base text.now }
{
    let mut rest = text;
    while let [byte, others @ ..] = rest {
        if !is_digit_of(base, *byte) {
            break;
        }
        rest = others;
    }
    rest
}

/// The digits with which the text begins.
#[tactic(auto, using(crate::proofs::Digits::front_digits))]
fn digits(base: Base, text: &[u8]) -> &[u8]
    ensures { result.now ≡ digits_of base text.now }
{
    let rest = after_digits(base, text);
    &text[..text.len().saturating_sub(rest.len())]
}

/// Whether a byte is a digit of the base.
fn is_digit_of(base: Base, byte: u8) -> bool
    ensures { result ≡ is_digit_of base byte }
{
    match base {
        Base::Octal => bytes::is_octal(byte),
        Base::Decimal => bytes::is_digit(byte),
        Base::Hexadecimal => bytes::is_hexadecimal(byte),
    }
}

/// The value of at least one digit, if 64 bits hold it.
#[tactic(auto, unfolding(crate::specs::Integers::small_value))]
fn value_of(base: Base, digits: &[u8]) -> Option<u64>
    ensures { result ≡ small_value base digits.now }
{
    if digits.is_empty() {
        return None;
    }
    let mut value = 0;
    for byte in digits {
        match step(base, value, *byte) {
            Some(next) => value = next,
            None => return None,
        }
    }
    Some(value)
}

/// The value with one more digit, if 64 bits hold it.
fn step(base: Base, value: u64, byte: u8) -> Option<u64>
    ensures { result ≡ step_of base value byte }
{
    let next = scaled(base, value) + u128::from(bytes::digit_value(byte));
    if next < 0x1_0000_0000_0000_0000 {
        Some(next as u64)
    } else {
        None
    }
}

/// The value times the number of digits of the base.
fn scaled(base: Base, value: u64) -> u128
    ensures value { result ≡ value * radix_of base }
    ensures small { result ≤ 295147905179352825840 }
{
    let value = u128::from(value);
    match base {
        Base::Octal => value * 8,
        Base::Decimal => value * 10,
        Base::Hexadecimal => value * 16,
    }
}

/// The suffix that a text is.
#[tactic(auto, unfolding(crate::specs::Integers::suffix_of))]
fn suffix_of(text: &[u8]) -> Option<Suffix>
    ensures { result ≡ suffix_of text.now }
{
    match text {
        [] => Some(Suffix::Plain),
        [a] => one_letter(*a),
        [a, b] => two_letters(*a, *b),
        [a, b, c] => three_letters(*a, *b, *c),
        _ => None,
    }
}

fn one_letter(a: u8) -> Option<Suffix>
    ensures { result ≡ (if is_u a then Some Suffix.Unsigned else if is_l a then Some Suffix.Long else None) }
{
    if is_u(a) {
        Some(Suffix::Unsigned)
    } else if is_l(a) {
        Some(Suffix::Long)
    } else {
        None
    }
}

fn two_letters(a: u8, b: u8) -> Option<Suffix>
    ensures { result ≡ (if (is_u a && is_l b) || (is_l a && is_u b) then Some Suffix.UnsignedLong
        else if is_l a && (a == b) then Some Suffix.LongLong else None) }
{
    if (is_u(a) && is_l(b)) || (is_l(a) && is_u(b)) {
        Some(Suffix::UnsignedLong)
    } else if is_l(a) && a == b {
        Some(Suffix::LongLong)
    } else {
        None
    }
}

fn three_letters(a: u8, b: u8, c: u8) -> Option<Suffix>
    ensures { result ≡ (if (is_u a && is_l b && (b == c)) || (is_l a && (a == b) && is_u c) then Some Suffix.UnsignedLongLong
        else None) }
{
    if (is_u(a) && is_l(b) && b == c) || (is_l(a) && a == b && is_u(c)) {
        Some(Suffix::UnsignedLongLong)
    } else {
        None
    }
}

/// `u` in either case.
fn is_u(byte: u8) -> bool
    ensures { result ≡ is_u byte }
{
    byte == b'u' || byte == b'U'
}

/// `l` in either case.
fn is_l(byte: u8) -> bool
    ensures { result ≡ is_l byte }
{
    byte == b'l' || byte == b'L'
}

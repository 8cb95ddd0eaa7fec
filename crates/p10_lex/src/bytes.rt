//! Classes of bytes (C99 5.2.1, 6.4), and a test of texts.

ghost use Rattle.std.specs.Prelude.{◌≡◌, ◌<◌, length, true};
ghost use Rattle.p10_lex.specs.Pieces.{begins_byte};
ghost use Rattle.p10_lex.specs.Bytes.{is_blank, is_nondigit, is_digit, is_name_byte, is_octal, is_hexadecimal, digit_value, is_sign, is_exponent, is_quote, is_printable};

/// White space.
#[inline]
#[tactic(auto, unfolding(crate::specs::Bytes::is_blank))]
pub(crate) fn is_blank(byte: u8) -> bool
    ensures { result ≡ is_blank byte }
{
    byte == b' ' || (9 <= byte && byte <= 13)
}

/// A letter or `_`.
#[inline]
#[tactic(auto, unfolding(crate::specs::Bytes::is_nondigit))]
pub(crate) fn is_nondigit(byte: u8) -> bool
    ensures { result ≡ is_nondigit byte }
{
    (b'a' <= byte && byte <= b'z') || ((b'A' <= byte && byte <= b'Z') || byte == b'_')
}

/// A decimal digit.
#[inline]
#[tactic(auto, unfolding(crate::specs::Bytes::is_digit))]
pub(crate) fn is_digit(byte: u8) -> bool
    ensures { result ≡ is_digit byte }
{
    b'0' <= byte && byte <= b'9'
}

/// A letter, a digit or `_`.
#[inline]
#[tactic(auto, unfolding(crate::specs::Bytes::is_name_byte))]
pub(crate) fn is_name_byte(byte: u8) -> bool
    ensures { result ≡ is_name_byte byte }
{
    is_nondigit(byte) || is_digit(byte)
}

/// An octal digit.
#[inline]
#[tactic(auto, unfolding(crate::specs::Bytes::is_octal))]
pub(crate) fn is_octal(byte: u8) -> bool
    ensures { result ≡ is_octal byte }
{
    b'0' <= byte && byte <= b'7'
}

/// A hexadecimal digit.
#[inline]
#[tactic(auto, unfolding(crate::specs::Bytes::is_hexadecimal))]
pub(crate) fn is_hexadecimal(byte: u8) -> bool
    ensures { result ≡ is_hexadecimal byte }
{
    is_digit(byte) || ((b'a' <= byte && byte <= b'f') || (b'A' <= byte && byte <= b'F'))
}

/// The value of a digit in bases up to 16.
#[inline]
#[tactic(auto, unfolding(crate::specs::Bytes::digit_value))]
pub(crate) fn digit_value(byte: u8) -> u8
    ensures value { result ≡ digit_value byte }
{
    if b'a' <= byte {
        byte - 87
    } else if b'A' <= byte {
        byte - 55
    } else {
        byte.saturating_sub(48)
    }
}

/// `+` or `-`.
#[inline]
#[tactic(auto, unfolding(crate::specs::Bytes::is_sign))]
pub(crate) fn is_sign(byte: u8) -> bool
    ensures { result ≡ is_sign byte }
{
    byte == b'+' || byte == b'-'
}

/// A letter after which a sign goes on with a number.
#[inline]
#[tactic(auto, unfolding(crate::specs::Bytes::is_exponent))]
pub(crate) fn is_exponent(byte: u8) -> bool
    ensures { result ≡ is_exponent byte }
{
    (byte == b'e' || byte == b'E') || (byte == b'p' || byte == b'P')
}

/// A single or double quote.
#[inline]
#[tactic(auto, unfolding(crate::specs::Bytes::is_quote))]
pub(crate) fn is_quote(byte: u8) -> bool
    ensures { result ≡ is_quote byte }
{
    byte == b'\'' || byte == b'"'
}

/// A printable ASCII character.
#[inline]
#[tactic(auto, unfolding(crate::specs::Bytes::is_printable))]
pub(crate) fn is_printable(byte: u8) -> bool
    ensures { result ≡ is_printable byte }
{
    32 <= byte && byte <= 126
}

/// Whether a text begins with this byte.
#[inline]
#[tactic(auto, unfolding(crate::specs::Pieces::begins_byte))]
pub(crate) fn begins_byte(byte: u8, text: &[u8]) -> bool
    ensures value { result ≡ begins_byte byte text.now }
    ensures some { result ≡ true → 0 < length text.now }
{
    match text {
        [] => false,
        [first, ..] => *first == byte,
    }
}

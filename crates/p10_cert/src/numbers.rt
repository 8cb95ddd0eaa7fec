//! Decimal numbers without leading zeros, with a sign and without.

ghost use Rattle.std.specs.Prelude.{◌≡◌, ◌-◌, ◌≤◌, true, length, option_map, IfSome};
ghost use Rattle.std.specs.Char.{is_ascii_digit};
ghost use Rattle.std.specs.List.{list_all};
ghost use Rattle.p10_cert.specs.private.Reading.{number_at, labelled_at, signed_at, negative_at, positive_at, numeral_of, is_numeral, value_of_digits, most_digits};

use crate::bytes::{after, after_digits};

/// The most steps, calls, bytes or turns.
pub(crate) const GREATEST_COUNT: u128 = 1_000_000_000_000_000_000;

/// The greatest rank of a function, depth of a loop and number of a variable.
pub const GREATEST_INDEX: u128 = 4_294_967_295;

/// The greatest size of an end of a range and of a bound.
const GREATEST_SIZE: u128 = 100_000_000_000_000_000_000;

/// The most digits of a number: those of the greatest that a certificate may name.
const MOST_DIGITS: usize = 21;

/// The most digits of a number that is read with 64 bits.
const MOST_SHORT_DIGITS: usize = 17;

/// A number after a label.
#[tactic(auto, unfolding(crate::specs::private::Reading::labelled_at))]
pub fn labelled<'t>(text: &'t [u8], label: &[u8], most: u128) -> Option<(u128, &'t [u8])>
    ensures exact { option_map (λ x. (x.0, x.1.now)) result ≡ labelled_at label.now most text.now }
    ensures small { IfSome result (λ x. x.0 ≤ most) }
{
    number(after(text, label)?, most)
}

/// A number with its sign, of at most `GREATEST_SIZE`.
#[tactic(auto, unfolding(crate::specs::private::Reading::signed_at))]
pub fn signed(text: &[u8]) -> Option<(i128, &[u8])>
    ensures { option_map (λ x. (x.0, x.1.now)) result ≡ signed_at text.now }
{
    match text {
        [b'-', size @ ..] => negative(size),
        _ => positive(text),
    }
}

/// The number below zero whose size the text begins with.
#[tactic(auto, unfolding(crate::specs::private::Reading::negative_at))]
fn negative(text: &[u8]) -> Option<(i128, &[u8])>
    ensures { option_map (λ x. (x.0, x.1.now)) result ≡ negative_at text.now }
{
    let (size, rest) = number(text, GREATEST_SIZE)?;
    if size == 0 {
        None
    } else {
        Some((-(size as i128), rest))
    }
}

/// The number without a sign that the text begins with.
#[tactic(auto, unfolding(crate::specs::private::Reading::positive_at))]
fn positive(text: &[u8]) -> Option<(i128, &[u8])>
    ensures { option_map (λ x. (x.0, x.1.now)) result ≡ positive_at text.now }
{
    let (size, rest) = number(text, GREATEST_SIZE)?;
    Some((size as i128, rest))
}

/// A number that is at most `most`.
#[tactic(auto, using(crate::proofs::Steps::digits_front), unfolding(crate::specs::private::Reading::number_at))]
pub(crate) fn number(text: &[u8], most: u128) -> Option<(u128, &[u8])>
    ensures exact { option_map (λ x. (x.0, x.1.now)) result ≡ number_at most text.now }
    ensures small { IfSome result (λ x. x.0 ≤ most) }
{
    let rest = after_digits(text);
    let value = numeral(&text[..text.len() - rest.len()])?;
    if value <= most {
        Some((value, rest))
    } else {
        None
    }
}

/// The number whose decimal form these digits are.
#[tactic(auto, unfolding(crate::specs::private::Reading::numeral_of))]
fn numeral(digits: &[u8]) -> Option<u128>
    requires { list_all is_ascii_digit digits.now ≡ true }
    ensures { result ≡ numeral_of digits.now }
{
    if digits.len() <= MOST_SHORT_DIGITS {
        return short_numeral(digits);
    }
    if digits.len() > MOST_DIGITS {
        return None;
    }
    // `itoa` writes each number in one way, so no other spelling of it passes.
    let value = value_of_digits(digits);
    let mut buffer = itoa::Buffer::new();
    if buffer.format(value).as_bytes() == digits {
        Some(value)
    } else {
        None
    }
}

/// The number whose decimal form these few digits are.
#[tactic(auto, using(crate::proofs::Numerals::numeral_of_short))]
fn short_numeral(digits: &[u8]) -> Option<u128>
    requires short { length digits.now ≤ 17 }
    requires digits { list_all is_ascii_digit digits.now ≡ true }
    ensures { result ≡ numeral_of digits.now }
{
    if is_numeral(digits) {
        Some(u128::from(value_of_short(digits)))
    } else {
        None
    }
}

/// Whether there are digits, and no zero before others.
fn is_numeral(digits: &[u8]) -> bool
    ensures { result ≡ is_numeral digits.now }
{
    match digits {
        [first, others @ ..] => others.is_empty() || *first != b'0',
        [] => false,
    }
}

/// The number that few bytes spell where they are digits.
fn value_of_short(digits: &[u8]) -> u64
    requires { length digits.now ≤ 17 }
    ensures { result ≡ value_of_digits digits.now }
{
    let mut value: u64 = 0;
    for byte in digits {
        value = 10 * value + value_of_digit(*byte);
    }
    value
}

/// The number of a digit.
fn value_of_digit(byte: u8) -> u64
    ensures exact { result ≡ byte - 48 }
    ensures small { result ≤ 207 }
{
    u64::from(byte.saturating_sub(b'0'))
}

/// The number that the bytes spell where they are digits.
fn value_of_digits(digits: &[u8]) -> u128
    requires { length digits.now ≤ most_digits }
    ensures { result ≡ value_of_digits digits.now }
{
    let mut value: u128 = 0;
    for byte in digits {
        value = 10 * value + u128::from(byte.saturating_sub(b'0'));
    }
    value
}

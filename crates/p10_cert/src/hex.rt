//! Digests that a text spells: two hexadecimal digits a byte, with lower-case letters.

ghost use Rattle.std.specs.Prelude.{◌≡◌, ◌<◌, length, option_map};
ghost use Rattle.std.specs.List.{list_all};
ghost use Rattle.p10_cert.specs.Sealed.{bytes_of};
ghost use Rattle.p10_cert.specs.private.Reading.{digest_at, digest_of, is_hex_digit, nibble, spelled};

use crate::bytes::after;
use p10_base::Digest;

/// The digest that the text begins with, at the end of its line, and what stands after the line.
#[tactic(auto, unfolding(crate::specs::private::Reading::digest_at))]
pub(crate) fn digest(text: &[u8]) -> Option<(Digest, &[u8])>
    ensures { option_map (λ x. (bytes_of x.0, x.1.now)) result ≡ digest_at text.now }
{
    if text.len() < 64 {
        return None;
    }
    let (front, back) = text.split_at(64);
    let digest = digest_of(front)?;
    let rest = after(back, b"\n")?;
    Some((digest, rest))
}

/// The digest whose text these digits are.
#[tactic(auto, using(crate::proofs::HexLaws::digest_of_digits))]
fn digest_of(digits: &[u8]) -> Option<Digest>
    ensures { option_map bytes_of result ≡ digest_of digits.now }
{
    if digits.len() != 64 {
        return None;
    }
    if are_hex_digits(digits) {
        Some(Digest(spelled(digits)))
    } else {
        None
    }
}

/// Whether all bytes are hexadecimal digits with lower-case letters.
fn are_hex_digits(digits: &[u8]) -> bool
    ensures { result ≡ list_all is_hex_digit digits.now }
{
    digits.iter().all(|digit| is_hex_digit(*digit))
}

/// Whether a byte is a hexadecimal digit, where letters are of lower case.
#[tactic(auto, unfolding(crate::specs::private::Reading::is_hex_digit))]
fn is_hex_digit(digit: u8) -> bool
    ensures { result ≡ is_hex_digit digit }
{
    digit.is_ascii_digit() || (b'a' <= digit && digit <= b'f')
}

/// The bytes that these digits spell, two digits a byte.
fn spelled(digits: &[u8]) -> [u8; 32]
    requires { length digits.now ≡ 64 }
    ensures { result ≡ spelled digits.now }
{
    let mut bytes = [0u8; 32];
    let mut count = 0;
    let mut rest = digits;
    while let [high, low, others @ ..] = rest {
        bytes[count] = 16 * nibble(*high) + nibble(*low);
        count += 1;
        rest = others;
    }
    bytes
}

/// The number of a hexadecimal digit, and some number below 16 of another byte.
fn nibble(byte: u8) -> u8
    ensures exact { result ≡ nibble byte }
    ensures small { result < 16 }
{
    let digit = if 97 <= byte {
        byte - 87
    } else {
        byte.saturating_sub(48)
    };
    digit % 16
}

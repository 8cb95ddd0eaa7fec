//! Names, numbers and block comments: what is left after them.

ghost use Rattle.std.specs.Prelude.{◌≡◌};
ghost use Rattle.std.specs.Option.{option_map};
ghost use Rattle.p10_lex.specs.Bytes.{is_name_byte};
ghost use Rattle.p10_lex.specs.Lexemes.{goes_on_number, begins_number};
ghost use Rattle.p10_lex.specs.private.Runs.{after_run, after_number, after_comment, after_header};

use crate::bytes;

/// What is left after letters, digits and `_`.
#[tactic(auto, unfolding(crate::specs::private::Runs::after_run))]
pub(crate) fn after_name(text: &[u8]) -> &[u8]
    ensures { result.now ≡ after_run is_name_byte text.now }
{
    let mut rest = text;
    while let [first, others @ ..] = rest {
        if !bytes::is_name_byte(*first) {
            break;
        }
        rest = others;
    }
    rest
}

/// Whether a text begins with a digit, or a dot and a digit.
#[tactic(auto, unfolding(crate::specs::Lexemes::begins_number, crate::specs::Lexemes::begins_digit))]
pub(crate) fn begins_number(text: &[u8]) -> bool
    ensures { result ≡ begins_number text.now }
{
    match text {
        [] => false,
        [first] => bytes::is_digit(*first),
        [first, second, ..] => {
            bytes::is_digit(*first) || (*first == b'.' && bytes::is_digit(*second))
        }
    }
}

/// Whether a byte goes on with a number, after the byte `old`.
#[inline]
#[tactic(auto, unfolding(crate::specs::Lexemes::goes_on_number))]
fn goes_on_number(old: u8, byte: u8) -> bool
    ensures { result ≡ goes_on_number old byte }
{
    bytes::is_name_byte(byte) || (byte == b'.' || (bytes::is_sign(byte) && bytes::is_exponent(old)))
}

/// What is left after a number, whose first byte is `first`.
#[tactic(auto, unfolding(crate::specs::private::Runs::after_number))]
pub(crate) fn after_number(first: u8, text: &[u8]) -> &[u8]
    ensures { result.now ≡ after_number first text.now }
{
    let mut old = first;
    let mut rest = text;
    while let [next, others @ ..] = rest {
        if !goes_on_number(old, *next) {
            break;
        }
        old = *next;
        rest = others;
    }
    rest
}

/// What is left after the first `*/`.
#[tactic(auto, unfolding(crate::specs::private::Runs::after_comment))]
pub(crate) fn after_comment(text: &[u8]) -> Option<&[u8]>
    ensures { option_map (λ rest. rest.now) result ≡ after_comment text.now }
{
    let mut rest = text;
    while let [first, others @ ..] = rest {
        if *first == b'*' && bytes::begins_byte(b'/', others) {
            return Some(&others[1..]);
        }
        rest = others;
    }
    None
}

/// What is left after the `>` of an include name.
#[tactic(auto, unfolding(crate::specs::private::Runs::after_header))]
pub(crate) fn after_header(text: &[u8]) -> Option<&[u8]>
    ensures { option_map (λ rest. rest.now) result ≡ after_header text.now }
{
    let mut rest = text;
    while let [first, others @ ..] = rest {
        if *first == b'>' {
            return Some(others);
        }
        if *first == b'\n' {
            return None;
        }
        rest = others;
    }
    None
}

//! Character constants and strings: the values of their characters (C99 6.4.4.4, 6.4.5).

ghost use Rattle.std.specs.Prelude.{◌≡◌, ℤ, Some, None, is_some, option_copied, option_map, option_and_then, IfNone, IfOk, IfSome};
ghost use Rattle.p10_base.specs.Words.{Text};
ghost use Rattle.p10_lex.specs.declared.characters.Mode.TheVariants.{Plain};
ghost use Rattle.p10_lex.specs.Characters.{IsCharacter, IsString, char_value, is_allowed, simple_escape};
ghost use Rattle.p10_lex.specs.Literals.{add_hexadecimal, add_octal, begin_character, begin_escape, begun, character_value, inside, last_values, one_of, read_byte, values_of};
ghost use Rattle.p10_lex.specs.private.Scanning.{literal_values, IsLast, IsNext, is_literal_constant, is_quoted_constant, lone_value};

use crate::{bytes, splices};
use std::alloc::{AllocError, Global};

/// The value of a character constant as a `char`, which has a sign and 8 bits (C99 6.4.4.4); `None` for any other text.
pub fn character_value(text: &[u8]) -> Option<i128>
    ensures value { result ≡ character_value text.now }
    ensures found { IfSome result (IsCharacter text.now) }
    ensures none { IfNone result ((value : ℤ) → IsCharacter text.now value → ⊥) }
{
    read_character(text)
}

/// The bytes of a string, with its escapes read (C99 6.4.5); `None` for any other text. No 0 is put at the end, and strings
/// that stand next to each other are several texts.
///
/// # Errors
///
/// Out of memory alone.
pub fn string_bytes(alloc: Global, text: &[u8]) -> Result<Option<Vec<u8>>, AllocError>
    ensures found { IfOk result (λ found. IfSome found (λ bytes. IsString text.now bytes.items)) }
    ensures none { IfOk result (λ found. IfNone found ((values : Text) → IsString text.now values → ⊥)) }
{
    read_string(alloc, text)
}

/// The text between its first byte and its last, where these are `opening` and `closing`; `None` where
/// they are others, or the text has fewer than two bytes.
pub fn between(text: &[u8], opening: u8, closing: u8) -> Option<&[u8]>
    ensures { option_copied result ≡ inside opening closing text.now }
{
    if text.len() >= 2 && text[0] == opening && text[text.len() - 1] == closing {
        Some(&text[1..text.len() - 1])
    } else {
        None
    }
}

/// The value of a character constant.
#[tactic(auto, unfolding(crate::specs::Literals::character_value))]
fn read_character(text: &[u8]) -> Option<i128>
    ensures { result ≡ character_value text.now }
{
    let inside = between(text, b'\'', b'\'')?;
    let byte = single(b'\'', inside)?;
    Some(signed(byte))
}

/// The values of the characters of a string.
fn read_string(alloc: Global, text: &[u8]) -> Result<Option<Vec<u8>>, AllocError>
    ensures { IfOk result (λ found. option_map (λ bytes. bytes.items) found ≡ literal_values 34 text.now) }
{
    match between(text, b'"', b'"') {
        Some(inside) => bytes_between(alloc, inside),
        None => Ok(None),
    }
}

/// Whether a character constant, a string or an include name is well formed.
#[tactic(auto, unfolding(crate::specs::private::Scanning::is_literal_constant))]
pub(crate) fn is_literal_constant(text: &[u8]) -> bool
    ensures { result ≡ is_literal_constant text.now }
{
    match text {
        [] => true,
        [quote, rest @ ..] => {
            *quote == b'<' || is_quoted_constant(*quote, &rest[..rest.len().saturating_sub(1)])
        }
    }
}

/// Whether what stands between quotes is well formed: one character, or those of a string.
#[tactic(auto, unfolding(crate::specs::private::Scanning::is_quoted_constant))]
fn is_quoted_constant(quote: u8, inside: &[u8]) -> bool
    ensures { result ≡ is_quoted_constant quote inside.now }
{
    if quote == b'\'' {
        single(quote, inside).is_some()
    } else {
        are_characters(quote, inside)
    }
}

/// The bytes of a string, by what stands between its quotes.
fn bytes_between(alloc: Global, inside: &[u8]) -> Result<Option<Vec<u8>>, AllocError>
    ensures { IfOk result (λ found. option_map (λ bytes. bytes.items) found ≡ values_of 34 inside.now) }
{
    let mut bytes = Vec::new(alloc);
    let mut place = beginning(inside);
    loop {
        match scan(b'"', place) {
            Next::Value(value, after) => {
                bytes.push(value)?;
                place = after;
            }
            Next::Last(value) => {
                if let Some(value) = value {
                    bytes.push(value)?;
                }
                return Ok(Some(bytes));
            }
            Next::Bad => return Ok(None),
        }
    }
}

/// Whether what stands between quotes is well formed.
fn are_characters(quote: u8, inside: &[u8]) -> bool
    ensures { result ≡ is_some (values_of quote inside.now) }
{
    let mut place = beginning(inside);
    loop {
        match scan(quote, place) {
            Next::Value(_, after) => place = after,
            Next::Last(_) => return true,
            Next::Bad => return false,
        }
    }
}

/// The value of the only character between quotes; `None` where there are several or none.
fn single(quote: u8, inside: &[u8]) -> Option<u8>
    ensures { result ≡ option_and_then one_of (values_of quote inside.now) }
{
    match scan(quote, beginning(inside)) {
        Next::Value(value, after) => alone(value, scan(quote, after)),
        Next::Last(value) => value,
        Next::Bad => None,
    }
}

/// The value of a character, where nothing comes after it.
fn alone(value: u8, after: Next<'_>) -> Option<u8>
    ensures { result ≡ lone_value value after.entry }
{
    match after {
        Next::Last(None) => Some(value),
        Next::Last(Some(_)) | Next::Value(..) | Next::Bad => None,
    }
}

/// The value of a byte as a `char`.
fn signed(byte: u8) -> i128
    ensures { result ≡ char_value byte }
{
    let value = i128::from(byte);
    if value < 128 { value } else { value - 256 }
}

/// A place in a literal: what stands before it, and the bytes from it on.
#[derive(Clone, Copy)]
pub(crate) struct Place<'t> {
    mode: Mode,
    rest: &'t [u8],
}

/// What stands before a byte of a literal.
#[derive(Clone, Copy)]
pub(crate) enum Mode {
    /// A whole character of this value, or nothing.
    Plain(Option<u8>),
    /// A backslash.
    Escape,
    /// An octal escape of this value, after the number of digits that may still be added.
    Octal(u8, u8),
    /// A backslash and `x`.
    HexadecimalStart,
    /// A hexadecimal escape of this value.
    Hexadecimal(u8),
}

/// What comes next in a literal.
#[derive(Clone, Copy)]
pub(crate) enum Next<'t> {
    /// A character of this value, and the place after it.
    Value(u8, Place<'t>),
    /// The value of the last character, or nothing.
    Last(Option<u8>),
    /// What isn't allowed.
    Bad,
}

/// The place before what stands between quotes.
fn beginning(inside: &[u8]) -> Place<'_>
    ensures mode { result.mode ≡ Plain None }
    ensures rest { result.rest.now ≡ inside.now }
{
    Place {
        mode: Mode::Plain(None),
        rest: inside,
    }
}

/// What comes next from a place on; splices are passed over.
#[tactic(auto, unfolding(crate::specs::Literals::values_from, crate::specs::Splices::joined_after))]
fn scan<'t>(quote: u8, place: Place<'t>) -> Next<'t>
    ensures { IsNext quote place.entry result }
{
    let mut rest = place.rest;
    let mut mode = place.mode;
    let mut skip = 0;
    while let [first, others @ ..] = rest {
        if 0 < skip {
            skip -= 1;
        } else {
            let splice = splices::splice_length(rest);
            if 0 < splice {
                skip = splice - 1;
            } else {
                match read_byte(quote, mode, *first) {
                    Step::On(after) => mode = after,
                    Step::Ends(value, after) => {
                        return Next::Value(
                            value,
                            Place {
                                mode: after,
                                rest: others,
                            },
                        );
                    }
                    Step::Wrong => return Next::Bad,
                }
            }
        }
        rest = others;
    }
    last(mode)
}

/// What comes where a literal ends.
#[tactic(auto, unfolding(crate::specs::Literals::last_values))]
fn last<'t>(mode: Mode) -> Next<'t>
    ensures { IsLast mode result }
{
    match mode {
        Mode::Plain(value) => Next::Last(value),
        Mode::Octal(_, value) | Mode::Hexadecimal(value) => Next::Last(Some(value)),
        Mode::Escape | Mode::HexadecimalStart => Next::Bad,
    }
}

/// What a byte of a literal does.
#[derive(Clone, Copy)]
pub(crate) enum Step {
    /// It goes on with a character.
    On(Mode),
    /// It begins a character after one of this value.
    Ends(u8, Mode),
    /// It isn't allowed.
    Wrong,
}

/// What a byte of a literal does, by what stands before it.
#[tactic(auto, unfolding(crate::specs::Literals::read_byte))]
fn read_byte(quote: u8, mode: Mode, byte: u8) -> Step
    ensures { result ≡ read_byte quote mode byte }
{
    match mode {
        Mode::Plain(value) => begun(value, begin_character(quote, byte)),
        Mode::Escape => begin_escape(byte),
        Mode::Octal(left, value) => {
            if 0 < left && bytes::is_octal(byte) {
                add_octal(left, value, byte)
            } else {
                begun(Some(value), begin_character(quote, byte))
            }
        }
        Mode::HexadecimalStart => {
            if bytes::is_hexadecimal(byte) {
                Step::On(Mode::Hexadecimal(bytes::digit_value(byte)))
            } else {
                Step::Wrong
            }
        }
        Mode::Hexadecimal(value) => {
            if bytes::is_hexadecimal(byte) {
                add_hexadecimal(value, byte)
            } else {
                begun(Some(value), begin_character(quote, byte))
            }
        }
    }
}

/// What a byte does that begins a character: it ends the one before it, if there is one.
fn begun(value: Option<u8>, mode: Option<Mode>) -> Step
    ensures { result ≡ begun value mode }
{
    match (value, mode) {
        (_, None) => Step::Wrong,
        (None, Some(mode)) => Step::On(mode),
        (Some(value), Some(mode)) => Step::Ends(value, mode),
    }
}

/// A character begins.
#[tactic(auto, unfolding(crate::specs::Literals::begin_character))]
fn begin_character(quote: u8, byte: u8) -> Option<Mode>
    ensures { result ≡ begin_character quote byte }
{
    if byte == b'\\' {
        Some(Mode::Escape)
    } else if is_allowed(quote, byte) {
        Some(Mode::Plain(Some(byte)))
    } else {
        None
    }
}

/// Whether a byte that is no escape may stand in a literal.
#[tactic(auto, unfolding(crate::specs::Characters::is_allowed))]
fn is_allowed(quote: u8, byte: u8) -> bool
    ensures { result ≡ is_allowed quote byte }
{
    byte != quote
        && (if quote == b'\'' {
            bytes::is_printable(byte)
        } else {
            byte != b'\n'
        })
}

/// The byte after a backslash.
#[tactic(auto, unfolding(crate::specs::Literals::begin_escape))]
fn begin_escape(byte: u8) -> Step
    ensures { result ≡ begin_escape (simple_escape byte) byte }
{
    match simple_escape(byte) {
        Some(value) => Step::On(Mode::Plain(Some(value))),
        None => {
            if bytes::is_octal(byte) {
                Step::On(Mode::Octal(2, bytes::digit_value(byte)))
            } else if byte == b'x' {
                Step::On(Mode::HexadecimalStart)
            } else {
                Step::Wrong
            }
        }
    }
}

/// The value of an escape of one byte.
#[tactic(auto, unfolding(crate::specs::Characters::simple_escape))]
fn simple_escape(byte: u8) -> Option<u8>
    ensures { result ≡ simple_escape byte }
{
    match byte {
        b'\'' | b'"' | b'?' | b'\\' => Some(byte),
        b'a' => Some(7),
        b'b' => Some(8),
        b't' => Some(9),
        b'n' => Some(10),
        b'v' => Some(11),
        b'f' => Some(12),
        b'r' => Some(13),
        _ => None,
    }
}

/// One more digit of an octal escape.
#[tactic(auto, unfolding(crate::specs::Literals::add_octal))]
fn add_octal(left: u8, value: u8, byte: u8) -> Step
    ensures { result ≡ add_octal left value byte }
{
    let value = u32::from(value) * 8 + u32::from(bytes::digit_value(byte));
    if value < 256 {
        Step::On(Mode::Octal(left.saturating_sub(1), value as u8))
    } else {
        Step::Wrong
    }
}

/// One more digit of a hexadecimal escape.
#[tactic(auto, unfolding(crate::specs::Literals::add_hexadecimal))]
fn add_hexadecimal(value: u8, byte: u8) -> Step
    ensures { result ≡ add_hexadecimal value byte }
{
    let value = u32::from(value) * 16 + u32::from(bytes::digit_value(byte));
    if value < 256 {
        Step::On(Mode::Hexadecimal(value as u8))
    } else {
        Step::Wrong
    }
}

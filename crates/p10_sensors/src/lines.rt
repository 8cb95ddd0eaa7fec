//! The first line of a text.

ghost use Rattle.std.specs.Prelude.{◌≡◌, ◌≤◌, ◌++◌, length, IfSome, IfNone};
ghost use Rattle.p10_sensors.specs.Texts.{IsValue, sensor_line, NoValueBegins};
ghost use Rattle.p10_sensors.specs.private.Lines.{line_length};

use crate::numbers::value_of;

/// The value on the first line of a text, and what stands after that line.
pub(crate) fn first_value(text: &[u8]) -> Option<(i128, &[u8])>
    ensures some { IfSome result (λ r. IsValue r.0 × (text.now ≡ sensor_line r.0 ++ r.1.now)) }
    ensures none { IfNone result (NoValueBegins text.now) }
{
    let end = line_length(text);
    if end == text.len() {
        return None;
    }
    match value_of(&text[..end]) {
        Some(value) => Some((value, &text[end + 1..])),
        None => None,
    }
}

/// The bytes before the first LF of a text, or all where it has none.
fn line_length(text: &[u8]) -> usize
    ensures exact { result ≡ line_length text.now }
    ensures within { result ≤ length text.now }
{
    let mut count = 0;
    let mut rest = text;
    while let [byte, others @ ..] = rest {
        if *byte == b'\n' {
            return count;
        }
        count += 1;
        rest = others;
    }
    count
}

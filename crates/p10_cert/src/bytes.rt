//! Fixed texts, names and runs of bytes.

ghost use Rattle.std.specs.Prelude.{◌≡◌, ◌≤◌, length, option_copied, option_map};
ghost use Rattle.std.specs.Char.{is_ascii_digit};
ghost use Rattle.std.specs.List.{list_all};
ghost use Rattle.p10_cert.specs.Lines.{is_name, is_name_byte, is_nondigit, is_section_name, is_section_byte, is_body_byte};
ghost use Rattle.p10_cert.specs.private.Reading.{after_front, begin_apart, after_run, name_at, section_name_at};

/// What stands after the label, if the text begins with it.
#[tactic(auto, using(crate::proofs::Steps::apart))]
pub fn after<'t>(text: &'t [u8], label: &[u8]) -> Option<&'t [u8]>
    ensures { option_copied result ≡ after_front label.now text.now }
{
    // a line differs from most labels in its first byte
    if begin_apart(text, label) {
        return None;
    }
    stripped(text, label)
}

/// Whether two texts begin with different bytes.
fn begin_apart(text: &[u8], label: &[u8]) -> bool
    ensures { result ≡ begin_apart text.now label.now }
{
    match text {
        [byte, ..] => match label {
            [wanted, ..] => *byte != *wanted,
            [] => false,
        },
        [] => false,
    }
}

/// The text without the label at its beginning.
#[tactic(auto, unfolding(crate::specs::private::Reading::after_front))]
fn stripped<'t>(text: &'t [u8], label: &[u8]) -> Option<&'t [u8]>
    ensures { option_copied result ≡ after_front label.now text.now }
{
    text.strip_prefix(label)
}

/// A name of C (C99 6.4.2.1), keywords included, and what stands after it.
#[tactic(auto, unfolding(crate::specs::private::Reading::name_at))]
pub(crate) fn name(text: &[u8]) -> Option<(&[u8], &[u8])>
    ensures { option_map (λ x. (x.0.now, x.1.now)) result ≡ name_at text.now }
{
    let rest = after_name_bytes(text);
    let name = &text[..text.len() - rest.len()];
    if is_name(name) {
        Some((name, rest))
    } else {
        None
    }
}

/// What is left after the digits that the text begins with.
pub(crate) fn after_digits(text: &[u8]) -> &[u8]
    ensures rest { result.now ≡ after_run is_ascii_digit text.now }
    ensures shorter { length result.now ≤ length text.now }
{
    let mut rest = text;
    while let [first, others @ ..] = rest {
        if !first.is_ascii_digit() {
            break;
        }
        rest = others;
    }
    rest
}

/// What is left after the letters, digits and `_` that the text begins with.
fn after_name_bytes(text: &[u8]) -> &[u8]
    ensures rest { result.now ≡ after_run is_name_byte text.now }
    ensures shorter { length result.now ≤ length text.now }
{
    let mut rest = text;
    while let [first, others @ ..] = rest {
        if !is_name_byte(*first) {
            break;
        }
        rest = others;
    }
    rest
}

/// Whether a text is a name of C (C99 6.4.2.1), keywords included.
fn is_name(text: &[u8]) -> bool
    ensures { result ≡ is_name text.now }
{
    match text {
        [first, others @ ..] => is_nondigit(*first) && are_name_bytes(others),
        [] => false,
    }
}

/// Whether all bytes are letters, digits and `_`.
fn are_name_bytes(bytes: &[u8]) -> bool
    ensures { result ≡ list_all is_name_byte bytes.now }
{
    bytes.iter().all(|byte| is_name_byte(*byte))
}

/// Whether a byte is a letter or `_` (C99 6.4.2.1: a nondigit).
#[tactic(auto, unfolding(crate::specs::Lines::is_nondigit))]
fn is_nondigit(byte: u8) -> bool
    ensures { result ≡ is_nondigit byte }
{
    byte.is_ascii_alphabetic() || byte == b'_'
}

/// Whether a byte is a letter, a digit or `_`.
#[tactic(auto, unfolding(crate::specs::Lines::is_name_byte))]
fn is_name_byte(byte: u8) -> bool
    ensures { result ≡ is_name_byte byte }
{
    byte.is_ascii_alphanumeric() || byte == b'_'
}

/// The name of a section, and what stands after it.
#[tactic(auto, unfolding(crate::specs::private::Reading::section_name_at))]
pub(crate) fn section_name(text: &[u8]) -> Option<(&[u8], &[u8])>
    ensures { option_map (λ x. (x.0.now, x.1.now)) result ≡ section_name_at text.now }
{
    let rest = after_section_bytes(text);
    let name = &text[..text.len() - rest.len()];
    if is_section_name(name) {
        Some((name, rest))
    } else {
        None
    }
}

/// What is left after the lower-case letters, digits and `_` that the text begins with.
fn after_section_bytes(text: &[u8]) -> &[u8]
    ensures rest { result.now ≡ after_run is_section_byte text.now }
    ensures shorter { length result.now ≤ length text.now }
{
    let mut rest = text;
    while let [first, others @ ..] = rest {
        if !is_section_byte(*first) {
            break;
        }
        rest = others;
    }
    rest
}

/// What is left after the blanks and visible characters that the text begins with.
pub(crate) fn after_body_bytes(text: &[u8]) -> &[u8]
    ensures rest { result.now ≡ after_run is_body_byte text.now }
    ensures shorter { length result.now ≤ length text.now }
{
    let mut rest = text;
    while let [first, others @ ..] = rest {
        if !is_body_byte(*first) {
            break;
        }
        rest = others;
    }
    rest
}

/// Whether a text is the name of a section: 1 to 32 lower-case letters, digits and `_`.
fn is_section_name(text: &[u8]) -> bool
    ensures { result ≡ is_section_name text.now }
{
    1 <= text.len() && (text.len() <= 32 && are_section_bytes(text))
}

/// Whether all bytes are lower-case letters, digits and `_`.
fn are_section_bytes(bytes: &[u8]) -> bool
    ensures { result ≡ list_all is_section_byte bytes.now }
{
    bytes.iter().all(|byte| is_section_byte(*byte))
}

/// Whether a byte is a lower-case letter, a digit or `_`.
#[tactic(auto, unfolding(crate::specs::Lines::is_section_byte))]
fn is_section_byte(byte: u8) -> bool
    ensures { result ≡ is_section_byte byte }
{
    byte.is_ascii_lowercase() || byte.is_ascii_digit() || byte == b'_'
}

/// Whether a byte is a blank or a visible character of ASCII.
#[tactic(auto, unfolding(crate::specs::Lines::is_body_byte))]
fn is_body_byte(byte: u8) -> bool
    ensures { result ≡ is_body_byte byte }
{
    32 <= byte && byte <= 126
}

//! Numbers in decimal, as each is written in one way alone.

ghost use Rattle.std.specs.Prelude.{◌≡◌, ◌↔◌, IsTrue, ℕ, ◌<◌, ◌^◌, ◌∷◌, ℤ, IfSome, IfNone, decimal};
ghost use Rattle.std.specs.Fmt.{signed_decimal};
ghost use Rattle.p10_sensors.specs.Texts.{IsValue};

/// The size of the least value.
const LARGEST_SIZE: u64 = 9_223_372_036_854_775_808;

/// The value that a line without its LF is.
pub(crate) fn value_of(line: &[u8]) -> Option<i128>
    ensures some { IfSome result (λ z. IsValue z × (line.now ≡ signed_decimal z)) }
    ensures none { IfNone result ((z : ℤ) → IsValue z → line.now ≡ signed_decimal z → ⊥) }
{
    match line {
        [b'-', size @ ..] => negative(size),
        _ => positive(line),
    }
}

/// The value below zero of this size.
fn negative(size: &[u8]) -> Option<i128>
    ensures some { IfSome result (λ z. IsValue z × (45 ∷ size.now ≡ signed_decimal z)) }
    ensures none { IfNone result ((z : ℤ) → IsValue z → 45 ∷ size.now ≡ signed_decimal z → ⊥) }
{
    match number(size) {
        Some(number) => {
            if number == 0 {
                return None;
            }
            if number > LARGEST_SIZE {
                return None;
            }
            Some(-i128::from(number))
        }
        None => None,
    }
}

/// The value without a sign.
fn positive(line: &[u8]) -> Option<i128>
    ensures some { IfSome result (λ z. IsValue z × (line.now ≡ signed_decimal z)) }
    ensures none { IfNone result ((n : ℕ) → n < 2 ^ 64 → line.now ≡ decimal n → ⊥) }
{
    match number(line) {
        Some(number) => Some(i128::from(number)),
        None => None,
    }
}

/// The number that digits are: they are those that are written for it.
fn number(digits: &[u8]) -> Option<u64>
    ensures some { IfSome result (λ n. (n < 2 ^ 64) × (digits.now ≡ decimal n)) }
    ensures none { IfNone result ((n : ℕ) → n < 2 ^ 64 → digits.now ≡ decimal n → ⊥) }
{
    let Ok(text) = std::str::from_utf8(digits) else {
        return None;
    };
    let Ok(number) = text.parse::<u64>() else {
        return None;
    };
    if is_form_of(number, digits) {
        Some(number)
    } else {
        None
    }
}

/// Whether these are the digits that are written for a number.
fn is_form_of(number: u64, digits: &[u8]) -> bool
    ensures { IsTrue result ↔ (decimal number ≡ digits.now) }
{
    let mut buffer = itoa::Buffer::new();
    buffer.format(number).as_bytes() == digits
}
